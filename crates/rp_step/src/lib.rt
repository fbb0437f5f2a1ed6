//! A step of carrying out a plan is made: its calls on the disk.
#![tactic(auto)]

mod contents;
mod copies;
mod fault;
mod paths;
mod rooms;
mod step;
mod steps;

pub use fault::ApplyFault;
pub use paths::path;
pub use step::make_step;
pub use steps::make_steps;

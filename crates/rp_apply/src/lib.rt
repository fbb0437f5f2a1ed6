//! A plan is carried out: first all memory is taken, then the image is changed.
#![tactic(auto)]

mod carrying;
mod numbers;
mod paths;
mod ready;

pub use carrying::{Done, commit};
pub use numbers::plan_fits;
pub use ready::{Ready, prepare};
pub use rp_step::ApplyFault;

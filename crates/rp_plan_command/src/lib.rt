//! The command `plan`: prints what is to become of an image's table.
#![tactic(auto)]

mod command;
mod law;

pub use command::plan;
pub use law::plan_by_status;

//! The command `dissect`: prints which partitions of an image a policy lets be used.
#![tactic(auto)]

mod command;
mod law;

pub use command::dissect;
pub use law::dissect_by_status;

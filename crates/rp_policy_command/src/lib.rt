//! The commands `policy` and `compare`: they print what policies say, and ask no disk.
#![tactic(auto)]

mod commands;
mod law;

pub use commands::{compare, policy};
pub use law::{compare_by_status, policy_by_status};

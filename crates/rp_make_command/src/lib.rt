//! The command `make`: makes a large image from a number, applies it, checks it, and prints a summary.
#![tactic(auto)]

mod carrying;
mod checking;
mod command;
mod front;
mod law;
mod planning;

pub use command::make;
pub use law::{make_ends, make_never_fails_in_memory};

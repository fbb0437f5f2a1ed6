//! The command `show`: prints the table that an image shows.
#![tactic(auto)]

mod command;
mod law;

pub use command::show;
pub use law::show_by_status;

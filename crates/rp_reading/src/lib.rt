//! The first stage of the commands that take definitions: they are read from folders.
#![tactic(auto)]

mod read;

pub use read::{Unread, read_definitions, unread_refusal};

//! Worked rows of what a table and a plan must be: for each rule a value that meets it, and for each of its parts the same value
//! with that part turned, which doesn't. It ships nothing.
#![tactic(auto)]

mod plans;
mod tables;

pub use plans::{what_fits, what_is_well_formed};
pub use tables::{what_can_be_written, what_is_in_place};

//! How code over any disk says what a stop at any moment leaves: calls in a straight line, and in a loop.
#![tactic(auto)]

mod copies;

pub use copies::{fill, two_copies};

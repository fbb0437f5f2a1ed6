//! The texts that the program prints of image policies.
#![tactic(auto)]

mod policies;

pub use policies::{beyond_text, policy_text};

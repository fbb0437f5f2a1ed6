//! The texts that the program prints of a policy's verdicts.
#![tactic(auto)]

mod json;
mod lines;

pub use lines::verdict_text;

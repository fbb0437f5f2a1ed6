//! What the definition files say that the command `make` makes from a number: no code, a law.
#![tactic(auto)]

mod law;

pub use law::each_number_has_definitions;

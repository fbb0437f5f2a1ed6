//! What planning asks of an image and its definitions that they don't have.
#![tactic(auto)]

mod demand;

pub use demand::Demand;

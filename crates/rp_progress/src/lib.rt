//! How far long work is: the bytes that move through a disk and sources are counted, and shown on standard error.
//!
//! What is wrapped tells the same as before, so nothing that is said of a run changes.
#![tactic(auto)]

mod meter;
mod metered;
mod size;
#[cfg(test)]
mod tests;

pub use meter::Meter;
pub use metered::Metered;

//! What the sources tell of what definitions without a row ask for: their lengths, and the root hashes of pairs.
#![tactic(auto)]

mod facts;
mod fault;

pub use facts::facts_of;
pub use fault::FactFault;

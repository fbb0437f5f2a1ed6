//! What the calls of a plan leave while other programs write to the old partitions: a law on lists of calls.
#![tactic(auto)]

mod law;

pub use law::stopped_while_others_write;

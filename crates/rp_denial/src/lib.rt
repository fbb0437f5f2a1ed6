//! The refusals of image policies: a text that is none, and a partition that is denied. Their lines take no memory.
#![tactic(auto)]

mod denials;

pub use denials::{POLICY, deny, refuse_policy};

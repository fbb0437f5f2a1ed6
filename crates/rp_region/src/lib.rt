//! The blocks that carrying out a plan takes: both copies of a table, a piece of a source, and the levels of a hash tree.
#![tactic(auto)]

mod blocks;

pub use blocks::{Blocks, new_blocks, write_copies};

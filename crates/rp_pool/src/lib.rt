//! A region of blocks of 4,096 bytes, allocated once, from which runs are lent.
#![tactic(auto)]

pub mod law;
mod pool;

pub use pool::{Lease, Pool};

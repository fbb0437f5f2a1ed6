//! dm-verity's hash trees (Linux, dm-verity): their size, their blocks and their root hash.
#![tactic(auto)]

mod builder;
pub mod law;
mod out;
mod shape;
mod sources;
mod superblock;
mod tree;

pub use builder::Builder;
pub use out::{Nowhere, TreeOut};
pub use shape::{BLOCK, BLOCK_UNITS, DIGEST, FAN, LANES, blocks_over, hash_blocks, levels, runs};
pub use sources::root_of;
pub use superblock::{MOST_SALT, SALT, Superblock, read_superblock, write_superblock};

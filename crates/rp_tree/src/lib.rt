//! Whether the hash tree of a data row is right (Linux, dm-verity).
#![tactic(auto)]

mod bad;
mod check;
pub mod law;
mod level;
mod read;
mod right;
mod run;
mod tree;

pub use bad::Bad;
pub use check::{ROOM, WIDE_ROOM, check_all, check_root};
pub use rp_verity::BLOCK_UNITS;

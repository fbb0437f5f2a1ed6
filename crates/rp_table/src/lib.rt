//! What an image shows of its partition table, and whether it is accepted.
#![tactic(auto)]

mod check;
mod image;
mod judge;
mod pieces;
mod rows;
mod told;

pub use image::{read, read_at};
pub use rp_gpt::{Empty, TableFault};

//! A place's copy is written in its three parts, and the protective MBR.
#![tactic(auto)]

mod parts;
mod write;

pub use write::{close_header, write_array, write_header, write_mbr};

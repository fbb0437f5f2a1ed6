//! SHA-256 (FIPS 180-4) of four messages of one length at once, each in its own lane of vectors.
#![tactic(auto)]

mod digest;
mod message;
mod rounds;
mod word;

pub use digest::{digest_blocks, digest4};

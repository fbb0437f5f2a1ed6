//! Ranges of a disk are filled piece by piece: with zeros, or from a source.
#![tactic(auto)]

mod copy;
mod fault;
mod piece;
mod zeros;

pub use copy::copy_source;
pub use fault::FillFault;
pub use zeros::write_zeros;

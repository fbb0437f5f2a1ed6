//! Which files of the folders are definition pieces, and in which order.
#![tactic(auto)]

mod fault;
mod found;
mod loader;
mod piece;
mod reader;

pub use fault::LoadFault;
pub use loader::load;
pub use piece::Piece;

//! What an image first differs in from what is planned for it.
#![tactic(auto)]

mod difference;
mod table;
mod trees;

pub use difference::{Difference, ROOM, difference_of};
pub use rp_tree::Bad;

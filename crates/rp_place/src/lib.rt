//! Where new partitions go among the free areas, and which are dropped for want of room.
#![tactic(auto)]

mod fit;
pub mod law;
mod threshold;

pub use fit::{New, PlaceFault, place};
pub use threshold::{Placed, settle};

//! Which rows of a table belong to which definitions, and the areas between the rows.
#![tactic(auto)]

mod behind;
mod extents;
mod gaps;
pub mod law;
mod matching;

pub use gaps::{Area, AreaFault, areas};
pub use matching::assign;

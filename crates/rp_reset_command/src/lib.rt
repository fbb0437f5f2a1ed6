//! The commands `plan` and `apply` with a factory reset: the partitions of definitions that say so are taken out first, by a
//! plan of its own, and what is planned over what is left makes them anew.
#![tactic(auto)]

mod apply;
mod carrying;
mod plan;
mod renewal;
mod telling;

pub use apply::apply_reset;
pub use plan::plan_reset;
pub use renewal::Renewal;

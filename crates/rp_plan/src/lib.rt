//! Planning: from the table that an image shows, definitions and what is known of their sources to the goal, or the first
//! demand (systemd-repart(8)).
#![tactic(auto)]

mod demands;
mod kept;
pub mod law;
mod names;
mod notes;
mod planning;
mod rows;

pub use planning::plan;
pub use rp_demand::Demand;
pub use rp_sizes::{Fact, Need, pair_blocks, salt_of, super_id, wanted};

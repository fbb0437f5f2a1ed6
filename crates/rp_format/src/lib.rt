//! Writing the hash tree over a row into another row (cryptsetup, 'veritysetup format').
#![tactic(auto)]

mod format;
mod tree;
mod waiting;

pub use format::write_tree;
pub use tree::TreePlan;

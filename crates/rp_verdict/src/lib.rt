//! Which rows are designators' (Discoverable Partitions Specification), and what a policy says of what was found of them
//! (systemd.image-policy(7)).
#![tactic(auto)]

mod judged;
mod rows;
mod verdict;

pub use judged::verdicts_by;
pub use rows::{has, row_of, tree_row};
pub use verdict::{DissectFault, Verdict, Verdicts};

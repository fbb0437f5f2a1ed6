//! What a run of `apply` with a factory reset leaves, from the record of its stages: laws on what was made on the disk.
#![tactic(auto)]

mod law;

pub use law::{a_run_with_a_reset_ends, calls_by_any_sources_carry_out_plans};

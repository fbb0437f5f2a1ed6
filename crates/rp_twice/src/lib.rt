//! Two runs of the command `apply`, one behind the other.
#![tactic(auto)]

mod law;

pub use law::a_second_run_makes_no_call;

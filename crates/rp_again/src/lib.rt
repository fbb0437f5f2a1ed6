//! A second run behind one that carried out a goal: a law on lists of calls.
#![tactic(auto)]

mod law;

pub use law::a_second_run_has_no_calls;

//! What a run with a factory reset leaves, at its end and at any moment on the way: laws on the calls of two plans, of which
//! the first takes rows out of the table and the second is the goal for what is left.
#![tactic(auto)]

mod law;

pub use law::{
    a_part_of_both_is_safe, a_second_run_has_no_calls, a_stop_at_the_end_leaves_the_same,
    resets_are_plans_for_their_images, stopped_at_any_moment, what_both_commits_leave,
    what_is_left_is_planned_for,
};

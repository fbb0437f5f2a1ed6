//! What a run that carries out a goal leaves, at its end and at any moment on the way: laws on lists of calls.
#![tactic(auto)]

mod law;

pub use law::{
    a_second_run_writes_nothing, a_stop_at_the_end_leaves_the_same, a_sync_alone_changes_nothing,
    calls_carry_out_goals, goals_are_plans_for_their_images, new_partitions_hold_their_contents,
    old_partitions_keep_place_and_bytes, stopped_at_any_moment, the_image_is_final,
    the_table_is_the_goal, what_a_run_leaves,
};

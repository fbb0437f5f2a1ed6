//! Planning again, on what a plan left: laws on lists.
#![tactic(auto)]

mod law;

pub use law::{idle_images_need_no_calls, the_goal_again_is_the_goal, what_is_done_is_idle};

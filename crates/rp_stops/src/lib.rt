//! What a stop at any moment leaves of an image while a plan is carried out: laws on lists of calls.
#![tactic(auto)]

mod law;

pub use law::{
    alone_law, any_moment_is_safe, final_image_is_one, finished_is_accepted, finished_law,
    first_calls_change_their_own, other_orders_leave_no_table, stops_law, stops_of_two_plans,
    stops_of_whole_sectors, whole_sectors_are_honest,
};

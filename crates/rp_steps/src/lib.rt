//! The journal of steps: what is done to an image, in which order, and how many writes that is.
#![tactic(auto)]

mod contents;
mod copies;
mod journal;
mod law;
mod same;
mod step;
mod writes;

pub use journal::steps_of;
pub use law::{
    calls_are_of_the_plan, contents_are_filled, nothing_to_change_is_no_steps,
    writes_are_those_of_the_calls,
};
pub use step::Step;
pub use writes::writes_of;

//! What `make` promises: laws alone.
#![tactic(auto)]

mod law;

pub use law::{
    make_is_complete, make_keeps_its_promise, make_leaves_the_goal, make_tells_its_summary,
};

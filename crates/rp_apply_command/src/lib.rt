//! The command `apply`: changes an image to what definitions ask for.
#![tactic(auto)]

mod command;
mod law;

pub use command::apply;
pub use law::{
    apply_ends, apply_is_complete, apply_on_an_idle_image, apply_refuses_as_plan,
    plans_have_their_roots,
};

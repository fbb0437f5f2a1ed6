//! What the command `make` does before it plans: an image that may be used for it is grown to the length that it makes.
#![tactic(auto)]

mod growing;
mod looking;
mod refusal;

pub use growing::grow;
pub use looking::{NoRoom, look};
pub use refusal::refuse_room;

/// Bytes of an image that is made: 1 GiB.
pub const LENGTH: u64 = 1 << 30;

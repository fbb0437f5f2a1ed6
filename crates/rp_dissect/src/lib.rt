//! Which partitions of an image a policy lets be used, and as what (systemd.image-policy(7), Discoverable Partitions
//! Specification).
#![tactic(auto)]

mod found;
mod image;

pub use image::{dissect, dissect_at};
pub use rp_verdict::{DissectFault, Verdict, Verdicts};

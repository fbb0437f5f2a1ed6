//! What is to become of an image, from what it shows, definitions and their sources.
#![tactic(auto)]

mod planned;
mod request;

pub use planned::{
    Planned, Unplanned, must_repair, plan_image, plan_seen, read_image, unplanned_refusal,
};
pub use request::Request;

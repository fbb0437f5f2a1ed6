//! Image policies (systemd.image-policy(7)): which partitions may be used, and in what state.
#![tactic(auto)]

mod beyond;
mod judging;
pub mod law;
mod names;
mod policy;
mod reading;
mod writing;

pub use beyond::{Counter, compare};
pub use judging::{Found, Judged, Kind, Rule, flags_for, judge, place};
pub use names::DESIGNATORS;
pub use policy::{Flags, Policy, PolicyFault, PolicyKind};
pub use reading::parse;
pub use writing::{push_flags, write};

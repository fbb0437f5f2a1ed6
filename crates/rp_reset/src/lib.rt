//! Factory reset: the plan that takes the rows of definitions that say so out of a table, and what is seen of an image on
//! which it was carried out (systemd-repart(8), --factory-reset=).
#![tactic(auto)]

pub mod law;
mod mix;
mod planning;
mod rows;
mod seen;

pub use planning::{reset, taken_out};
pub use seen::after;

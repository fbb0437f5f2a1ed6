//! The texts that the program prints of tables and plans.
#![tactic(auto)]

mod json;
mod names;
mod plan;
mod plan_json;
mod tables;

pub use plan::plan_text;
pub use tables::show_text;

//! Definitions of partitions (repart.d(5)): the pieces of definition files become records.
//!
//! Sizes are in grains of 4,096 bytes; a definition is known by its place in the list, from 0.
#![tactic(auto)]

mod attrs;
mod counting;
mod definition;
mod draft;
mod fault;
mod ignored;
mod keys;
mod pairs;
mod reader;
mod readers;
mod sections;
mod setting;
mod value;
mod values;
mod want;

pub use definition::{Definition, Definitions, Verity};
pub use fault::{DefFault, DefKind};
pub use keys::key_name;
pub use reader::read;

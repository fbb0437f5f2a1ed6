//! The large input that the command `make` makes from a number: a folder of definition files, a source, and a seed.
#![tactic(auto)]

mod bytes;
mod folders;
mod input;
mod sources;
mod texts;

pub use folders::MadeFolders;
pub use input::{Input, input_of};
pub use sources::MadeSources;

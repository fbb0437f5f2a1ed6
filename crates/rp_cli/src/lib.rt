//! The commands of `repart`, over a disk, folders, sources and a sink that are handed in.
#![tactic(auto)]

mod commands;
mod planning;

pub use commands::run;

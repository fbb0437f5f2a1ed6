//! Definition files: sections of assignments, by the grammar of systemd.syntax(7).
#![tactic(auto)]

mod assign;
mod decode;
mod entry;
mod fault;
mod file;
mod lines;
mod logical;
mod parser;
mod trim;

pub use assign::Assign;
pub use fault::IniFault;
pub use file::File;
pub use parser::parse;

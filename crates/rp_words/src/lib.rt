//! The words of a command line: one table of commands and options, and how words are read by it, without memory.
#![tactic(auto)]

mod entry;
mod fault;
mod help;
mod hint;
mod line;
mod table;
mod values;
mod words;

pub use fault::WordFault;
pub use help::help_text;
pub use hint::{Hint, hint_of};
pub use line::{Line, has_image, read_line, text_of};
pub use table::{Command, Opt};
pub use values::read_paths;

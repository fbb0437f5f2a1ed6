//! The values of keys in definition files (repart.d(5), systemd.syntax(7)): types, numbers, sizes, booleans,
//! labels, paths and names of files.
#![tactic(auto)]

mod expand;
mod kind;
mod label;
mod numbers;
mod path;
mod split;
mod switch;

pub use kind::{read_id, read_kind};
pub use label::{LabelFault, read_label};
pub use numbers::{read_priority, read_size, read_weight};
pub use path::read_path;
pub use split::{SplitFault, read_split_name};
pub use switch::read_switch;

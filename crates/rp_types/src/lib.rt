//! Partition types by name, GUID and designator (Discoverable Partitions Specification), and GUIDs as texts.
#![tactic(auto)]

mod arch;
mod attributes;
mod guids;
mod label;
mod names;
mod table;

pub use arch::{Arch, Designator};
pub use attributes::{GROW_FILE_SYSTEM, NO_AUTO, READ_ONLY};
pub use guids::{read_guid, write_guid};
pub use label::label_of;
pub use names::{bits, by_guid, by_name, designator_of};

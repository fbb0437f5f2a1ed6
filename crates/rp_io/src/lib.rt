//! The outside objects of a run but the disk: folders of definitions, sources of contents, and where output goes.
//!
//! Each is a trait with its meaning in ghost members. The memory forms tell their content and fail exactly where they
//! are told to. The host forms tell nothing and count their faults.
#![tactic(auto)]

mod answers;
mod calls;
#[cfg(test)]
mod fake;
mod fault;
mod folders;
mod host_folders;
mod host_sink;
mod host_sources;
mod mem_folders;
mod mem_sink;
mod mem_sources;
mod sink;
mod sources;
mod stored;
#[cfg(test)]
mod tests;

pub use fault::IoFault;
pub use folders::{Content, Folders};
pub use host_folders::HostFolders;
pub use host_sink::HostSink;
pub use host_sources::HostSources;
pub use mem_folders::MemFolders;
pub use mem_sink::MemSink;
pub use mem_sources::MemSources;
pub use sink::Sink;
pub use sources::Sources;
pub use stored::Stored;

//! A disk: what it shows, and what a stop at any moment may leave of it.
#![tactic(auto)]

mod call;
mod disk;
mod file;
mod log;
mod mem;
mod record;
mod stops;
mod told;

pub use call::Call;
pub use disk::Disk;
pub use file::FileDisk;
pub use mem::MemDisk;
pub use stops::{
    any_moment_law, moments_law, one_call_law, opening_law, settled_law, shown_law, stops_law,
};
pub use told::{earlier_law, failed_call_law, own_bytes_law, past_law};

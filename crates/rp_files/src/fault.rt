ghost use Rattle.std.specs.Prelude.{◌≡◌};
ghost use Rattle.rp_files.specs.declared.fault.LoadFault.TheVariants.{Memory as no_memory};
ghost use Rattle.rp_files.specs.Passed.{passed};

use rp_base::{Memory, Text};
use rp_io::IoFault;
use std::alloc::{AllocError, AllocFailed};
use thiserror::Error;

/// Why the pieces of the folders can't be had.
#[derive(Debug, Drop, Error)]
pub enum LoadFault {
    /// A call on the folders failed.
    #[error("the folders failed")]
    FolderFault,
    /// More than 256 names win.
    #[error("too many definition files")]
    TooMany,
    /// The piece has more than 65,536 bytes. `part` is empty for a main file.
    #[error("a definition file is too big")]
    TooBig { file: Text, part: Text },
    /// There was no memory for the pieces.
    #[error("out of memory")]
    Memory,
}

impl From<Memory> for LoadFault {
    ghost from_gives = { λ _ fault. fault ≡ no_memory };

    fn from(_: Memory) -> Self {
        LoadFault::Memory
    }
}

impl From<AllocError> for LoadFault {
    ghost from_gives = { λ _ fault. fault ≡ no_memory };

    fn from(_: AllocError) -> Self {
        LoadFault::Memory
    }
}

impl<T: Drop> From<AllocFailed<T>> for LoadFault {
    ghost from_gives = { λ _ fault. fault ≡ no_memory };

    fn from(_: AllocFailed<T>) -> Self {
        LoadFault::Memory
    }
}

impl From<IoFault> for LoadFault {
    ghost from_gives = { λ from fault. fault ≡ passed from };

    fn from(fault: IoFault) -> Self {
        match fault {
            IoFault::Failed => LoadFault::FolderFault,
            IoFault::Memory => LoadFault::Memory,
        }
    }
}

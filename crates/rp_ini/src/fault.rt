ghost use Rattle.std.specs.Prelude.{◌≡◌};
ghost use Rattle.rp_ini.specs.declared.fault.IniFault.TheVariants.{Memory as no_memory};

use rp_base::Memory;
use std::alloc::{AllocError, AllocFailed};
use thiserror::Error;

/// Why a text is no definition file. Lines count from 1; a logical line has the number of its first line.
#[derive(Clone, Copy, Debug, PartialEq, Eq, Error)]
pub enum IniFault {
    /// The line has the first byte that isn't UTF-8.
    #[error("not UTF-8")]
    NotUtf8 { line: u32 },
    /// The logical line has more than 4,096 bytes.
    #[error("too long a line")]
    TooLong { line: u32 },
    /// The logical line is neither `[name]` nor `key=value`.
    #[error("neither a section nor an assignment")]
    BadLine { line: u32 },
    /// The assignment stands before the first section.
    #[error("an assignment before the first section")]
    NoSection { line: u32 },
    /// There was no memory for the sections.
    #[error("out of memory")]
    Memory,
}

impl From<Memory> for IniFault {
    ghost from_gives = { λ _ fault. fault ≡ no_memory };

    fn from(_: Memory) -> Self {
        IniFault::Memory
    }
}

impl From<AllocError> for IniFault {
    ghost from_gives = { λ _ fault. fault ≡ no_memory };

    fn from(_: AllocError) -> Self {
        IniFault::Memory
    }
}

impl<T: Drop> From<AllocFailed<T>> for IniFault {
    ghost from_gives = { λ _ fault. fault ≡ no_memory };

    fn from(_: AllocFailed<T>) -> Self {
        IniFault::Memory
    }
}

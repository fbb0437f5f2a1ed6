ghost use Rattle.std.specs.Prelude.{◌≡◌};
ghost use Rattle.std.specs.IoError.{error_kind};
ghost use Rattle.rp_io.specs.Host.{fault_at};
ghost use Rattle.rp_io.specs.declared.fault.IoFault.TheVariants.{Memory as no_memory};

use crate::answers;
use rp_base::Memory;
use std::alloc::AllocError;
use std::io;
use thiserror::Error;

/// Why a call on folders gave no answer.
#[derive(Clone, Copy, Debug, PartialEq, Eq, Error)]
pub enum IoFault {
    /// The call failed, and the folders' count of faults rose.
    #[error("the folders failed")]
    Failed,
    /// There was no memory for the answer.
    #[error("out of memory")]
    Memory,
}

impl From<Memory> for IoFault {
    ghost from_gives = { λ _ fault. fault ≡ no_memory };

    fn from(_: Memory) -> Self {
        IoFault::Memory
    }
}

impl From<AllocError> for IoFault {
    ghost from_gives = { λ _ fault. fault ≡ no_memory };

    fn from(_: AllocError) -> Self {
        IoFault::Memory
    }
}

impl From<io::Error> for IoFault {
    ghost from_gives = { λ error fault. fault ≡ fault_at (error_kind error) };

    fn from(error: io::Error) -> Self {
        answers::fault_at(error.kind())
    }
}

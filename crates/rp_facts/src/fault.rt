ghost use Rattle.std.specs.Prelude.{◌≡◌};
ghost use Rattle.rp_facts.specs.declared.fault.FactFault.TheVariants.{Memory as no_memory, SourceFault as failed};

use rp_base::{Failed, Memory};
use std::alloc::AllocError;
use thiserror::Error;

/// Why the sources tell no facts.
#[derive(Clone, Copy, Debug, PartialEq, Eq, Error)]
pub enum FactFault {
    /// A call on the sources failed, and their count of faults rose.
    #[error("the sources failed")]
    SourceFault,
    #[error("out of memory")]
    Memory,
}

impl From<Failed> for FactFault {
    ghost from_gives = { λ _ fault. fault ≡ failed };

    fn from(_: Failed) -> Self {
        FactFault::SourceFault
    }
}

impl From<Memory> for FactFault {
    ghost from_gives = { λ _ fault. fault ≡ no_memory };

    fn from(_: Memory) -> Self {
        FactFault::Memory
    }
}

impl From<AllocError> for FactFault {
    ghost from_gives = { λ _ fault. fault ≡ no_memory };

    fn from(_: AllocError) -> Self {
        FactFault::Memory
    }
}

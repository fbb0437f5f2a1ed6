use rp_base::Memory;
use thiserror::Error;

/// Why there is no plan. `file` is the place of a definition in the list of definitions, numbers are bytes. The first in
/// this order is told, for the least file.
#[derive(Clone, Copy, Debug, PartialEq, Eq, Error)]
pub enum Demand {
    /// A factory reset is asked for, and the definition has the type of an earlier one and says otherwise whether it is reset.
    #[error("definitions of one type disagree on factory reset")]
    ResetMix { file: u16 },
    /// One half of a pair has a row already, and the other hasn't.
    #[error("one half of a pair has a partition already")]
    VerityHalf { file: u16 },
    /// A new partition would have to be greater than it may be; a need of 2^64 - 1 is no less than that.
    #[error("what a partition is to hold is too large")]
    SourceTooLarge { file: u16, need: u64, max: u64 },
    /// A partition that is there already hasn't the room that its definition asks for.
    #[error("a partition is too small")]
    Existing { file: u16, need: u64, have: u64 },
    /// No free area has room for a new partition; the largest is what is available in one.
    #[error("no area has room")]
    Room { file: u16, need: u64, largest: u64 },
    #[error("no slot is free")]
    Slot { file: u16 },
    /// The identifier that the definition asks for is zero or in use.
    #[error("an identifier is in use")]
    TakenIdentifier { file: u16 },
    /// No derived identifier is unused.
    #[error("no identifier is unused")]
    NoIdentifier { file: u16 },
    #[error("out of memory")]
    Memory,
}

impl From<Memory> for Demand {
    ghost use Rattle.std.specs.Prelude.{◌≡◌};
    ghost use Rattle.rp_demand.specs.declared.demand.Demand.TheVariants.{Memory};

    ghost from_gives = { λ _ e. e ≡ Memory };

    fn from(_: Memory) -> Self {
        Demand::Memory
    }
}

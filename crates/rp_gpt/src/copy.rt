ghost use Rattle.std.specs.Prelude.{◌≡◌};

use thiserror::Error;

/// Why the bytes of a place are no copy: the first test that they fail. That order is an own one.
#[derive(Clone, Copy, Debug, PartialEq, Eq, Error)]
pub enum CopyFault {
    #[error("no GPT signature")]
    Signature,
    #[error("a revision other than 1.0")]
    Revision,
    #[error("a header size below 92 or above a sector's")]
    HeaderSize,
    #[error("a wrong checksum of the header")]
    HeaderCrc,
    #[error("a header of another place")]
    Place,
    #[error("an array in another place")]
    ArrayPlace,
    #[error("{count} entries of {size} bytes, which aren't those of the place")]
    Counts { count: u32, size: u32 },
    #[error("a wrong checksum of the array")]
    ArrayCrc,
    #[error("slot {slot} ends before it starts, or past 2^44 bytes")]
    RowOrder { slot: u16 },
    #[error("out of memory")]
    Memory,
}

impl From<rp_base::Memory> for CopyFault {
    ghost use Rattle.rp_gpt.specs.declared.copy.CopyFault.TheVariants.{Memory};

    ghost from_gives = { λ _ e. e ≡ Memory };

    fn from(_: rp_base::Memory) -> Self {
        CopyFault::Memory
    }
}

//! The pieces of an image that decide what it shows.

ghost use Rattle.std.specs.Prelude.{◌≡◌};
ghost use Rattle.rp_table.specs.Pieces.{place_in};

use rp_base::{List, Which};

/// The bytes of a copy's place, for its number of entries.
#[derive(Drop)]
pub struct Place {
    pub entries: u16,
    pub bytes: List<u8>,
}

/// An image's number of sectors and the bytes of one, its first 512 bytes, and the places of both copies.
#[derive(Drop)]
pub struct Pieces {
    pub sector: u32,
    pub sectors: u64,
    pub first: List<u8>,
    pub primary: Place,
    pub backup: Place,
}

/// The place of a copy.
pub fn place_in(pieces: &Pieces, which: Which) -> &Place
    ensures { result.now ≡ place_in pieces.now which }
{
    match which {
        Which::Primary => &pieces.primary,
        Which::Backup => &pieces.backup,
    }
}

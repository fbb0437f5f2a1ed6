//! What the place of a copy tells.

ghost use Rattle.std.specs.Prelude.{◌≡◌, ◌≢◌, ◌⊎◌, ℕ, List, IfOk, IfErr, IfSome, Err};
ghost use Rattle.std.specs.Option.{option_or};
ghost use Rattle.rp_gpt.specs.Shown.{refuses, told_at, broken_at, broken_entries, above};
ghost use Rattle.rp_gpt.specs.Accepted.{IsRead};
ghost use Rattle.rp_table.specs.Pieces.{AreSized, ArePieces, TellsTable, table_or_memory};

use crate::pieces::{Pieces, place_in};
use rp_base::{Table, Which};
use rp_gpt::{CopyFault, TableFault, decode_copy};
use std::alloc::Global;

/// What a place says that doesn't refuse the image: its table, where it shows one, and the number of entries of a copy of
/// which the array alone is broken.
#[derive(Drop)]
pub struct Said {
    pub table: Option<Table>,
    pub broken: Option<u16>,
}

/// What a place says, or the fault for which it refuses the image.
pub fn said_at(alloc: Global, pieces: &Pieces, which: Which) -> Result<Said, TableFault>
    requires { AreSized pieces.now }
    ensures table { (image : List ℕ) → ArePieces image pieces.now
        → IfOk result (λ said. TellsTable (told_at pieces.now.sector image which) said.table) }
    ensures broken { (image : List ℕ) → ArePieces image pieces.now
        → IfOk result (λ said. said.broken ≡ broken_at pieces.now.sector image which) }
    ensures refuses { (image : List ℕ) → ArePieces image pieces.now
        → IfErr result (λ fault. (told_at pieces.now.sector image which ≡ refuses fault) ⊎ (fault ≡ TableFault.Memory)) }
    ensures no_call { result ≢ Err TableFault.Disk }
    ensures read { IfOk result (λ said. IfSome said.table (IsRead pieces.now.sector pieces.now.sectors)) }
{
    let place = place_in(pieces, which);
    let answer = decode_copy(
        alloc,
        place.bytes.as_slice(),
        which,
        pieces.sectors,
        pieces.sector,
    );
    let broken = broken_entries(&answer, place.entries);
    let table = table_told(answer)?;
    Ok(Said { table, broken })
}

/// The number of entries of a copy whose array's checksum is its first fault.
fn broken_entries(answer: &Result<Table, CopyFault>, entries: u16) -> Option<u16>
    ensures { result ≡ broken_entries answer.now entries }
{
    match answer {
        Err(CopyFault::ArrayCrc) => Some(entries),
        _ => None,
    }
}

/// The table that an answer tells, none where it tells nothing, or the fault for which it refuses the image.
fn table_told(answer: Result<Table, CopyFault>) -> Result<Option<Table>, TableFault>
    ensures { result ≡ table_or_memory answer }
{
    match answer {
        Ok(table) => Ok(Some(table)),
        Err(CopyFault::ArrayPlace) => Err(TableFault::ArrayPlace),
        Err(CopyFault::Counts { count, size }) => Err(TableFault::EntryCount { count, size }),
        Err(CopyFault::RowOrder { slot }) => Err(TableFault::RowRange { slot }),
        Err(CopyFault::Memory) => Err(TableFault::Memory),
        Err(_) => Ok(None),
    }
}

/// Of two broken copies, the number of entries of the first that has more than so many.
pub fn wider(entries: u16, primary: Option<u16>, backup: Option<u16>) -> Option<u16>
    ensures { result ≡ option_or (above entries primary) (above entries backup) }
{
    above(entries, primary).or(above(entries, backup))
}

/// A number above a least one.
fn above(least: u16, number: Option<u16>) -> Option<u16>
    ensures { result ≡ above least number }
{
    match number {
        Some(number) if number > least => Some(number),
        _ => None,
    }
}

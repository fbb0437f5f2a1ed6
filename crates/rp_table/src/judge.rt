//! The judgement of an image by its pieces.

ghost use Rattle.std.specs.Prelude.{◌≡◌, ◌≢◌, ◌≤◌, ◌*◌, ℕ, List, IfOk, IfSome, IsErr, Err, None, length};
ghost use Rattle.rp_base.specs.Answers.{Gives};
ghost use Rattle.rp_base.specs.Geometry.{IsSector, least_sectors, sector_units as units_of};
ghost use Rattle.rp_base.specs.Table.{IsWritable, TableFits};
ghost use Rattle.rp_gpt.specs.Shown.{shown, origin_of, wider_copy, holds_exact, seen_of, accepted_as, accepted_table, accepted_blank, blank};
ghost use Rattle.rp_gpt.specs.Accepted.{IsRead, IsSeen};
ghost use Rattle.rp_table.specs.Pieces.{IsDisk, AreSized, ArePieces};

use crate::check::table_fault;
use crate::pieces::{Pieces, place_in};
use crate::told::{Said, said_at, wider};
use rp_base::{Guid, List, Origin, Seen, Table, Which, sector_units, usable_end};
use rp_gpt::{Empty, TableFault, foreign_type, is_exact, mbr_state};
use std::alloc::Global;

/// The number of entries of a table that isn't there yet.
const BLANK_ENTRIES: u16 = 128;

/// Its first usable unit: 1 MiB.
const BLANK_FIRST: u64 = 2048;

/// The size of an entry, as a fault has it.
const ENTRY_SIZE: u32 = 128;

/// What is seen of an image, or the first fault. The primary copy tells first.
pub fn judged(alloc: Global, pieces: &Pieces, empty: Empty) -> Result<Seen, TableFault>
    requires { AreSized pieces.now }
    ensures answer { (image : List ℕ) → ArePieces image pieces.now
        → Gives TableFault.Memory (accepted_as pieces.now.sector image empty (shown pieces.now.sector image)) result }
    ensures no_call { result ≢ Err TableFault.Disk }
    ensures seen { IfOk result (λ seen. IsSeen pieces.now.sector seen) }
    ensures sectors { IfOk result (λ seen. seen.sectors ≡ units_of pieces.now.sector * pieces.now.sectors) }
    ensures origin { empty ≡ Empty.Refuse → IfOk result (λ seen. seen.origin ≢ Origin.Neither) }
{
    let Said { table, broken } = said_at(alloc, pieces, Which::Primary)?;
    if let Some(table) = table {
        return with_table(pieces, empty, Origin::Primary, table, None);
    }
    let primary = broken;
    let Said { table, broken } = said_at(alloc, pieces, Which::Backup)?;
    if let Some(table) = table {
        let wide = wider(table.entries, primary, broken);
        return with_table(pieces, empty, Origin::Backup, table, wide);
    }
    let wide = wider(BLANK_ENTRIES, primary, broken);
    without_table(alloc, pieces, empty, wide)
}

/// What is seen of an image that shows a table, unless a broken copy is wider.
fn with_table(
    pieces: &Pieces,
    empty: Empty,
    origin: Origin,
    table: Table,
    wide: Option<u16>,
) -> Result<Seen, TableFault>
    requires sized { AreSized pieces.now }
    requires read { IsRead pieces.now.sector pieces.now.sectors table }
    ensures answer { (image : List ℕ) → ArePieces image pieces.now → origin ≡ origin_of pieces.now.sector image
        → wide ≡ wider_copy pieces.now.sector image origin table → result ≡ accepted_table pieces.now.sector image empty table }
    ensures no_call { result ≢ Err TableFault.Disk }
    ensures seen { IfOk result (λ seen. IsSeen pieces.now.sector seen) }
    ensures sectors { IfOk result (λ seen. seen.sectors ≡ units_of pieces.now.sector * pieces.now.sectors) }
    ensures origin { IfOk result (λ seen. seen.origin ≡ origin) }
{
    if let Empty::Require = empty {
        return Err(TableFault::NotEmpty);
    }
    if let Some(fault) = table_fault(pieces.sectors, &table) {
        return Err(fault);
    }
    let primary_same = is_same(pieces, Which::Primary, &table);
    let backup_same = is_same(pieces, Which::Backup, &table);
    seen_of(pieces, origin, table, primary_same, backup_same, wide)
}

/// Whether a place holds the exact copy of a table.
fn is_same(pieces: &Pieces, which: Which, table: &Table) -> bool
    requires sized { AreSized pieces.now }
    requires sector { table.now.sector ≡ pieces.now.sector }
    requires writable { IsWritable table.now }
    requires fits { TableFits table.now }
    requires room { least_sectors table.now.sector table.now.entries ≤ pieces.now.sectors }
    ensures { (image : List ℕ) → ArePieces image pieces.now → result ≡ holds_exact pieces.now.sector image table.now which }
{
    let place = place_in(pieces, which);
    place.entries == table.entries && is_exact(table, which, pieces.sectors, place.bytes.as_slice())
}

/// What is seen of an image, unless a broken copy is wider than the table.
fn seen_of(
    pieces: &Pieces,
    origin: Origin,
    table: Table,
    primary_same: bool,
    backup_same: bool,
    wide: Option<u16>,
) -> Result<Seen, TableFault>
    requires { AreSized pieces.now }
    ensures answer { (image : List ℕ) → ArePieces image pieces.now → wide ≡ wider_copy pieces.now.sector image origin table
        → result ≡ seen_of pieces.now.sector image origin table primary_same backup_same }
    ensures no_call { result ≢ Err TableFault.Disk }
    ensures shown { IfOk result (λ seen. (seen.shown ≡ table) × (seen.origin ≡ origin)) }
    ensures sectors { IfOk result (λ seen. seen.sectors ≡ units_of pieces.now.sector * pieces.now.sectors) }
{
    if let Some(count) = wide {
        return Err(TableFault::EntryCount {
            count: u32::from(count),
            size: ENTRY_SIZE,
        });
    }
    Ok(Seen {
        sectors: sector_units(pieces.sector) * pieces.sectors,
        shown: table,
        origin,
        primary_same,
        backup_same,
        mbr: mbr_state(pieces.first.as_slice(), pieces.sectors),
    })
}

/// What is seen of an image that shows no table, unless a broken copy is wider than the blank one.
fn without_table(
    alloc: Global,
    pieces: &Pieces,
    empty: Empty,
    wide: Option<u16>,
) -> Result<Seen, TableFault>
    requires { AreSized pieces.now }
    ensures answer { (image : List ℕ) → ArePieces image pieces.now
        → wide ≡ wider_copy pieces.now.sector image Origin.Neither (blank pieces.now.sector pieces.now.sectors)
        → result ≡ accepted_blank pieces.now.sector image empty }
    ensures no_call { result ≢ Err TableFault.Disk }
    ensures seen { IfOk result (λ seen. IsSeen pieces.now.sector seen) }
    ensures sectors { IfOk result (λ seen. seen.sectors ≡ units_of pieces.now.sector * pieces.now.sectors) }
    ensures refused { empty ≡ Empty.Refuse → IsErr result }
{
    if let Some(kind) = foreign_type(pieces.first.as_slice()) {
        return Err(TableFault::OtherTable { kind });
    }
    if let Empty::Refuse = empty {
        return Err(TableFault::NoTable);
    }
    let table = blank(alloc, pieces.sector, pieces.sectors);
    if table.last < BLANK_FIRST {
        return Err(TableFault::TooShort {
            len: u64::from(pieces.sector) * pieces.sectors,
        });
    }
    seen_of(pieces, Origin::Neither, table, false, false, wide)
}

/// The table of an image of this many sectors that shows none.
fn blank(alloc: Global, sector: u32, sectors: u64) -> Table
    requires { IsDisk sector sectors }
    ensures { result ≡ blank sector sectors }
{
    Table {
        sector,
        entries: BLANK_ENTRIES,
        disk: Guid([0; 16]),
        first: BLANK_FIRST,
        last: usable_end(sector, BLANK_ENTRIES, sectors) - 1,
        rows: List::new(alloc),
    }
}

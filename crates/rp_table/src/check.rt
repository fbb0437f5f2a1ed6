//! The first fault of a table that an image shows.

ghost use Rattle.std.specs.Prelude.{◌≡◌, ◌≢◌, Some, ◌+◌, ◌*◌, ◌^◌, ◌<◌, ◌≤◌};
ghost use Rattle.rp_base.specs.Table.{AreWritableRows};
ghost use Rattle.rp_gpt.specs.Shown.{rows_fault, table_fault};
ghost use Rattle.rp_gpt.specs.Accepted.{IsRead};
ghost use Rattle.rp_table.specs.Pieces.{IsDisk};

use crate::rows::{outside_slot, overlapping_slots};
use rp_base::{Table, first_usable, usable_end};
use rp_gpt::TableFault;

/// On a disk of this many sectors: its bounds, its first row outside them, or its least pair of rows that share a unit.
pub fn table_fault(sectors: u64, table: &Table) -> Option<TableFault>
    requires disk { IsDisk table.now.sector sectors }
    requires read { IsRead table.now.sector sectors table.now }
    ensures fault { result ≡ table_fault (table.now.sector * sectors) table.now }
    ensures no_call { result ≢ Some TableFault.Disk }
{
    let (first, last) = (table.first, table.last);
    if first < first_usable(table.sector, table.entries) || last < first {
        return Some(TableFault::Bounds { first, last });
    }
    if last >= usable_end(table.sector, table.entries, sectors) {
        return Some(TableFault::TooShort {
            len: u64::from(table.sector) * sectors,
        });
    }
    rows_fault(table)
}

/// The first fault of its rows, within bounds.
fn rows_fault(table: &Table) -> Option<TableFault>
    requires rows { AreWritableRows table.now }
    requires entries { table.now.entries ≤ 1024 }
    requires last { table.now.last + 1 < 2 ^ 64 }
    ensures fault { result ≡ rows_fault table.now }
    ensures no_call { result ≢ Some TableFault.Disk }
{
    if let Some(slot) = outside_slot(table) {
        return Some(TableFault::RowRange { slot });
    }
    match overlapping_slots(table.rows.as_slice()) {
        Some((a, b)) => Some(TableFault::Overlap { a, b }),
        None => None,
    }
}

//! The rows of the goal before they are named.

ghost use Rattle.std.specs.Prelude.{◌≡◌, ◌==◌, ◌≤◌, ◌<◌, ◌++◌, All, IfOk, OnOk, false, length, map};
ghost use Rattle.std.specs.List.{enumerate_from};
ghost use Rattle.std.specs.Option.{option_and_then, option_map_or};
ghost use Rattle.rp_base.specs.declared.table.Row.{Row as Entry};
ghost use Rattle.rp_areas.specs.Areas.{file_of as file_at};
ghost use Rattle.rp_layout.specs.Layout.{spot_at as spot_of};
ghost use Rattle.rp_plan.specs.Kept.{kept_of};
ghost use Rattle.rp_plan.specs.Rows.{row_again, row_for, rows_laid as rows_laid_out};

use crate::kept::{first_free, is_kept};
use rp_base::{Guid, List, Memory, Row};
use rp_defs::Definition;
use rp_layout::Spot;
use std::alloc::Global;

/// The rows that are there, those of definitions grown, and then those of the definitions that are kept.
pub(crate) fn rows_laid(
    alloc: Global,
    rows: &[Row],
    matched: &[Option<u16>],
    threshold: i32,
    defs: &[Definition],
    spots: &[Option<Spot>],
) -> Result<List<Row>, Memory>
    requires slots { All (λ (row : Entry). row.slot < 1024) rows.now }
    requires rows { length rows.now ≤ 1024 }
    requires matched { length matched.now ≤ 256 }
    requires defs { length defs.now ≤ 256 }
    ensures { IfOk result (λ laid. laid ≡ rows_laid_out rows.now matched.now threshold defs.now spots.now) }
{
    let mut laid = old_rows(alloc, rows, matched, spots)?;
    add_rows(&mut laid, first_free(rows), matched, threshold, defs, spots)?;
    Ok(laid)
}

// The rows that are there.
fn old_rows(
    alloc: Global,
    rows: &[Row],
    matched: &[Option<u16>],
    spots: &[Option<Spot>],
) -> Result<List<Row>, Memory>
    requires rows { length rows.now ≤ 1024 }
    requires matched { length matched.now ≤ 256 }
    ensures { IfOk result (λ laid. laid ≡ map (row_again matched.now spots.now) (enumerate_from 0 rows.now)) }
{
    let mut laid = List::new(alloc);
    for (place, row) in rows.iter().enumerate() {
        laid.push(again(matched, spots, place as u16, *row))?;
    }
    Ok(laid)
}

// A row that is there, with the size of its definition's partition.
fn again(matched: &[Option<u16>], spots: &[Option<Spot>], place: u16, row: Row) -> Row
    requires { length matched.now ≤ 256 }
    ensures { result ≡ row_again matched.now spots.now (place, row) }
{
    match own_spot(matched, spots, place) {
        Some(spot) => Row {
            size: spot.size,
            ..row
        },
        None => row,
    }
}

// Where the partition of a row's definition lies, if it can grow.
fn own_spot(matched: &[Option<u16>], spots: &[Option<Spot>], place: u16) -> Option<Spot>
    requires { length matched.now ≤ 256 }
    ensures { result ≡ option_and_then (spot_of spots.now) (file_at matched.now place) }
{
    spot_at(spots, file_of(matched, place)?)
}

/// The definition that has the row at a place.
pub(crate) fn file_of(matched: &[Option<u16>], place: u16) -> Option<u16>
    requires { length matched.now ≤ 256 }
    ensures { result ≡ file_at matched.now place }
{
    for (file, own) in matched.iter().enumerate() {
        if is_at(*own, place) {
            return Some(file as u16);
        }
    }
    None
}

// Whether a definition has the row at a place.
fn is_at(own: Option<u16>, place: u16) -> bool
    ensures { result ≡ option_map_or (λ p. p == place) own false }
{
    match own {
        Some(own) => own == place,
        None => false,
    }
}

// Where the partition of a definition lies.
fn spot_at(spots: &[Option<Spot>], file: u16) -> Option<Spot>
    ensures { result ≡ spot_of spots.now file }
{
    match spots.get(file as usize) {
        Some(spot) => *spot,
        None => None,
    }
}

// Adds the rows of the definitions that are kept, from the first free slot on.
fn add_rows(
    laid: &mut List<Row>,
    free: u16,
    matched: &[Option<u16>],
    threshold: i32,
    defs: &[Definition],
    spots: &[Option<Spot>],
) -> Result<(), Memory>
    requires free { free ≤ 1024 }
    requires defs { length defs.now ≤ 256 }
    ensures { OnOk result (laid.new ≡ laid.old ++ map (row_for spots.now) (enumerate_from free (kept_of matched.now threshold defs.now))) }
{
    let mut slot = free;
    for (file, def) in defs.iter().enumerate() {
        if !is_kept(matched, threshold, file as u16, def) {
            continue;
        }
        laid.push(added(spots, slot, file as u16, def))?;
        slot += 1;
    }
    Ok(())
}

// The row of a definition that is kept.
fn added(spots: &[Option<Spot>], slot: u16, file: u16, def: &Definition) -> Row
    ensures { result ≡ row_for spots.now (slot, (file, def.now)) }
{
    let (start, size) = match spot_at(spots, file) {
        Some(spot) => (spot.start, spot.size),
        None => (0, 0),
    };
    Row {
        slot,
        kind: def.kind,
        id: Guid([0; 16]),
        start,
        size,
        attrs: def.attrs,
        name: [0; 36],
    }
}

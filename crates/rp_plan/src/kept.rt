//! Which new definitions get a row, and where it stands.

ghost use Rattle.std.specs.Prelude.{◌≡◌, ◌+◌, ◌≤◌, ◌<◌, All, IfOk, IfSome, None, length, option_map, slice_index_or};
ghost use Rattle.rp_base.specs.declared.table.Row.{Row as Entry};
ghost use Rattle.rp_plan.specs.Kept.{dropped_file, dropped_files as dropped_files_of, first_free as first_free_of, free_slots as free_slots_of, is_kept as is_kept_at, kept_file, kept_files as kept_files_of, place_in as place_of, rank_in as rank_of, slot_in as slot_of};

use rp_base::{List, Memory, Row, Table};
use rp_defs::Definition;
use rp_sizes::{is_new, push_some};
use std::alloc::Global;

/// Whether the definition at a place has no row, and gets one.
pub(crate) fn is_kept(matched: &[Option<u16>], threshold: i32, file: u16, def: &Definition) -> bool
    ensures { result ≡ is_kept_at matched.now threshold (file, def.now) }
{
    is_new(matched, file) && def.priority <= threshold
}

/// The places of these definitions.
pub(crate) fn kept_files(
    alloc: Global,
    matched: &[Option<u16>],
    threshold: i32,
    defs: &[Definition],
) -> Result<List<u16>, Memory>
    requires { length defs.now ≤ 256 }
    ensures { IfOk result (λ files. files ≡ kept_files_of matched.now threshold defs.now) }
{
    let mut files = List::new(alloc);
    for (file, def) in defs.iter().enumerate() {
        push_some(&mut files, kept_file(matched, threshold, file as u16, def))?;
    }
    Ok(files)
}

// The place, if the definition there is kept.
fn kept_file(matched: &[Option<u16>], threshold: i32, file: u16, def: &Definition) -> Option<u16>
    ensures { result ≡ kept_file matched.now threshold (file, def.now) }
{
    if is_kept(matched, threshold, file, def) {
        Some(file)
    } else {
        None
    }
}

/// The places of the definitions that have no row and get none.
pub(crate) fn dropped_files(
    alloc: Global,
    matched: &[Option<u16>],
    threshold: i32,
    defs: &[Definition],
) -> Result<List<u16>, Memory>
    requires { length defs.now ≤ 256 }
    ensures { IfOk result (λ files. files ≡ dropped_files_of matched.now threshold defs.now) }
{
    let mut files = List::new(alloc);
    for (file, def) in defs.iter().enumerate() {
        push_some(
            &mut files,
            dropped_file(matched, threshold, file as u16, def),
        )?;
    }
    Ok(files)
}

// The place, if the definition there is dropped.
fn dropped_file(matched: &[Option<u16>], threshold: i32, file: u16, def: &Definition) -> Option<u16>
    ensures { result ≡ dropped_file matched.now threshold (file, def.now) }
{
    if is_new(matched, file) && def.priority > threshold {
        Some(file)
    } else {
        None
    }
}

/// The first slot behind the highest used one.
pub(crate) fn first_free(rows: &[Row]) -> u16
    requires { All (λ (row : Entry). row.slot < 1024) rows.now }
    ensures value { result ≡ first_free_of rows.now }
    ensures small { result ≤ 1024 }
{
    let mut free = 0;
    for row in rows {
        free = free.max(row.slot + 1);
    }
    free
}

/// How many slots there are from there on.
pub(crate) fn free_slots(table: &Table) -> u16
    requires { All (λ (row : Entry). row.slot < 1024) table.now.rows }
    ensures { result ≡ free_slots_of table.now }
{
    table
        .entries
        .saturating_sub(first_free(table.rows.as_slice()))
}

/// How many of these definitions stand before one of them.
pub(crate) fn rank_in(kept: &[u16], file: u16) -> Option<u16>
    requires { length kept.now ≤ 256 }
    ensures value { result ≡ rank_of kept.now file }
    ensures small { IfSome result (λ rank. rank < length kept.now) }
{
    for (rank, own) in kept.iter().enumerate() {
        if *own == file {
            return Some(rank as u16);
        }
    }
    None
}

/// The slot of a kept definition's row.
pub(crate) fn slot_in(free: u16, kept: &[u16], file: u16) -> u16
    requires free { free ≤ 1024 }
    requires few { length kept.now ≤ 256 }
    ensures { result ≡ slot_of free kept.now file }
{
    match rank_in(kept, file) {
        Some(rank) => free + rank,
        None => free,
    }
}

/// The place of a definition's row in the goal, which has so many rows that were there.
pub(crate) fn place_in(matched: &[Option<u16>], rows: u16, kept: &[u16], file: u16) -> Option<u16>
    requires rows { rows ≤ 1024 }
    requires few { length kept.now ≤ 256 }
    ensures { result ≡ place_of matched.now rows kept.now file }
{
    match own_place(matched, file) {
        Some(place) => Some(place),
        None => added_place(rows, kept, file),
    }
}

// The place of the row that a definition has.
fn own_place(matched: &[Option<u16>], file: u16) -> Option<u16>
    ensures { result ≡ slice_index_or matched.now file None }
{
    match matched.get(file as usize) {
        Some(place) => *place,
        None => None,
    }
}

// That of the row that a kept one gets.
fn added_place(rows: u16, kept: &[u16], file: u16) -> Option<u16>
    requires rows { rows ≤ 1024 }
    requires few { length kept.now ≤ 256 }
    ensures { result ≡ option_map (λ rank. rows + rank) (rank_of kept.now file) }
{
    let rank = rank_in(kept, file)?;
    Some(rows + rank)
}

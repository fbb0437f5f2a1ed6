//! The rows that are taken out, and those that stay.

ghost use Rattle.std.specs.Prelude.{◌≡◌, ◌≤◌, IfOk, length, map};
ghost use Rattle.rp_reset.specs.Reset.{is_reset as is_reset_in, left_note, resets, row_left, rows_left as rows_left_of, slot_out, slots_out as slots_out_of};

use rp_base::{Change, List, Memory, Note, Role, Row};
use rp_defs::Definition;
use rp_sizes::push_some;
use std::alloc::Global;

/// The slots of the rows of definitions that are to be reset.
pub(crate) fn slots_out(
    alloc: Global,
    matched: &[Option<u16>],
    defs: &[Definition],
    rows: &[Row],
) -> Result<List<u16>, Memory>
    requires rows { length rows.now ≤ 1024 }
    requires defs { length defs.now ≤ 256 }
    ensures { IfOk result (λ slots. slots ≡ slots_out_of matched.now defs.now rows.now) }
{
    let mut slots = List::new(alloc);
    for (place, row) in rows.iter().enumerate() {
        push_some(&mut slots, slot_out(matched, defs, place as u16, row))?;
    }
    Ok(slots)
}

// The slot of the row at a place, if it is taken out.
fn slot_out(matched: &[Option<u16>], defs: &[Definition], place: u16, row: &Row) -> Option<u16>
    requires defs { length defs.now ≤ 256 }
    ensures { result ≡ slot_out matched.now defs.now (place, row.now) }
{
    if is_reset(matched, defs, place) {
        Some(row.slot)
    } else {
        None
    }
}

/// The other rows.
pub(crate) fn rows_left(
    alloc: Global,
    matched: &[Option<u16>],
    defs: &[Definition],
    rows: &[Row],
) -> Result<List<Row>, Memory>
    requires rows { length rows.now ≤ 1024 }
    requires defs { length defs.now ≤ 256 }
    ensures { IfOk result (λ left. left ≡ rows_left_of matched.now defs.now rows.now) }
{
    let mut left = List::new(alloc);
    for (place, row) in rows.iter().enumerate() {
        push_some(&mut left, row_left(matched, defs, place as u16, row))?;
    }
    Ok(left)
}

// The row at a place, if it stays.
fn row_left(matched: &[Option<u16>], defs: &[Definition], place: u16, row: &Row) -> Option<Row>
    requires defs { length defs.now ≤ 256 }
    ensures { result ≡ row_left matched.now defs.now (place, row.now) }
{
    if is_reset(matched, defs, place) {
        None
    } else {
        Some(*row)
    }
}

// Whether a definition that is to be reset has the row at a place.
fn is_reset(matched: &[Option<u16>], defs: &[Definition], place: u16) -> bool
    requires defs { length defs.now ≤ 256 }
    ensures { result ≡ is_reset_in matched.now defs.now place }
{
    for (file, def) in defs.iter().enumerate() {
        if resets(matched, place, file as u16, def) {
            return true;
        }
    }
    false
}

// Whether the definition of this file is to be reset, and has the row at a place.
fn resets(matched: &[Option<u16>], place: u16, file: u16, def: &Definition) -> bool
    ensures { result ≡ resets matched.now place (file, def.now) }
{
    match matched.get(file as usize) {
        Some(Some(own)) => def.factory_reset && *own == place,
        _ => false,
    }
}

/// A note on each row that stays.
pub(crate) fn left_notes(alloc: Global, rows: &[Row]) -> Result<List<Note>, Memory>
    ensures { IfOk result (λ notes. notes ≡ map left_note rows.now) }
{
    let mut notes = List::new(alloc);
    for row in rows {
        notes.push(Note {
            slot: row.slot,
            file: None,
            change: Change::Same,
            source: None,
            role: Role::Plain,
        })?;
    }
    Ok(notes)
}

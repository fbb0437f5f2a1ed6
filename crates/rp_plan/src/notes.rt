//! What is noted on the rows of the goal.

ghost use Rattle.std.specs.Prelude.{◌≡◌, ◌≤◌, ◌<◌, ◌++◌, All, IfOk, OnOk, if◌then◌else◌, length, map, option_map};
ghost use Rattle.std.specs.List.{enumerate_from};
ghost use Rattle.rp_defs.specs.WellFormed.{IsSound};
ghost use Rattle.rp_plan.specs.Kept.{kept_of};
ghost use Rattle.rp_sizes.specs.Needs.{fact_of};
ghost use Rattle.rp_sizes.specs.declared.need.Fact.{Fact as Known};
ghost use Rattle.rp_plan.specs.Notes.{kind_at as kind_of, new_note, old_note, role_of, root_planned as root_for, same_row as same_row_at};

use crate::kept::{is_kept, slot_in};
use crate::names::root_at;
use crate::rows::file_of;
use rp_base::{Change, Guid, List, Memory, Note, Role, Row};
use rp_defs::{Definition, Verity};
use rp_sizes::{Fact, blocks_at, fact_at, salt_of, super_id};
use std::alloc::Global;

/// The notes on the rows that were there, by the rows of the goal.
pub(crate) fn old_notes(
    alloc: Global,
    matched: &[Option<u16>],
    rows: &[Row],
    goal: &[Row],
) -> Result<List<Note>, Memory>
    requires rows { length rows.now ≤ 1024 }
    requires kept { length rows.now ≤ length goal.now }
    requires matched { length matched.now ≤ 256 }
    ensures { IfOk result (λ notes. notes ≡ map (old_note matched.now goal.now) (enumerate_from 0 rows.now)) }
{
    let mut notes = List::new(alloc);
    for (place, row) in rows.iter().enumerate() {
        notes.push(old(matched, goal, place as u16, row))?;
    }
    Ok(notes)
}

// The note on the row that was at a place.
fn old(matched: &[Option<u16>], goal: &[Row], place: u16, row: &Row) -> Note
    requires place { place < length goal.now }
    requires matched { length matched.now ≤ 256 }
    ensures { result ≡ old_note matched.now goal.now (place, row.now) }
{
    Note {
        slot: row.slot,
        file: file_of(matched, place),
        change: change(row, &goal[place as usize]),
        source: None,
        role: Role::Plain,
    }
}

// How a row of the goal differs from the one that was there.
fn change(old: &Row, goal: &Row) -> Change
    ensures { result ≡ (if same_row_at old.now goal.now then Change.Same else Change.Changed) }
{
    if same_row(old, goal) {
        Change::Same
    } else {
        Change::Changed
    }
}

// Whether two rows are the same.
fn same_row(a: &Row, b: &Row) -> bool
    ensures { result ≡ same_row_at a.now b.now }
{
    a.slot == b.slot
        && a.kind.0 == b.kind.0
        && a.id.0 == b.id.0
        && a.start == b.start
        && a.size == b.size
        && a.attrs == b.attrs
        && a.name == b.name
}

/// Adds the notes on the rows of the definitions that are kept, from the first free slot on.
pub(crate) fn add_notes(
    notes: &mut List<Note>,
    seed: Guid,
    matched: &[Option<u16>],
    threshold: i32,
    defs: &[Definition],
    facts: &[Fact],
    free: u16,
    kept: &[u16],
) -> Result<(), Memory>
    requires free { free ≤ 1024 }
    requires few { length kept.now ≤ 256 }
    requires defs { length defs.now ≤ 256 }
    requires sound { All IsSound defs.now }
    ensures { OnOk result (notes.new ≡ notes.old ++ map (new_note seed defs.now facts.now free kept.now)
        (enumerate_from free (kept_of matched.now threshold defs.now))) }
{
    let mut slot = free;
    for (file, def) in defs.iter().enumerate() {
        if !is_kept(matched, threshold, file as u16, def) {
            continue;
        }
        notes.push(new(seed, defs, facts, free, kept, slot, file as u16, def))?;
        slot += 1;
    }
    Ok(())
}

// The note on the row of a definition that is kept.
fn new(
    seed: Guid,
    defs: &[Definition],
    facts: &[Fact],
    free: u16,
    kept: &[u16],
    slot: u16,
    file: u16,
    def: &Definition,
) -> Note
    requires free { free ≤ 1024 }
    requires few { length kept.now ≤ 256 }
    requires sound { All IsSound defs.now }
    ensures { result ≡ new_note seed defs.now facts.now free kept.now (slot, (file, def.now)) }
{
    Note {
        slot,
        file: Some(file),
        change: Change::New,
        source: source_len(facts, file),
        role: role(seed, defs, facts, free, kept, file, def.verity),
    }
}

// The bytes of a definition's source, if it has one.
fn source_len(facts: &[Fact], file: u16) -> Option<u64>
    ensures { result ≡ option_map (λ (f : Known). f.len) (fact_of facts.now file) }
{
    let fact = fact_at(facts, file)?;
    Some(fact.len)
}

// What a new row is to a hash tree.
fn role(
    seed: Guid,
    defs: &[Definition],
    facts: &[Fact],
    free: u16,
    kept: &[u16],
    file: u16,
    verity: Verity,
) -> Role
    requires free { free ≤ 1024 }
    requires few { length kept.now ≤ 256 }
    requires sound { All IsSound defs.now }
    ensures { result ≡ role_of seed defs.now facts.now free kept.now file verity }
{
    match verity {
        Verity::Off => Role::Plain,
        Verity::Data { partner } => Role::Data {
            partner: slot_in(free, kept, partner),
            root: root_planned(facts, file),
        },
        Verity::Hash { partner } => {
            let kind = kind_at(defs, partner);
            Role::Hash {
                partner: slot_in(free, kept, partner),
                blocks: blocks_at(defs, facts, partner),
                salt: salt_of(seed, kind),
                uuid: super_id(seed, kind),
                root: root_planned(facts, partner),
            }
        }
    }
}

// The root hash that is planned for the pair whose data is the definition at a place.
fn root_planned(facts: &[Fact], file: u16) -> [u8; 32]
    ensures { result ≡ root_for facts.now file }
{
    match root_at(facts, file) {
        Some(root) => root,
        None => [0; 32],
    }
}

// The type of the definition at a place.
fn kind_at(defs: &[Definition], file: u16) -> Guid
    ensures { result ≡ kind_of defs.now file }
{
    match defs.get(file as usize) {
        Some(def) => def.kind,
        None => Guid([0; 16]),
    }
}

ghost use Rattle.std.specs.Prelude.{◌≡◌, ◌≤◌, ◌<◌, IfOk, length, map};
ghost use Rattle.rp_sizes.specs.Needs.{fact_of, is_new as is_new_at, is_new_data, kinds_of, len_of, need_of, needs_of, wanted_of};

use crate::pushed::push_some;
use rp_areas::assign;
use rp_base::{Guid, List, Memory, Table};
use rp_defs::{Definition, Verity};
use std::alloc::Global;

/// A source whose length is wanted, as it is the source of a definition that has no row; `file` is the definition's place.
#[derive(Clone, Copy, Debug, PartialEq, Eq)]
pub struct Need {
    pub file: u16,
    /// Whether the definition is the data of a pair of which neither half has a row, so that the root hash is wanted too.
    pub pair: bool,
}

/// What is known of a wanted source: its bytes, and the root hash of the data of a pair.
#[derive(Clone, Copy, Debug, PartialEq, Eq)]
pub struct Fact {
    pub file: u16,
    pub len: u64,
    pub root: Option<[u8; 32]>,
}

/// The sources that are wanted for these definitions and a table, in the order of the definitions.
pub fn wanted(alloc: Global, table: &Table, defs: &[Definition]) -> Result<List<Need>, Memory>
    requires defs { length defs.now ≤ 256 }
    requires rows { length table.now.rows ≤ 65535 }
    ensures { IfOk result (λ needs. needs ≡ wanted_of table.now defs.now) }
{
    let kinds = kinds(alloc, defs)?;
    let matched = assign(alloc, table, kinds.as_slice())?;
    needs(alloc, matched.as_slice(), defs)
}

/// The types of the definitions.
pub fn kinds(alloc: Global, defs: &[Definition]) -> Result<List<Guid>, Memory>
    ensures { IfOk result (λ kinds. kinds ≡ kinds_of defs.now) }
{
    let mut kinds = List::new(alloc);
    for def in defs {
        kinds.push(def.kind)?;
    }
    Ok(kinds)
}

// The wanted sources, where each definition has the row that is given.
fn needs(alloc: Global, matched: &[Option<u16>], defs: &[Definition]) -> Result<List<Need>, Memory>
    requires { length defs.now ≤ 256 }
    ensures { IfOk result (λ needs. needs ≡ needs_of matched.now defs.now) }
{
    let mut needs = List::new(alloc);
    for (file, def) in defs.iter().enumerate() {
        push_some(&mut needs, need_for(matched, file as u16, def))?;
    }
    Ok(needs)
}

// What is wanted for the definition at a place.
fn need_for(matched: &[Option<u16>], file: u16, def: &Definition) -> Option<Need>
    ensures { result ≡ need_of matched.now (file, def.now) }
{
    if is_new(matched, file) && def.source.is_some() {
        let pair = is_new_data(matched, def.verity);
        Some(Need { file, pair })
    } else {
        None
    }
}

/// Whether the definition at a place has no row.
pub fn is_new(matched: &[Option<u16>], file: u16) -> bool
    ensures { result ≡ is_new_at matched.now file }
{
    match matched.get(file as usize) {
        Some(place) => place.is_none(),
        None => true,
    }
}

// Whether these are the data of a pair whose hash has no row.
fn is_new_data(matched: &[Option<u16>], verity: Verity) -> bool
    ensures { result ≡ is_new_data matched.now verity }
{
    match verity {
        Verity::Data { partner } => is_new(matched, partner),
        Verity::Off | Verity::Hash { .. } => false,
    }
}

/// The fact on the source of the definition at a place.
pub fn fact_at(facts: &[Fact], file: u16) -> Option<Fact>
    ensures { result ≡ fact_of facts.now file }
{
    for fact in facts {
        if fact.file == file {
            return Some(*fact);
        }
    }
    None
}

/// The bytes of that source, 0 where there is none.
pub fn len_at(facts: &[Fact], file: u16) -> u64
    ensures { result ≡ len_of facts.now file }
{
    match fact_at(facts, file) {
        Some(fact) => fact.len,
        None => 0,
    }
}

//! How the rows of definitions are to be called.

ghost use Rattle.std.specs.Prelude.{◌≡◌, ◌≤◌, IfOk, drop, length, take, unwrap_or};
ghost use Rattle.std.specs.Option.{option_or};
ghost use Rattle.rp_types.specs.Types.{label_of as label_for};
ghost use Rattle.rp_plan.specs.Names.{half_id as half_id_of, naming_of, namings_of, root_at as root_of};

use crate::kept::place_in;
use rp_base::{Guid, List, Memory};
use rp_defs::{Definition, Verity};
use rp_ident::Naming;
use rp_sizes::{Fact, fact_at, push_some};
use rp_types::label_of;
use std::alloc::Global;

/// What each row of a definition is to be called, where so many rows were there and these definitions are kept.
pub(crate) fn namings(
    alloc: Global,
    facts: &[Fact],
    matched: &[Option<u16>],
    rows: u16,
    kept: &[u16],
    defs: &[Definition],
) -> Result<List<Naming>, Memory>
    requires rows { rows ≤ 1024 }
    requires few { length kept.now ≤ 256 }
    requires defs { length defs.now ≤ 256 }
    ensures { IfOk result (λ namings. namings ≡ namings_of facts.now matched.now rows kept.now defs.now) }
{
    let mut namings = List::new(alloc);
    for (file, def) in defs.iter().enumerate() {
        push_some(
            &mut namings,
            naming(facts, matched, rows, kept, file as u16, def),
        )?;
    }
    Ok(namings)
}

// What the row of the definition at a place is to be called, if it has one.
fn naming(
    facts: &[Fact],
    matched: &[Option<u16>],
    rows: u16,
    kept: &[u16],
    file: u16,
    def: &Definition,
) -> Option<Naming>
    requires rows { rows ≤ 1024 }
    requires few { length kept.now ≤ 256 }
    ensures { result ≡ naming_of facts.now matched.now rows kept.now (file, def.now) }
{
    let row = place_in(matched, rows, kept, file)?;
    Some(Naming {
        row,
        file,
        label: label(def),
        fixed: fixed_id(facts, file, def),
    })
}

// The label of a definition, its type's where it has none.
fn label(def: &Definition) -> [u16; 36]
    ensures { result ≡ unwrap_or def.now.label (label_for def.now.kind) }
{
    match def.label {
        Some(label) => label,
        None => label_of(def.kind),
    }
}

// The identifier that is set, or else that of half of a new pair.
fn fixed_id(facts: &[Fact], file: u16, def: &Definition) -> Option<Guid>
    ensures { result ≡ option_or def.now.id (half_id_of facts.now file def.now.verity) }
{
    match def.id {
        Some(id) => Some(id),
        None => half_id(facts, file, def.verity),
    }
}

// The identifier that the root hash gives half of a new pair.
fn half_id(facts: &[Fact], file: u16, verity: Verity) -> Option<Guid>
    ensures { result ≡ half_id_of facts.now file verity }
{
    match verity {
        Verity::Off => None,
        Verity::Data { .. } => {
            let root = root_at(facts, file)?;
            Some(first_half(&root))
        }
        Verity::Hash { partner } => {
            let root = root_at(facts, partner)?;
            Some(last_half(&root))
        }
    }
}

/// The root hash of the new pair whose data is the definition at a place.
pub(crate) fn root_at(facts: &[Fact], file: u16) -> Option<[u8; 32]>
    ensures { result ≡ root_of facts.now file }
{
    fact_at(facts, file)?.root
}

// The first 16 bytes of a root hash as an identifier.
fn first_half(root: &[u8; 32]) -> Guid
    ensures { result.0 ≡ take 16 root.now }
{
    let mut id = [0; 16];
    let (front, _) = root.split_at(16);
    id.copy_from_slice(front);
    Guid(id)
}

// The last 16 bytes.
fn last_half(root: &[u8; 32]) -> Guid
    ensures { result.0 ≡ drop 16 root.now }
{
    let mut id = [0; 16];
    let (_, back) = root.split_at(16);
    id.copy_from_slice(back);
    Guid(id)
}

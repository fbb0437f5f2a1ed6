ghost use Rattle.std.specs.Prelude.{◌≡◌, ◌+◌, ◌-◌, ◌<◌, ◌≤◌, ◌^◌, ℕ, length, slice_get, All, IfOk, IfSome, if◌then◌else◌};
ghost use Rattle.std.specs.Option.{option_map};
ghost use Rattle.rp_base.specs.declared.guid.Guid.{Guid};
ghost use Rattle.rp_areas.specs.Matching.{is_kind, matches_of, rows_of};
ghost use Rattle.rp_areas.specs.Counting.{seen_of, place_in};

use rp_base::{Guid, List, Memory, Row, Table};
use std::alloc::Global;
use std::collections::HashMap;

/// For each definition, given by its type, the place of its row in `rows`: the n-th row of a type in slot order goes to
/// the n-th definition of that type (systemd-repart(8)). A row that no definition has is foreign.
pub fn assign(alloc: Global, table: &Table, kinds: &[Guid]) -> Result<List<Option<u16>>, Memory>
    requires { length table.now.rows ≤ 65535 }
    ensures matches { IfOk result (λ matched. matched ≡ matches_of table.now.rows kinds.now) }
    ensures len { IfOk result (λ matched. length matched ≡ length kinds.now) }
    ensures places { IfOk result (All (λ place. IfSome place (λ p. p < length table.now.rows))) }
{
    let places = places(alloc, table.rows.as_slice())?;
    let mut seen = HashMap::new(alloc);
    let mut matched = List::new(alloc);
    for kind in kinds {
        let rank = next_rank(&mut seen, *kind)?;
        matched.push(places.get(&(kind.0, rank)).copied())?;
    }
    Ok(matched)
}

// The place of each row, under its type and how many rows of that type stand before it.
fn places(alloc: Global, rows: &[Row]) -> Result<HashMap<([u8; 16], u64), u16>, Memory>
    requires { length rows.now ≤ 65535 }
    ensures { IfOk result (λ places. (kind : Guid) → (rank : ℕ)
        → place_in places kind rank ≡ option_map (λ r. r.0) (slice_get (rows_of rows.now kind) rank)) }
{
    let mut seen = HashMap::new(alloc);
    let mut places = HashMap::new(alloc);
    for (place, row) in rows.iter().enumerate() {
        let rank = next_rank(&mut seen, row.kind)?;
        places.insert((row.kind.0, rank), place as u16)?;
    }
    Ok(places)
}

// How many of this type were seen before this one, which is then seen too.
fn next_rank(seen: &mut HashMap<[u8; 16], u64>, kind: Guid) -> Result<u64, Memory>
    requires { seen_of seen.old kind < 2 ^ 64 - 1 }
    ensures rank { IfOk result (λ rank. rank ≡ seen_of seen.old kind) }
    ensures seen { IfOk result (λ _. (other : Guid)
        → seen_of seen.new other ≡ seen_of seen.old other + (if is_kind kind other then 1 else 0)) }
{
    let rank = seen.get(&kind.0).copied().unwrap_or(0);
    seen.insert(kind.0, rank + 1)?;
    Ok(rank)
}

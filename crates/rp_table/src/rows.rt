//! The rows of a table that is shown: each within the usable units, and no two on one unit.

ghost use Rattle.std.specs.Prelude.{◌≡◌, ◌↔◌, ◌+◌, ◌^◌, ◌<◌, ◌≤◌, ◌&&◌, nat_le, All, IsTrue, IsSome, find, map, option_map, length};
ghost use Rattle.std.specs.List.Sorted.{IsPermutation, IsNonDecreasingBy};
ghost use Rattle.rp_gpt.specs.Shown.{row_outside, share_unit, overlap};
ghost use Rattle.rp_table.specs.Spans.{IsChained, IsSpan, span_of};

use arrayvec::ArrayVec;
use rp_base::{Row, Table};

/// The most rows of a table.
const MOST_ROWS: usize = 1024;

/// The slot of the first row that isn't within the usable units.
pub fn outside_slot(table: &Table) -> Option<u16>
    requires rows { All IsSpan table.now.rows }
    requires last { table.now.last + 1 < 2 ^ 64 }
    ensures { result ≡ option_map (λ row. row.slot) (row_outside table.now) }
{
    for row in table.rows.as_slice() {
        if !is_within(row, table.first, table.last) {
            return Some(row.slot);
        }
    }
    None
}

/// Whether a row lies from a first to a last unit.
fn is_within(row: &Row, first: u64, last: u64) -> bool
    requires row { IsSpan row.now }
    requires last { last + 1 < 2 ^ 64 }
    ensures { result ≡ (nat_le first row.now.start && nat_le (row.now.start + row.now.size) (last + 1)) }
{
    first <= row.start && row.start + row.size <= last + 1
}

/// The slots of the first row that shares a unit with a later one, and of the first later one that it shares one with.
/// Each pair is looked at only where two rows share a unit.
pub fn overlapping_slots(rows: &[Row]) -> Option<(u16, u16)>
    requires few { length rows.now ≤ 1024 }
    requires rows { All IsSpan rows.now }
    ensures { result ≡ option_map (λ pair. (pair.0.slot, pair.1.slot)) (overlap rows.now) }
{
    if any_share(rows) {
        least_pair(rows)
    } else {
        None
    }
}

/// Whether two rows share a unit: then, by rising first unit, some row begins within the one before it.
fn any_share(rows: &[Row]) -> bool
    requires few { length rows.now ≤ 1024 }
    requires rows { All IsSpan rows.now }
    ensures { IsTrue result ↔ IsSome (overlap rows.now) }
{
    !are_chained(spans(rows).as_slice())
}

/// The first unit of each row and the one behind its last, by rising first unit.
fn spans(rows: &[Row]) -> ArrayVec<(u64, u64), MOST_ROWS>
    requires few { length rows.now ≤ 1024 }
    requires rows { All IsSpan rows.now }
    ensures same { IsPermutation (map span_of rows.now) result.items }
    ensures rising { IsNonDecreasingBy (λ span. span.0) result.items }
{
    let mut spans = ArrayVec::new();
    for row in rows {
        spans.push((row.start, row.start + row.size));
    }
    spans.sort_unstable_by_key(|span: &(u64, u64)| span.0);
    spans
}

/// Whether each span begins behind the last unit of the one before it.
fn are_chained(spans: &[(u64, u64)]) -> bool
    ensures { IsTrue result ↔ IsChained 0 spans.now }
{
    let mut reached = 0;
    for (start, end) in spans {
        if *start < reached {
            return false;
        }
        reached = *end;
    }
    true
}

/// The same, by looking at each pair.
fn least_pair(rows: &[Row]) -> Option<(u16, u16)>
    requires { All IsSpan rows.now }
    ensures { result ≡ option_map (λ pair. (pair.0.slot, pair.1.slot)) (overlap rows.now) }
{
    for (i, row) in rows.iter().enumerate() {
        if let Some(later) = sharing_slot(row, &rows[i + 1..]) {
            return Some((row.slot, later));
        }
    }
    None
}

/// The slot of the first of some rows that shares a unit with a row.
fn sharing_slot(row: &Row, others: &[Row]) -> Option<u16>
    requires row { IsSpan row.now }
    requires others { All IsSpan others.now }
    ensures { result ≡ option_map (λ other. other.slot) (find (share_unit row.now) others.now) }
{
    for other in others {
        if shares_unit(row, other) {
            return Some(other.slot);
        }
    }
    None
}

/// Whether two rows share a unit.
fn shares_unit(a: &Row, b: &Row) -> bool
    requires a { IsSpan a.now }
    requires b { IsSpan b.now }
    ensures { result ≡ share_unit a.now b.now }
{
    a.start < b.start + b.size && b.start < a.start + a.size
}

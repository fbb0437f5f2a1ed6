ghost use Rattle.std.specs.Prelude.{◌≡◌, IfOk};
ghost use Rattle.rp_policy.specs.Flags.{has};
ghost use Rattle.rp_verdict.specs.Rows.{extra as extra_of, has_type, is_at, may_be, is_extra, row_of, tree_of, tree_row};

use rp_base::{List, Memory, Row};
use rp_policy::place;
use rp_types::{Arch, Designator, NO_AUTO, designator_of};
use std::alloc::Global;

/// The row of a designator: the first of its type that isn't hidden.
#[tactic(auto, unfolding(crate::specs::Rows::row_of))]
pub fn row_of(rows: &[Row], arch: Arch, designator: Designator) -> Option<Row>
    ensures { result ≡ row_of arch rows.now designator }
{
    for row in rows {
        if may_be(row, arch, designator) {
            return Some(*row);
        }
    }
    None
}

// Whether a row may be that of a designator.
#[tactic(auto, unfolding(crate::specs::Rows::may_be))]
fn may_be(row: &Row, arch: Arch, designator: Designator) -> bool
    ensures { result ≡ may_be arch designator row.now }
{
    !has(row.attrs, NO_AUTO) && has_type(row, arch, designator)
}

/// Whether one of these bits is set.
pub fn has(attrs: u64, bits: u64) -> bool
    ensures { result ≡ has attrs bits }
{
    attrs & bits != 0
}

// Whether a row has the type of a designator.
fn has_type(row: &Row, arch: Arch, designator: Designator) -> bool
    ensures { result ≡ has_type arch designator row.now }
{
    match designator_of(row.kind, arch) {
        Some(own) => place(own) == place(designator),
        None => false,
    }
}

/// The row of the hash tree of a designator's data.
#[tactic(auto, unfolding(crate::specs::Rows::tree_row))]
pub fn tree_row(rows: &[Row], arch: Arch, designator: Designator) -> Option<Row>
    ensures { result ≡ tree_row arch rows.now designator }
{
    match tree_of(designator) {
        Some(tree) => row_of(rows, arch, tree),
        None => None,
    }
}

fn tree_of(designator: Designator) -> Option<Designator>
    ensures { result ≡ tree_of designator }
{
    match designator {
        Designator::Root => Some(Designator::RootVerity),
        Designator::Usr => Some(Designator::UsrVerity),
        _ => None,
    }
}

/// The slots of the rows that are left over.
#[tactic(auto, unfolding(crate::specs::Rows::extra))]
pub fn extra(alloc: Global, rows: &[Row], arch: Arch) -> Result<List<u16>, Memory>
    ensures { IfOk result (λ slots. slots ≡ extra_of arch rows.now) }
{
    let mut slots = List::new(alloc);
    for row in rows {
        if is_extra(rows, arch, row) {
            slots.push(row.slot)?;
        }
    }
    Ok(slots)
}

// Whether a row is left over.
#[tactic(auto, unfolding(crate::specs::Rows::is_extra))]
fn is_extra(rows: &[Row], arch: Arch, row: &Row) -> bool
    ensures { result ≡ is_extra arch rows.now row.now }
{
    match designator_of(row.kind, arch) {
        Some(designator) => !is_at(row.slot, row_of(rows, arch, designator)),
        None => false,
    }
}

// Whether this is the slot of a row.
fn is_at(slot: u16, row: Option<Row>) -> bool
    ensures { result ≡ is_at slot row }
{
    match row {
        Some(row) => row.slot == slot,
        None => false,
    }
}

//! Where each partition lies and how large it is. The partitions of an area, its anchor and the new ones that were placed
//! there, divide its span with the padding behind each, and are stacked from its first grain on.
#![tactic(auto)]

pub mod law;
mod seat;
mod spot;
mod stack;

ghost use Rattle.std.specs.Prelude.{◌≡◌, ℕ, None, IfOk, replicate};
ghost use Rattle.rp_layout.specs.Facts.{IsReady};
ghost use Rattle.rp_layout.specs.Layout.{laid};

use rp_areas::Area;
use rp_base::{List, Memory, Table, Want};
use rp_place::{New, Placed};
pub use spot::Spot;
use std::alloc::Global;

/// Where the partition of each definition lies, if it is the anchor of an area or was placed in one.
///
/// `matched` holds the place of the row of each definition, `wants` what each asks for, `areas` the areas of the table with
/// these, and `kept` where the new definitions were placed in them. An anchor asks for no less than it has, and keeps its
/// size to the unit where its share is that in whole grains.
pub fn lay_out(
    alloc: Global,
    table: &Table,
    matched: &[Option<u16>],
    wants: &[Want],
    areas: &[Area],
    news: &[New],
    kept: &Placed,
) -> Result<List<Option<Spot>>, Memory>
    requires ready { (last : ℕ) × IsReady table.now last matched.now wants.now areas.now news.now kept.now }
    ensures spots { IfOk result (λ spots. spots ≡ laid table.now.rows matched.now wants.now areas.now news.now kept.now.areas) }
{
    let seats = seat::seats(
        alloc,
        table.rows.as_slice(),
        matched,
        wants,
        areas,
        news,
        kept.areas.as_slice(),
    )?;
    let mut spots = nowhere(alloc, wants.len())?;
    stack::stack_all(alloc, areas, &seats, &mut spots)?;
    Ok(List::from_vec(spots))
}

// So many definitions, none of which lies anywhere.
fn nowhere(alloc: Global, definitions: usize) -> Result<Vec<Option<Spot>>, Memory>
    ensures { IfOk result (λ spots. spots.items ≡ replicate definitions None) }
{
    Ok(vec![in alloc; None; definitions]?)
}

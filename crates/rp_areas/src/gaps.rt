ghost use Rattle.std.specs.Prelude.{◌≡◌, ◌≤◌, ◌<◌, ◌^◌, ◌∷◌, length, IfSome, IfOk, All};
ghost use Rattle.rp_base.specs.Answers.{Gives};
ghost use Rattle.rp_base.specs.Table.{IsLaidOut};
ghost use Rattle.rp_base.specs.Wants.{AreWants};
ghost use Rattle.rp_areas.specs.Areas.{areas_of, area_before, areas_behind, lesser as lesser_of, least_refusal as least_of, refusals_of};
ghost use Rattle.rp_areas.specs.Extents.{IsBounded};

use crate::behind::{Refusal, area_behind, grains, limit, refusal_for};
use crate::extents::{Extent, by_start, extents};
use rp_base::{List, Memory, Table, Want};
use std::alloc::Global;
use thiserror::Error;

/// Free grains between rows, or those of a row with the free ones that it may grow into. A grain is 4,096 bytes.
#[derive(Clone, Copy, Debug, PartialEq, Eq)]
pub struct Area {
    /// The first grain.
    pub from: u64,
    /// How many grains.
    pub span: u64,
    /// The definition whose row begins the area and may grow in it.
    pub anchor: Option<u16>,
    /// The least that the anchor takes with its padding, 0 where there is no anchor.
    pub used: u64,
}

/// Why there are no areas.
#[derive(Clone, Copy, Debug, PartialEq, Eq, Error)]
pub enum AreaFault {
    /// The row of a definition can't stay. One that may grow needs the greater of its size and its minimum, and the
    /// minimum of its padding too, and has its area: so want of padding alone is a cause. One that can't grow needs its
    /// minimum, and has its size. Numbers in bytes.
    #[error("a partition that is there can't stay")]
    Existing { file: u16, need: u64, have: u64 },
    #[error("out of memory")]
    Memory,
}

impl From<Memory> for AreaFault {
    ghost use Rattle.std.specs.Prelude.{◌≡◌};
    ghost use Rattle.rp_areas.specs.declared.gaps.AreaFault.TheVariants.{Memory};

    ghost from_gives = { λ _ e. e ≡ Memory };

    fn from(_: Memory) -> Self {
        AreaFault::Memory
    }
}

/// The area before the first row and one behind each row, by rising start of the rows. `matched` holds the place of the
/// row of each definition, as `assign` gives it, and `wants` what each asks for. `last` is the last usable unit of 512
/// bytes of the image as it will be: the table's own at least, and below 2^35.
///
/// An area ends at most where the next row begins, the last one at most behind `last`, both rounded down to a grain. A row
/// of a definition that begins at a grain, and whose whole grains end there at most, is the anchor of the area behind it,
/// which then begins with the row (systemd-repart(8)).
pub fn areas(
    alloc: Global,
    table: &Table,
    last: u64,
    matched: &[Option<u16>],
    wants: &[Want],
) -> Result<List<Area>, AreaFault>
    requires laid_out { IsLaidOut table.now }
    requires last { last < 2 ^ 35 }
    requires bounds { table.now.last ≤ last }
    requires matched { length matched.now ≡ length wants.now }
    requires places { All (λ place. IfSome place (λ p. p < length table.now.rows)) matched.now }
    requires wants { AreWants wants.now }
    ensures areas { Gives AreaFault.Memory (areas_of table.now last matched.now wants.now) result }
    // So that new ones can be placed in the areas.
    ensures used { IfOk result (All (λ a. a.used ≤ a.span)) }
{
    let extents = extents(alloc, table.rows.as_slice(), matched)?;
    let ordered = by_start(alloc, &extents)?;
    if let Some(refusal) = least_refusal(last, wants, &ordered) {
        return Err(AreaFault::Existing {
            file: refusal.file,
            need: refusal.need,
            have: refusal.have,
        });
    }
    Ok(areas_between(alloc, table.first, last, wants, &ordered)?)
}

// The refusal that names the least file.
fn least_refusal(last: u64, wants: &[Want], extents: &[Extent]) -> Option<Refusal>
    requires last { last < 2 ^ 35 }
    requires wants { AreWants wants.now }
    requires bounded { All (IsBounded wants.now) extents.now }
    ensures { result ≡ least_of (refusals_of last wants.now extents.now) }
{
    let mut least = None;
    for (place, extent) in extents.iter().enumerate() {
        let limit = limit(last, &extents[place + 1..]);
        if let Some(refusal) = refusal_for(wants, limit, *extent) {
            least = Some(lesser(least, refusal));
        }
    }
    least
}

// The refusal that names the lesser file.
fn lesser(best: Option<Refusal>, refusal: Refusal) -> Refusal
    ensures { lesser_of best refusal ≡ Some result }
{
    match best {
        Some(best) if refusal.file >= best.file => best,
        _ => refusal,
    }
}

// The area before the first of the extents, which are by rising start, and one behind each.
fn areas_between(
    alloc: Global,
    first: u64,
    last: u64,
    wants: &[Want],
    extents: &[Extent],
) -> Result<List<Area>, Memory>
    requires last { last < 2 ^ 35 }
    requires wants { AreWants wants.now }
    requires bounded { All (IsBounded wants.now) extents.now }
    ensures { IfOk result (λ areas. areas ≡ area_before first last extents.now ∷ areas_behind last wants.now extents.now) }
{
    let mut areas = List::new(alloc);
    let from = grains(first);
    areas.push(Area {
        from,
        span: limit(last, extents).saturating_sub(from),
        anchor: None,
        used: 0,
    })?;
    for (place, extent) in extents.iter().enumerate() {
        let limit = limit(last, &extents[place + 1..]);
        areas.push(area_behind(wants, limit, *extent))?;
    }
    Ok(areas)
}

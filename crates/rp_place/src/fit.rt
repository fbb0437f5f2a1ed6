ghost use Rattle.std.specs.Prelude.{◌≡◌, ◌≤◌, ◌<◌, ◌-◌, length, All, IfOk, IfSome, fold, max, map, Some};
ghost use Rattle.rp_base.specs.Answers.{Gives};
ghost use Rattle.rp_areas.specs.declared.gaps.Area.{Area};
ghost use Rattle.rp_place.specs.Placing.{best_of, lesser as lesser_of, placed, precedes as precedes_test};

use rp_areas::Area;
use rp_base::{List, Memory};
use std::alloc::Global;
use thiserror::Error;

/// A definition that has no row yet.
#[derive(Clone, Copy, Debug, PartialEq, Eq)]
pub struct New {
    /// Its place among the definitions.
    pub file: u16,
    /// The least that it takes, its minimum and that of its padding, in grains of 4,096 bytes.
    pub need: u64,
    /// Definitions of the highest numbers are dropped first, those of 0 or lower never (repart.d(5)).
    pub priority: i32,
}

/// Why the new definitions have no place.
#[derive(Clone, Copy, Debug, PartialEq, Eq, Error)]
pub enum PlaceFault {
    /// No area has room for the definition's need, and `largest` is the most that is available in one, 0 where there is no
    /// area; numbers in grains.
    #[error("no area has room")]
    Room { file: u16, need: u64, largest: u64 },
    /// No slot is free for the definition.
    #[error("no slot is free")]
    Slot { file: u16 },
    #[error("out of memory")]
    Memory,
}

impl From<Memory> for PlaceFault {
    ghost use Rattle.std.specs.Prelude.{◌≡◌};
    ghost use Rattle.rp_place.specs.declared.fit.PlaceFault.TheVariants.{Memory};

    ghost from_gives = { λ _ e. e ≡ Memory };

    fn from(_: Memory) -> Self {
        PlaceFault::Memory
    }
}

// An area with the grains that are available in it.
#[derive(Clone, Copy, Debug, PartialEq, Eq)]
pub struct Candidate {
    pub available: u64,
    pub from: u64,
    pub place: u64,
}

/// The place in `areas` of the area of each new definition of priority at most the threshold: in order, each goes to
/// the area least by what is available, first grain and place, among those with room for its need. Available is what
/// the span has beyond the used grains and the needs placed before. Where one has no area, it answers `Room` for the
/// first such one; it never answers `Slot`.
pub fn place(
    alloc: Global,
    areas: &[Area],
    news: &[New],
    threshold: i32,
) -> Result<List<Option<u16>>, PlaceFault>
    requires used { All (λ a. a.used ≤ a.span) areas.now }
    requires few { length areas.now ≤ 65535 }
    ensures { Gives PlaceFault.Memory (placed areas.now news.now threshold) result }
{
    walk(alloc, areas, news, threshold)?
}

/// The answer of `place`, with want of memory apart.
pub fn walk(
    alloc: Global,
    areas: &[Area],
    news: &[New],
    threshold: i32,
) -> Result<Result<List<Option<u16>>, PlaceFault>, Memory>
    requires used { All (λ a. a.used ≤ a.span) areas.now }
    requires few { length areas.now ≤ 65535 }
    ensures { IfOk result (λ answer. answer ≡ placed areas.now news.now threshold) }
{
    let mut rooms = rooms(alloc, areas)?;
    let mut places = List::new(alloc);
    for new in news {
        if new.priority <= threshold {
            let Some(best) = best_area(areas, &rooms, new.need) else {
                return Ok(Err(PlaceFault::Room {
                    file: new.file,
                    need: new.need,
                    largest: largest(&rooms),
                }));
            };
            rooms[best.place as usize] = best.available - new.need;
            places.push(Some(best.place as u16))?;
        } else {
            places.push(None)?;
        }
    }
    Ok(Ok(places))
}

// The grains that are available in each area at first.
fn rooms(alloc: Global, areas: &[Area]) -> Result<Vec<u64>, Memory>
    requires { All (λ a. a.used ≤ a.span) areas.now }
    ensures { IfOk result (λ rooms. rooms.items ≡ map (λ (a : Area). a.span - a.used) areas.now) }
{
    Ok(
        areas
            .iter()
            .map(|area| area.span - area.used)
            .collect(alloc)?,
    )
}

// The most that is available in an area, 0 where there is none.
fn largest(rooms: &[u64]) -> u64
    ensures { result ≡ fold max 0 rooms.now }
{
    let mut largest = 0;
    for room in rooms {
        largest = largest.max(*room);
    }
    largest
}

// The least area with room for a need.
fn best_area(areas: &[Area], rooms: &[u64], need: u64) -> Option<Candidate>
    requires { length areas.now ≡ length rooms.now }
    ensures best { result ≡ best_of areas.now rooms.now need }
    ensures place { IfSome result (λ c. c.place < length areas.now) }
    ensures room { IfSome result (λ c. need ≤ c.available) }
{
    let mut best = None;
    for (place, area) in areas.iter().enumerate() {
        let candidate = Candidate {
            available: rooms[place],
            from: area.from,
            place: place as u64,
        };
        if candidate.available >= need {
            best = Some(lesser(best, candidate));
        }
    }
    best
}

// The lesser of two candidates.
fn lesser(best: Option<Candidate>, candidate: Candidate) -> Candidate
    ensures { lesser_of best candidate ≡ Some result }
{
    match best {
        Some(best) if !is_before(candidate, best) => best,
        _ => candidate,
    }
}

// Whether a candidate comes first.
fn is_before(a: Candidate, b: Candidate) -> bool
    ensures { result ≡ precedes_test a b }
{
    if a.available != b.available {
        a.available < b.available
    } else if a.from != b.from {
        a.from < b.from
    } else {
        a.place < b.place
    }
}

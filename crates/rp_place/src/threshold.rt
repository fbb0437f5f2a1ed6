ghost use Rattle.std.specs.Prelude.{◌≡◌, ◌≤◌, ◌<◌, ◌⊎◌, ◌≤ℤ◌, ◌<ℤ◌, pos, length, slice_get, All, IfOk};
ghost use Rattle.std.specs.Option.{option_map};
ghost use Rattle.rp_areas.specs.declared.gaps.Area.{Area};
ghost use Rattle.rp_place.specs.declared.fit.New.{New};
ghost use Rattle.rp_base.specs.Answers.{Gives};
ghost use Rattle.rp_place.specs.Placing.{kept, settled, tried};

use crate::fit::walk;
use crate::{New, PlaceFault};
use rp_areas::Area;
use rp_base::{List, Memory};
use std::alloc::Global;

/// Which new definitions are kept, those of priority at most the threshold, and the place of the area of each.
#[derive(Debug, Drop)]
pub struct Placed {
    pub threshold: i32,
    pub areas: List<Option<u16>>,
}

/// Places the new definitions with the greatest threshold from 0 to the greatest i32 at which all that are kept have
/// room and no more than `free_slots` are kept (repart.d(5), Priority=). Where there is none, it answers the fault at
/// threshold 0: `Room`, or else `Slot` for the first beyond the free slots.
pub fn settle(
    alloc: Global,
    areas: &[Area],
    news: &[New],
    free_slots: u16,
) -> Result<Placed, PlaceFault>
    requires used { All (λ a. a.used ≤ a.span) areas.now }
    requires few { length areas.now ≤ 65535 }
    ensures { Gives PlaceFault.Memory (settled areas.now news.now free_slots) result }
{
    let mut threshold = i32::MAX;
    loop {
        match attempt(alloc, areas, news, free_slots, threshold)? {
            Ok(areas) => return Ok(Placed { threshold, areas }),
            Err(fault) => {
                let highest = highest(news, threshold);
                if highest == 0 {
                    return Err(fault);
                }
                threshold = highest - 1;
            }
        }
    }
}

// What a threshold leads to.
fn attempt(
    alloc: Global,
    areas: &[Area],
    news: &[New],
    free_slots: u16,
    threshold: i32,
) -> Result<Result<List<Option<u16>>, PlaceFault>, Memory>
    requires used { All (λ a. a.used ≤ a.span) areas.now }
    requires few { length areas.now ≤ 65535 }
    ensures { IfOk result (λ answer. answer ≡ tried areas.now news.now free_slots threshold) }
{
    match walk(alloc, areas, news, threshold)? {
        Ok(places) => match first_beyond(news, free_slots, threshold) {
            Some(file) => Ok(Err(PlaceFault::Slot { file })),
            None => Ok(Ok(places)),
        },
        Err(fault) => Ok(Err(fault)),
    }
}

// The first of priority at most the threshold that has as many of these before it as slots are free.
fn first_beyond(news: &[New], free_slots: u16, threshold: i32) -> Option<u16>
    ensures { result ≡ option_map (λ (n : New). n.file) (slice_get (kept news.now threshold) free_slots) }
{
    let mut free = free_slots;
    for new in news {
        if new.priority <= threshold {
            if free == 0 {
                return Some(new.file);
            }
            free -= 1;
        }
    }
    None
}

// The highest priority that a threshold keeps, at least 0. The thresholds from it on keep the same.
fn highest(news: &[New], threshold: i32) -> i32
    requires { pos 0 ≤ℤ threshold }
    ensures low { pos 0 ≤ℤ result }
    ensures high { result ≤ℤ threshold }
    ensures same { All (λ (n : New). (n.priority ≤ℤ result) ⊎ (threshold <ℤ n.priority)) news.now }
{
    let mut highest = 0;
    for new in news {
        highest = higher(highest, threshold, new.priority);
    }
    highest
}

// The higher of two priorities, but for one above the threshold.
fn higher(highest: i32, threshold: i32, priority: i32) -> i32
    requires low { pos 0 ≤ℤ highest }
    requires high { highest ≤ℤ threshold }
    ensures low { highest ≤ℤ result }
    ensures high { result ≤ℤ threshold }
    ensures same { (priority ≤ℤ result) ⊎ (threshold <ℤ priority) }
{
    if priority <= threshold && priority > highest {
        priority
    } else {
        highest
    }
}

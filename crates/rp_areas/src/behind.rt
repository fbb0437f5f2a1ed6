ghost use Rattle.std.specs.Prelude.{◌≡◌, ◌≤◌, ◌<◌, ◌+◌, ◌*◌, ◌^◌, ◌++◌, [], ◌∷◌, ℕ, length, All, IfOk};
ghost use Rattle.rp_base.specs.Wants.{AreWants, IsWant};
ghost use Rattle.rp_areas.specs.Areas.{grains_up, file_of, limit_of, anchor_of, used_of, area_behind as area_behind_of, refusal_of};
ghost use Rattle.rp_areas.specs.Extents.{IsBounded};

use crate::Area;
use crate::extents::Extent;
use rp_base::{GRAIN, SECTOR, Want};

// Units of 512 bytes in a grain.
const GRAIN_UNITS: u64 = GRAIN / SECTOR;

// Why a row can't stay, in bytes.
#[derive(Clone, Copy, Debug, PartialEq, Eq)]
pub struct Refusal {
    pub file: u16,
    pub need: u64,
    pub have: u64,
}

// Units in grains, rounded up.
pub fn grains(units: u64) -> u64
    ensures { result ≡ grains_up units }
{
    units.div_ceil(GRAIN_UNITS)
}

// The grain at which an area ends that reaches up to these extents.
pub fn limit(last: u64, next: &[Extent]) -> u64
    requires last { last < 2 ^ 35 }
    requires starts { All (λ e. e.start ≤ 2 ^ 35) next.now }
    ensures value { result ≡ limit_of last next.now }
    ensures small { result ≤ 2 ^ 35 }
{
    match next {
        [] => (last + 1) / GRAIN_UNITS,
        [extent, ..] => extent.start / GRAIN_UNITS,
    }
}

// The definition whose row can grow in its place.
fn anchor(limit: u64, extent: Extent) -> Option<u16>
    requires { extent.start + extent.size ≤ 2 ^ 35 }
    ensures { result ≡ anchor_of limit extent }
{
    let begins = extent.start % GRAIN_UNITS == 0;
    if begins && extent.start / GRAIN_UNITS + grains(extent.size) <= limit {
        extent.file
    } else {
        None
    }
}

// The least that an anchor takes with its padding.
fn used(want: &Want, extent: Extent) -> u64
    requires want { IsWant want.now }
    requires ends { extent.start + extent.size ≤ 2 ^ 35 }
    ensures value { result ≡ used_of want.now extent }
    ensures fits { result < 2 ^ 50 }
{
    grains(extent.size).max(want.min) + want.pad_min
}

// The area behind a row up to a limit.
pub fn area_behind(wants: &[Want], limit: u64, extent: Extent) -> Area
    requires wants { AreWants wants.now }
    requires bounded { IsBounded wants.now extent }
    ensures { result ≡ area_behind_of wants.now limit extent }
{
    match anchor(limit, extent) {
        Some(file) => {
            let from = extent.start / GRAIN_UNITS;
            Area {
                from,
                span: limit.saturating_sub(from),
                anchor: Some(file),
                used: used(&wants[file as usize], extent),
            }
        }
        None => {
            let from = grains(extent.start + extent.size);
            Area {
                from,
                span: limit.saturating_sub(from),
                anchor: None,
                used: 0,
            }
        }
    }
}

// Why a row can't stay, if it can't.
pub fn refusal_for(wants: &[Want], limit: u64, extent: Extent) -> Option<Refusal>
    requires wants { AreWants wants.now }
    requires bounded { IsBounded wants.now extent }
    requires limit { limit ≤ 2 ^ 35 }
    ensures { result ≡ refusal_of wants.now limit extent }
{
    let file = extent.file?;
    let want = &wants[file as usize];
    let (need, have) = match anchor(limit, extent) {
        Some(_) => {
            let span = limit.saturating_sub(extent.start / GRAIN_UNITS);
            (GRAIN * used(want, extent), GRAIN * span)
        }
        None => (GRAIN * want.min, SECTOR * extent.size),
    };
    if have < need {
        Some(Refusal { file, need, have })
    } else {
        None
    }
}

//! The partitions in an area, stacked from its first grain on.

ghost use Rattle.std.specs.Prelude.{◌≡◌, ◌+◌, ◌*◌, ◌<◌, ◌≤◌, ◌^◌, All, IfOk, OnOk, length, sum};
ghost use Rattle.rp_share.specs.Value.{shares_of};
ghost use Rattle.rp_layout.specs.declared.seat.Seat.{Seat};
ghost use Rattle.rp_layout.specs.Layout.{spots_from};
ghost use Rattle.rp_layout.specs.Seats.{items_of, pieces_of, stack_of, units_of};
ghost use Rattle.rp_layout.specs.Stacking.{AreStackable, IsStackable, spots_over, written};

use crate::Spot;
use crate::seat::{GRAIN_UNITS, Seat};
use rp_areas::Area;
use rp_base::{List, Memory};
use rp_share::{Item, share};
use std::alloc::Global;

/// Shares each area among its seats, and writes where each of them lies at the place of its definition.
#[tactic(auto, using(crate::proofs::Seating::over_more))]
pub fn stack_all(
    alloc: Global,
    areas: &[Area],
    seats: &[List<Seat>],
    spots: &mut [Option<Spot>],
) -> Result<(), Memory>
    requires stackable { AreStackable areas.now seats.now }
    requires files { All (All (λ (s : Seat). s.file < length spots.old)) seats.now }
    ensures { OnOk result (spots.new ≡ written spots.old (spots_over areas.now seats.now)) }
{
    for (place, area) in areas.iter().enumerate() {
        stack(alloc, area, seats[place].as_slice(), spots)?;
    }
    Ok(())
}

/// Shares an area among its seats, and writes where each lies at the place of its definition.
fn stack(
    alloc: Global,
    area: &Area,
    seats: &[Seat],
    spots: &mut [Option<Spot>],
) -> Result<(), Memory>
    requires stackable { IsStackable area.now.from area.now.span seats.now }
    requires files { All (λ s. s.file < length spots.old) seats.now }
    ensures { OnOk result (spots.new ≡ written spots.old (spots_from area.now.from (stack_of area.now.span seats.now))) }
{
    if seats.is_empty() {
        return Ok(());
    }
    let shares = shares(alloc, area.from, area.span, seats)?;
    write(area.from, seats, &shares, spots);
    Ok(())
}

/// The shares of the seats from a grain on, each size followed by its padding.
fn shares(alloc: Global, from: u64, span: u64, seats: &[Seat]) -> Result<Vec<u64>, Memory>
    requires { IsStackable from span seats.now }
    ensures value { IfOk result (λ shares. shares.items ≡ shares_of span (items_of seats.now)) }
    ensures len { IfOk result (λ shares. length shares.items ≡ 2 * length seats.now) }
    ensures fits { IfOk result (λ shares. sum shares.items ≤ span) }
{
    let items = items(alloc, seats)?;
    let mut shares = vec![in alloc; 0; items.len()]?;
    share(span, &items, &mut shares);
    Ok(shares)
}

/// What the seats ask for, each size followed by its padding.
#[tactic(auto, using(crate::proofs::Seating::items_more))]
fn items(alloc: Global, seats: &[Seat]) -> Result<Vec<Item>, Memory>
    ensures items { IfOk result (λ items. items.items ≡ items_of seats.now) }
    ensures len { IfOk result (λ items. length items.items ≡ 2 * length seats.now) }
{
    let mut items = Vec::new(alloc);
    for seat in seats {
        items.push(seat.size)?;
        items.push(seat.pad)?;
    }
    Ok(items)
}

/// Writes where each seat lies at the place of its definition.
fn write(first: u64, seats: &[Seat], shares: &[u64], spots: &mut [Option<Spot>])
    requires one_each { length shares.now ≡ 2 * length seats.now }
    requires files { All (λ s. s.file < length spots.old) seats.now }
    requires fits { first + sum shares.now ≤ 2 ^ 32 }
    ensures { spots.new ≡ written spots.old (spots_from first (pieces_of seats.now shares.now)) }
{
    let mut from = first;
    for (place, seat) in seats.iter().enumerate() {
        let size = shares[2 * place];
        let pad = shares[2 * place + 1];
        spots[seat.file as usize] = Some(Spot {
            file: seat.file,
            start: GRAIN_UNITS * from,
            size: units(seat.has, size),
            pad,
        });
        from += size + pad;
    }
}

/// The units of so many grains: a partition that has as many keeps its size to the unit.
fn units(has: u64, grains: u64) -> u64
    requires { grains ≤ 2 ^ 32 }
    ensures { result ≡ units_of has grains }
{
    if has.div_ceil(GRAIN_UNITS) == grains {
        has
    } else {
        GRAIN_UNITS * grains
    }
}

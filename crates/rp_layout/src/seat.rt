//! The partitions that share an area.

ghost use Rattle.std.specs.Prelude.{◌≡◌, ◌<◌, ◌++◌, ◌∷◌, [], Some, None, All, IfOk, IfSome, OnOk, length, map, slice_get, slice_index_or, slice_set};
ghost use Rattle.std.specs.List.{cons_option, enumerate_from};
ghost use Rattle.rp_areas.specs.declared.gaps.Area.{Area};
ghost use Rattle.rp_layout.specs.Seats.{files_at, seat_of, seats_of, units_at};
ghost use Rattle.rp_layout.specs.Stacking.{with_new, with_news};

use rp_areas::Area;
use rp_base::{GRAIN, List, Memory, Row, SECTOR, Want};
use rp_place::New;
use rp_share::Item;
use std::alloc::Global;

/// Units of 512 bytes in a grain.
pub const GRAIN_UNITS: u64 = GRAIN / SECTOR;

/// A partition that shares an area: its definition, the units of 512 bytes that it has (0 of a new one), and what it and
/// the padding behind it ask for.
#[derive(Clone, Copy, Debug, PartialEq, Eq)]
pub struct Seat {
    pub file: u16,
    pub has: u64,
    pub size: Item,
    pub pad: Item,
}

/// The seat of a definition that has so many units.
fn seat_for(want: &Want, file: u16, has: u64) -> Seat
    ensures { result ≡ seat_of want.now file has }
{
    let least = has.div_ceil(GRAIN_UNITS);
    Seat {
        file,
        has,
        size: Item {
            min: least.max(want.min),
            max: least.max(want.max),
            weight: want.weight,
        },
        pad: Item {
            min: want.pad_min,
            max: want.pad_max,
            weight: want.pad_weight,
        },
    }
}

/// The seats in each area: its anchor's, and then those of the new definitions that were placed there, in one pass.
pub fn seats(
    alloc: Global,
    rows: &[Row],
    matched: &[Option<u16>],
    wants: &[Want],
    areas: &[Area],
    news: &[New],
    places: &[Option<u16>],
) -> Result<Vec<List<Seat>>, Memory>
    requires wants { length matched.now ≡ length wants.now }
    requires rows { All (λ m. IfSome m (λ p. p < length rows.now)) matched.now }
    requires anchors { All (λ a. IfSome a.anchor (λ f. f < length matched.now)) areas.now }
    requires news { All (λ n. slice_get matched.now n.file ≡ Some None) news.now }
    requires one_each { length places.now ≡ length news.now }
    requires places { All (λ p. IfSome p (λ a. a < length areas.now)) places.now }
    ensures { IfOk result (λ seats. seats.items ≡ map
        (λ e. seats_of rows.now matched.now wants.now (files_at news.now places.now e)) (enumerate_from 0 areas.now)) }
{
    let mut seats = anchors(alloc, rows, matched, wants, areas)?;
    add_news(wants, news, places, &mut seats)?;
    Ok(seats)
}

/// Adds the seats of new definitions behind those of the areas where these were placed.
#[tactic(auto, using(crate::proofs::Seating::news_more))]
fn add_news(
    wants: &[Want],
    news: &[New],
    places: &[Option<u16>],
    seats: &mut [List<Seat>],
) -> Result<(), Memory>
    requires news { All (λ n. n.file < length wants.now) news.now }
    requires one_each { length places.now ≡ length news.now }
    requires places { All (λ p. IfSome p (λ a. a < length seats.old)) places.now }
    ensures { OnOk result (seats.new ≡ with_news wants.now news.now places.now seats.old) }
{
    for (order, new) in news.iter().enumerate() {
        add_new(wants, *new, places[order], seats)?;
    }
    Ok(())
}

/// Adds the seat of a new definition behind those of the area where it was placed, if it was.
fn add_new(
    wants: &[Want],
    new: New,
    place: Option<u16>,
    seats: &mut [List<Seat>],
) -> Result<(), Memory>
    requires new { new.file < length wants.now }
    requires place { IfSome place (λ a. a < length seats.old) }
    ensures { OnOk result (seats.new ≡ with_new wants.now new place seats.old) }
{
    let Some(place) = place else {
        return Ok(());
    };
    let seat = seat_for(&wants[new.file as usize], new.file, 0);
    add(seats, place, seat)
}

/// Adds a seat behind those of an area.
fn add(seats: &mut [List<Seat>], place: u16, seat: Seat) -> Result<(), Memory>
    requires { place < length seats.old }
    ensures { OnOk result (seats.new ≡ slice_set seats.old place (slice_index_or seats.old place [] ++ seat ∷ [])) }
{
    let own = &mut seats[place as usize];
    own.push(seat)?;
    Ok(())
}

/// The seat of each area's anchor, if it has one.
fn anchors(
    alloc: Global,
    rows: &[Row],
    matched: &[Option<u16>],
    wants: &[Want],
    areas: &[Area],
) -> Result<Vec<List<Seat>>, Memory>
    requires wants { length matched.now ≡ length wants.now }
    requires rows { All (λ m. IfSome m (λ p. p < length rows.now)) matched.now }
    requires anchors { All (λ a. IfSome a.anchor (λ f. f < length matched.now)) areas.now }
    ensures { IfOk result (λ seats. seats.items ≡ map
        (λ (a : Area). seats_of rows.now matched.now wants.now (cons_option a.anchor [])) areas.now) }
{
    let mut seats = Vec::new(alloc);
    for area in areas {
        seats.push(anchor(alloc, rows, matched, wants, area.anchor)?)?;
    }
    Ok(seats)
}

/// The seat of an anchor, if there is one.
fn anchor(
    alloc: Global,
    rows: &[Row],
    matched: &[Option<u16>],
    wants: &[Want],
    anchor: Option<u16>,
) -> Result<List<Seat>, Memory>
    requires wants { length matched.now ≡ length wants.now }
    requires rows { All (λ m. IfSome m (λ p. p < length rows.now)) matched.now }
    requires anchor { IfSome anchor (λ f. f < length matched.now) }
    ensures { IfOk result (λ seats. seats ≡ seats_of rows.now matched.now wants.now (cons_option anchor [])) }
{
    let mut seats = List::new(alloc);
    if let Some(file) = anchor {
        let has = units(rows, matched, file);
        seats.push(seat_for(&wants[file as usize], file, has))?;
    }
    Ok(seats)
}

/// The units that a definition has, 0 where it has no row.
fn units(rows: &[Row], matched: &[Option<u16>], file: u16) -> u64
    requires rows { All (λ m. IfSome m (λ p. p < length rows.now)) matched.now }
    requires file { file < length matched.now }
    ensures { result ≡ units_at rows.now matched.now file }
{
    match matched[file as usize] {
        Some(place) => rows[place as usize].size,
        None => 0,
    }
}

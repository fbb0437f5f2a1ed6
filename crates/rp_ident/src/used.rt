//! Which identifiers rows have, kept in order.

ghost use Rattle.std.specs.Prelude.{◌≡◌, ◌≢◌, ◌<◌, ◌≤◌, ◌==◌, ◌||◌, ℕ, false, true, length};
ghost use Rattle.std.specs.List.{list_any};
ghost use Rattle.rp_ident.specs.Naming.{given, is_used, is_zero, waits};
ghost use Rattle.rp_ident.specs.Kept.{AreKept, IsId, IsPlaceFor, IsRising, number};

use arrayvec::ArrayVec;
use rp_base::{Guid, Row};

/// How many identifiers are kept at most: as many as a table has rows.
const MOST: usize = 1024;

/// The identifiers of rows that aren't zero, as numbers that don't fall. Where there was no room for one they aren't whole,
/// and the rows are looked at instead.
#[derive(Drop)]
pub(crate) struct Used {
    pub(crate) numbers: ArrayVec<u128, MOST>,
    pub(crate) whole: bool,
}

/// The identifiers of rows.
pub(crate) fn used_of(rows: &[Row]) -> Used
    ensures { AreKept rows.now result }
{
    let mut used = Used {
        numbers: ArrayVec::new(),
        whole: true,
    };
    for row in rows {
        keep_row(&mut used, row);
    }
    used
}

// Keeps the identifier of a row, unless it is zero.
fn keep_row(used: &mut Used, row: &Row)
    ensures rising { IsRising used.old.numbers.items → IsRising used.new.numbers.items }
    ensures found { used.new.whole ≡ true → (n : ℕ) → n ≢ 0
        → list_any (λ m. m == n) used.new.numbers.items ≡ (number row.now.id == n || list_any (λ m. m == n) used.old.numbers.items) }
    ensures whole { used.new.whole ≡ true → used.old.whole ≡ true }
    ensures id { IsId row.now.id }
{
    let number = number(row.id);
    if number == 0 {
        return;
    }
    keep(used, number);
}

// Keeps a number.
fn keep(used: &mut Used, number: u128)
    ensures rising { IsRising used.old.numbers.items → IsRising used.new.numbers.items }
    ensures found { used.new.whole ≡ true → (n : ℕ)
        → list_any (λ m. m == n) used.new.numbers.items ≡ (number == n || list_any (λ m. m == n) used.old.numbers.items) }
    ensures whole { used.new.whole ≡ true → used.old.whole ≡ true }
{
    let at = place_for(used.numbers.as_slice(), number);
    if used.numbers.try_insert(at, number).is_err() {
        used.whole = false;
    }
}

// Where a number goes among numbers that don't fall.
fn place_for(numbers: &[u128], number: u128) -> usize
    ensures inside { result ≤ length numbers.now }
    ensures place { IsRising numbers.now → IsPlaceFor numbers.now number result }
{
    match numbers.binary_search(&number) {
        Ok(at) => at,
        Err(at) => at,
    }
}

// An identifier as a number.
#[tactic(auto, unfolding(crate::specs::Kept::number))]
fn number(id: Guid) -> u128
    ensures value { result ≡ number id }
    ensures id { IsId id }
{
    u128::from_le_bytes(id.0)
}

/// Whether some row has this identifier, which isn't zero.
pub(crate) fn is_used(rows: &[Row], used: &Used, id: Guid) -> bool
    requires kept { AreKept rows.now used.now }
    requires some { is_zero id ≡ false }
    ensures { result ≡ is_used rows.now id }
{
    if used.whole {
        used.numbers.as_slice().binary_search(&number(id)).is_ok()
    } else {
        rows.iter().any(|row| row.id == id)
    }
}

/// Gives the row at a place, which has no identifier, one that isn't zero.
pub(crate) fn give(rows: &mut [Row], used: &mut Used, place: u16, id: Guid)
    requires place { place < length rows.old }
    requires waits { waits rows.old place ≡ true }
    requires kept { AreKept rows.old used.old }
    ensures rows { rows.new ≡ given rows.old place id }
    ensures kept { AreKept rows.new used.new }
{
    give_id(rows, place, id);
    keep(used, number(id));
}

// Gives the row at a place an identifier.
fn give_id(rows: &mut [Row], place: u16, id: Guid)
    requires { place < length rows.old }
    ensures { rows.new ≡ given rows.old place id }
{
    let row = &mut rows[place as usize];
    row.id = id;
}

//! Giving identifiers.

ghost use Rattle.std.specs.Prelude.{◌≡◌, ◌<◌, ◌≤◌, ◌||◌, All, IfSome, Some, ℕ, false, true, length, option_map};
ghost use Rattle.std.specs.Bool.{OnFalse};
ghost use Rattle.rp_hmac.specs.Derived.{derived};
ghost use Rattle.rp_ident.specs.Naming.{derived_one, first_unused, fixed_one, in_turn, is_used, is_zero, kind_of, leaves, waits};
ghost use Rattle.rp_ident.specs.Kept.{AreKept};
ghost use Rattle.rp_ident.specs.Tried.{AreTried};

use crate::tried::{KINDS, Tried, note, tried_of};
use crate::used::{Used, give, is_used};
use crate::{IdentFault, Naming};
use rp_base::{Guid, Row};
use rp_hmac::derive;

/// How many identifiers are derived for a type at most.
const NUMBERS: u64 = 256;

/// Gives the fixed identifiers, in order.
pub(crate) fn give_fixed(
    rows: &mut [Row],
    used: &mut Used,
    namings: &[Naming],
) -> Result<(), IdentFault>
    requires rows { All (λ naming. naming.row < length rows.old) namings.now }
    requires kept { AreKept rows.old used.old }
    ensures rows { leaves result rows.new ≡ in_turn fixed_one rows.old namings.now }
    ensures kept { AreKept rows.new used.new }
{
    for naming in namings {
        fix_one(rows, used, naming)?;
    }
    Ok(())
}

/// Gives the derived identifiers, in order.
pub(crate) fn give_derived(
    rows: &mut [Row],
    used: &mut Used,
    namings: &[Naming],
    seed: Guid,
) -> Result<(), IdentFault>
    requires rows { All (λ naming. naming.row < length rows.old) namings.now }
    requires kept { AreKept rows.old used.old }
    ensures { leaves result rows.new ≡ in_turn (derived_one seed) rows.old namings.now }
{
    let mut tried = [Tried {
        kind: Guid([0; 16]),
        next: 0,
    }; KINDS];
    for naming in namings {
        derive_one(rows, used, &mut tried, naming, seed)?;
    }
    Ok(())
}

// Gives the fixed identifier of a naming, if there is one and its row has none yet.
fn fix_one(rows: &mut [Row], used: &mut Used, naming: &Naming) -> Result<(), IdentFault>
    requires row { naming.now.row < length rows.old }
    requires kept { AreKept rows.old used.old }
    ensures rows { leaves result rows.new ≡ fixed_one rows.old naming.now }
    ensures kept { AreKept rows.new used.new }
{
    if !waits(rows, naming.row) {
        return Ok(());
    }
    let Some(id) = naming.fixed else {
        return Ok(());
    };
    if is_taken(rows, used, id) {
        return Err(IdentFault::TakenIdentifier { file: naming.file });
    }
    give(rows, used, naming.row, id);
    Ok(())
}

// Gives the row of a naming the first derived identifier that no row has, if it has none yet.
fn derive_one(
    rows: &mut [Row],
    used: &mut Used,
    tried: &mut [Tried; KINDS],
    naming: &Naming,
    seed: Guid,
) -> Result<(), IdentFault>
    requires row { naming.now.row < length rows.old }
    requires kept { AreKept rows.old used.old }
    requires tried { AreTried seed rows.old tried.old }
    ensures rows { leaves result rows.new ≡ derived_one seed rows.old naming.now }
    ensures kept { AreKept rows.new used.new }
    ensures tried { AreTried seed rows.new tried.new }
{
    if !waits(rows, naming.row) {
        return Ok(());
    }
    let kind = kind_of(rows, naming.row);
    let from = tried_of(tried, kind);
    let Some(number) = first_unused(seed, rows, used, kind, from) else {
        return Err(IdentFault::NoIdentifier { file: naming.file });
    };
    give(rows, used, naming.row, derived(seed, kind, number));
    note(
        tried,
        Tried {
            kind,
            next: number + 1,
        },
    );
    Ok(())
}

// The number of the first identifier derived for a type that no row has, where those before a number are some row's.
fn first_unused(seed: Guid, rows: &[Row], used: &Used, kind: Guid, from: u64) -> Option<u64>
    requires kept { AreKept rows.now used.now }
    requires few { from ≤ 256 }
    requires tried { (k : ℕ) → k < from → is_used rows.now (derived seed kind.0 k) ≡ true }
    ensures id { option_map (derived seed kind.0) result ≡ first_unused seed rows.now kind }
    ensures few { IfSome result (λ number. number < 256) }
    ensures unused { IfSome result (λ number. is_used rows.now (derived seed kind.0 number) ≡ false) }
    ensures tried { IfSome result (λ number. (k : ℕ) → k < number → is_used rows.now (derived seed kind.0 k) ≡ true) }
{
    for k in from..NUMBERS {
        if !is_used(rows, used, derived(seed, kind, k)) {
            return Some(k);
        }
    }
    None
}

// The identifier with a number that is derived for a type. It is never zero.
fn derived(seed: Guid, kind: Guid, number: u64) -> Guid
    ensures value { result ≡ derived seed kind.0 number }
    ensures some { is_zero result ≡ false }
{
    derive(seed, &kind.0, number)
}

// Whether the row at a place has no identifier.
fn waits(rows: &[Row], place: u16) -> bool
    requires { place < length rows.now }
    ensures { result ≡ waits rows.now place }
{
    let row = &rows[place as usize];
    row.id.0 == [0; 16]
}

// The type of the row at a place.
fn kind_of(rows: &[Row], place: u16) -> Guid
    requires { place < length rows.now }
    ensures { kind_of rows.now place ≡ Some result }
{
    let row = &rows[place as usize];
    row.kind
}

// Whether a fixed identifier can't be given: it is zero, or some row has it.
fn is_taken(rows: &[Row], used: &Used, id: Guid) -> bool
    requires { AreKept rows.now used.now }
    ensures value { result ≡ (is_zero id || is_used rows.now id) }
    ensures some { OnFalse result (is_zero id ≡ false) }
{
    id.0 == [0; 16] || is_used(rows, used, id)
}

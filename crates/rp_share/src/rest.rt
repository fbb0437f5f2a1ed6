//! The grains that are left at the greatest level.

ghost use Rattle.std.specs.Prelude.{◌≡◌, ◌+◌, ◌^◌, ◌<◌, ◌≤◌, ◌⊎◌, length, sum};
ghost use Rattle.rp_share.specs.Due.{IsNext};
ghost use Rattle.rp_share.specs.Share.{IsFair, IsFull, IsShare};

use crate::Item;

/// The item whose grain is next of those up to `place`, where `next` is the one of those before.
fn next_with(next: Option<usize>, items: &[Item], shares: &[u64], place: usize) -> Option<usize>
    requires places { length shares.now ≡ length items.now }
    requires place { place < length items.now }
    requires next { IsNext items.now shares.now place next }

    ensures { IsNext items.now shares.now (place + 1) result }
{
    let item = &items[place];
    if !item.can_take(shares[place]) {
        return next;
    }
    let Some(other) = next else {
        return Some(place);
    };
    if item.is_sooner(shares[place], &items[other], shares[other]) {
        Some(place)
    } else {
        next
    }
}

/// The item whose grain is next, if one can take a grain.
fn next_of(items: &[Item], shares: &[u64]) -> Option<usize>
    requires { length shares.now ≡ length items.now }

    ensures { IsNext items.now shares.now (length items.now) result }
{
    let mut next = None;
    for place in 0..items.len() {
        next = next_with(next, items, shares, place);
    }
    next
}

/// Gives `rest` grains one by one, each to the item whose grain is next, while one can take a grain. There is a pass over
/// the items for each grain, so at most one an item.
pub(crate) fn hand_out(rest: u64, items: &[Item], shares: &mut [u64])
    requires fair { IsFair items.now shares.old }
    requires span { sum shares.old + rest ≤ 2 ^ 32 }
    requires few { (rest ≤ length items.now) ⊎ IsFull items.now shares.old }

    ensures { IsShare (sum shares.old + rest) items.now shares.new }
{
    for _ in 0..rest {
        let Some(next) = next_of(items, shares) else {
            return;
        };
        shares[next] += 1;
    }
}

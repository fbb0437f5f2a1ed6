//! The greatest level at which the shares fit in the span. At a level each item has as many grains as its weight times
//! the level makes, within its limits.

ghost use Rattle.std.specs.Prelude.{◌≡◌, ◌+◌, ◌*◌, ◌^◌, ◌<◌, ◌≤◌, ◌⊎◌, ◌↔◌, IsTrue, length, map, sum_by};
ghost use Rattle.rp_share.specs.Level.{grains_at};

use crate::{Item, LEVEL_SCALE};

/// Whether the grains of all items at `level` fit in `span`.
fn fits(level: u64, span: u64, items: &[Item]) -> bool
    ensures { IsTrue result ↔ (sum_by (grains_at level) items.now ≤ span) }
{
    let mut rest = span;
    for item in items {
        let grains = item.grains_at(level);
        if grains > rest {
            return false;
        }
        rest -= grains;
    }
    true
}

/// The greatest level that fits, up to the one at which a unit of weight has the whole span.
pub(crate) fn greatest_level(span: u64, items: &[Item]) -> u64
    requires minima { sum_by (grains_at 0) items.now ≤ span }
    requires span { span ≤ 2 ^ 32 }

    ensures fits { sum_by (grains_at result) items.now ≤ span }
    ensures greatest { (result ≡ span * LEVEL_SCALE) ⊎ (span < sum_by (grains_at (result + 1)) items.now) }
{
    let mut low = 0;
    let mut high = span * LEVEL_SCALE + 1;
    while low + 1 < high {
        let middle = low + (high - low) / 2;
        if fits(middle, span, items) {
            low = middle;
        } else {
            high = middle;
        }
    }
    low
}

/// Writes the grains of each item at `level` to its place in `shares`, and answers what they leave of `span`.
#[tactic(auto, using(std::proofs::lemmas::List::Sums::sum_by_more_le))]
pub(crate) fn fill(level: u64, span: u64, items: &[Item], shares: &mut [u64]) -> u64
    requires places { length shares.old ≡ length items.now }
    requires fits { sum_by (grains_at level) items.now ≤ span }

    ensures filled { shares.new ≡ map (grains_at level) items.now }
    ensures rest { sum_by (grains_at level) items.now + result ≡ span }
{
    let mut rest = span;
    for (place, item) in items.iter().enumerate() {
        shares[place] = item.grains_at(level);
        rest -= shares[place];
    }
    rest
}

//! Weighted shares: a span is divided among items, exact to the grain (4,096 bytes).
//!
//! Each item has at least its minimum. Every other grain goes to the item, below its maximum, that has the fewest grains
//! for its weight with it, and of equals to the first one; an item of weight 0 takes none. So weights say how large the
//! whole shares are, and not only what is added to the minima (`Weight=` and `PaddingWeight=` of repart.d(5)).
//!
//! The code searches the greatest level (grains for each unit of weight) at which the shares fit, in passes as many as
//! the level has bits, and hands out the rest, at most one grain an item, in a pass for each grain.
#![tactic(auto)]

mod item;
pub mod law;
mod level;
mod rest;

ghost use Rattle.std.specs.Prelude.{◌≡◌, ◌≤◌, ◌^◌, All, length, sum_by};
ghost use Rattle.rp_share.specs.Share.{IsShare};
ghost use Rattle.rp_share.specs.Value.{shares_of};

pub use item::Item;

/// Levels in one grain for each unit of weight. They are more than the greatest weight, so that from one level to the
/// next no item gains more than a grain.
const LEVEL_SCALE: u64 = 1 << 20;

/// Divides `span` grains among `items`, and writes the share of each, in grains, to its place in `out`. Where the maxima
/// are less than the span, a part of it is left.
///
/// A span is at most 2^32 grains, which are 2^44 bytes; the time goes by the square of the number of items.
pub fn share(span: u64, items: &[Item], out: &mut [u64])
    requires places { length out.old ≡ length items.now }
    requires count { length items.now ≤ 512 }
    requires limits { All (λ item. item.min ≤ item.max) items.now }
    requires weights { All (λ item. item.weight ≤ 1000000) items.now }
    requires minima { sum_by (λ item. item.min) items.now ≤ span }
    requires span { span ≤ 2 ^ 32 }

    ensures share { IsShare span items.now out.new }
    ensures value { out.new ≡ shares_of span items.now }
{
    let level = level::greatest_level(span, items);
    let rest = level::fill(level, span, items, out);
    rest::hand_out(rest, items, out);
}

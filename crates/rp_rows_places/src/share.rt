ghost use Rattle.std.specs.Prelude.{◌≤◌, All, IsTrue, sum_by};

use rp_share::{Item, share};
use std::process::Abort;

/// The most items of a test.
const MOST: usize = 4;

fn item(min: u64, max: u64, weight: u64) -> Item {
    Item { min, max, weight }
}

/// Whether `span` can be divided among `items`.
fn is_ready(span: u64, items: &[Item]) -> bool
    ensures limits { IsTrue result → All (λ item. item.min ≤ item.max) items.now }
    ensures weights { IsTrue result → All (λ item. item.weight ≤ 1000000) items.now }
    ensures minima { IsTrue result → sum_by (λ item. item.min) items.now ≤ span }
{
    let mut rest = span;
    for item in items {
        if item.min > item.max || item.weight > 1_000_000 || item.min > rest {
            return false;
        }
        rest -= item.min;
    }
    true
}

/// Divides `span` among `items`, in the first places of the result.
fn divided(rt: &impl Abort, span: u64, items: &[Item]) -> [u64; MOST] {
    assert!(rt; items.len() <= MOST && span <= 1 << 32);
    assert!(rt; is_ready(span, items));
    let mut shares = [0; MOST];
    share(span, items, &mut shares[..items.len()]);
    shares
}

/// Divides `span` among `items`, and finds `shares`.
fn expect_shares(rt: &impl Abort, span: u64, items: &[Item], shares: &[u64]) {
    assert!(rt; items.len() <= MOST);
    let given = divided(rt, span, items);
    assert_eq!(rt; &given[..items.len()], shares, "of {span} among {items:?}");
}

#[test]
fn divides_to_the_grain(rt: HostRuntime) {
    let by_weight = [item(0, 10, 1), item(0, 10, 2), item(0, 10, 4)];
    expect_shares(&rt, 10, &by_weight, &[1, 3, 6]);
    expect_shares(&rt, 9, &by_weight, &[1, 3, 5]);
    let limited = [item(10, 20, 1000), item(0, 100, 1000), item(50, 100, 1000)];
    expect_shares(&rt, 100, &limited, &[20, 30, 50]);
    expect_shares(
        &rt,
        100,
        &[item(0, 20, 1), item(0, 30, 1), item(5, 90, 0)],
        &[20, 30, 5],
    );
    expect_shares(&rt, 0, &[], &[]);

    // partitions, each with its padding, in a blank disk of 64 MiB
    let padding = item(0, 1 << 52, 0);
    let (normal, heavy, small) = (
        item(2560, 1 << 52, 1000),
        item(2560, 1 << 52, 2000),
        item(2560, 5120, 1000),
    );
    expect_shares(
        &rt,
        16_123,
        &[normal, padding, heavy, padding],
        &[5374, 0, 10_749, 0],
    );
    expect_shares(
        &rt,
        16_123,
        &[normal, padding, normal, padding],
        &[8062, 0, 8061, 0],
    );
    expect_shares(
        &rt,
        16_123,
        &[small, padding, normal, padding],
        &[5120, 0, 11_003, 0],
    );
}

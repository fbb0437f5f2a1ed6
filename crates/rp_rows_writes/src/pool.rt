ghost use Rattle.std.specs.Prelude.{◌≡◌, ◌≤◌, Some};
ghost use Rattle.rp_pool.specs.Region.{IsLent, lent};

use rp_pool::{Lease, Pool};
use std::process::Abort;

/// Lends a run, and finds it at this block.
fn expect_at(rt: &impl Abort, pool: &mut Pool, blocks: usize, first: usize) -> Lease
    requires { 1 ≤ blocks }
    ensures region { pool.new ≡ lent pool.old (Some result) }
    ensures out { IsLent pool.old pool.new blocks result }
    ensures first { result.first ≡ first }
{
    match pool.lease(blocks) {
        Some(lease) => {
            assert_eq!(rt; lease.first(), first);
            lease
        }
        None => panic!(rt; "no run of {blocks}"),
    }
}

/// Finds no run of so many blocks.
fn expect_none(rt: &impl Abort, pool: &mut Pool, blocks: usize)
    requires { 1 ≤ blocks }
    ensures { pool.new ≡ pool.old }
{
    if let Some(lease) = pool.lease(blocks) {
        pool.give_back(lease);
        panic!(rt; "a run of {blocks}");
    }
}

#[test]
fn lends_the_first_run_that_fits(rt: HostRuntime) {
    let mut pool = Pool::new(rt.alloc(), 8).expect(&rt, "8 blocks");
    let a = expect_at(&rt, &mut pool, 4, 0);
    let b = expect_at(&rt, &mut pool, 4, 4);
    expect_none(&rt, &mut pool, 1);
    assert_eq!(rt; pool.free(), 0);
    pool.give_back(a);
    assert_eq!(rt; pool.free(), 4);
    let c = expect_at(&rt, &mut pool, 3, 0);
    let d = expect_at(&rt, &mut pool, 1, 3);
    expect_none(&rt, &mut pool, 1);
    pool.give_back(b);
    pool.give_back(c);
    pool.give_back(d);
}

#[test]
fn writes_to_one_run_alone(rt: HostRuntime) {
    let mut pool = Pool::new(rt.alloc(), 2).expect(&rt, "2 blocks");
    let a = expect_at(&rt, &mut pool, 1, 0);
    let b = expect_at(&rt, &mut pool, 1, 1);
    pool.bytes_mut(&a).fill(7);
    assert_eq!(rt; pool.bytes(&a), [7; 4096].as_slice());
    assert_eq!(rt; pool.bytes(&b), [0; 4096].as_slice());
    pool.give_back(a);
    pool.give_back(b);
}

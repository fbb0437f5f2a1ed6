ghost use Rattle.std.specs.Prelude.{◌≡◌, ◌≢◌, ◌≤◌, IfOk, IfSome};
ghost use Rattle.std.specs.Borrow.{sem};
ghost use Rattle.std.specs.Option.{option_map};
ghost use Rattle.rp_pool.specs.Region.{AreDisjoint, IsLent, IsOut, IsRegion, NoneOut, Run, bytes_of, first_fit, free_blocks, given_back, lent, new_region};
ghost use Rattle.rp_pool.specs.Lending.{LendsRun};

use rp_base::Memory;
use std::alloc::Global;
use std::marker::Model;

/// Bytes of a block.
const BLOCK: usize = 4096;

/// Blocks in use, from which runs are lent. It may end only where no run is out.
pub struct Pool {
    bytes: Vec<u8>,
    // for each block how many blocks the run has that is out and begins there, else 0
    out: Vec<u16>,
}

/// A run that is out. It can be neither copied nor dropped, so it is given back.
pub struct Lease {
    first: usize,
    blocks: usize,
}

impl Model for Lease {
    ghost use Rattle.rp_pool.specs.Region.{Run};

    ghost Value = { Run };

    ghost view = { λ l. record { first = l.first; blocks = l.blocks } };
}

impl Model for Pool {
    ghost use Rattle.rp_pool.specs.Region.{IsRegion, Region};

    ghost Value = { Region };

    ghost view = { λ p. record { bytes = p.bytes.items; out = p.out.items } };

    ghost invariant = { λ p. IsRegion (record { bytes = p.bytes.items; out = p.out.items }) };
}

impl Drop for Pool {
    fn drop(self)
        requires { NoneOut self }
    {
        let Pool { bytes: _, out: _ } = self;
    }
}

impl Pool {
    /// So many blocks, at least 1 and at most 4,096, all zero and free.
    pub fn new(alloc: Global, blocks: usize) -> Result<Pool, Memory>
        requires some { 1 ≤ blocks }
        requires few { blocks ≤ 4096 }
        ensures { IfOk result (λ pool. pool ≡ new_region blocks) }
    {
        let bytes = vec![in alloc; 0; blocks * BLOCK]?;
        let out = vec![in alloc; 0; blocks]?;
        Ok(Pool { bytes, out })
    }

    /// The first run of so many free blocks, which is then out. `None` exactly where there is no such run.
    pub fn lease(&mut self, blocks: usize) -> Option<Lease>
        requires { 1 ≤ blocks }
        ensures run { result ≡ first_fit self.old.out blocks }
        ensures region { self.new ≡ lent self.old result }
        ensures out { IfSome result (λ run. IsLent self.old self.new blocks run) }
        ensures sound { IsRegion self.new }
    {
        let first = first_fit(&self.out, blocks)?;
        self.out[first] = blocks as u16;
        Some(Lease { first, blocks })
    }

    /// The bytes of a run that is out.
    pub fn bytes(&self, lease: &Lease) -> &[u8]
        requires { IsOut self.now lease.now }
        ensures { result.now ≡ bytes_of self.now lease.now }
    {
        &self.bytes[BLOCK * lease.first..BLOCK * (lease.first + lease.blocks)]
    }

    /// Lends the bytes of a run that is out for writing. No other bytes change.
    pub fn bytes_mut(&mut self, lease: &Lease) -> &mut [u8]
        requires { IsOut self.old lease.now }
        ensures* writes_back { sem 𝓛 (LendsRun self.entry lease.now result) }
        ensures value { result.now ≡ bytes_of self.old lease.now }
    {
        let bytes = &mut self.bytes;
        bytes.slice_mut(BLOCK * lease.first..BLOCK * (lease.first + lease.blocks))
    }

    /// Ends a lease: the blocks of its run are free.
    pub fn give_back(&mut self, lease: Lease)
        requires { IsOut self.old lease }
        ensures region { self.new ≡ given_back self.old lease }
        ensures others { (other : Run) → IsOut self.old other → other.first ≢ lease.first → IsOut self.new other }
        ensures sound { IsRegion self.new }
    {
        let Lease { first, blocks: _ } = lease;
        self.out[first] = 0;
    }

    /// How many blocks are in no run that is out.
    pub fn free(&self) -> usize
        ensures count { result ≡ free_blocks self.now.out }
        ensures sound { IsRegion self.now }
    {
        let mut free = 0;
        let mut block = 0;
        while block < self.out.len() {
            let lent = usize::from(self.out[block]);
            if lent == 0 {
                free += 1;
                block += 1;
            } else {
                block += lent;
            }
        }
        free
    }
}

impl Lease {
    /// The number of the run's first block.
    pub fn first(&self) -> usize
        ensures { result ≡ self.now.first }
    {
        self.first
    }
}

// The first block of the first run of so many free blocks.
fn first_fit(out: &[u16], blocks: usize) -> Option<usize>
    requires some { 1 ≤ blocks }
    requires disjoint { AreDisjoint out.now }
    ensures { option_map (λ first. record { first = first; blocks = blocks }) result ≡ first_fit out.now blocks }
{
    let mut from = 0;
    let mut block = 0;
    while block < out.len() {
        let lent = usize::from(out[block]);
        if lent == 0 {
            block += 1;
            if block - from == blocks {
                return Some(from);
            }
        } else {
            block += lent;
            from = block;
        }
    }
    None
}

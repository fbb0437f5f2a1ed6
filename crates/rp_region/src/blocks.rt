ghost use Rattle.std.specs.Prelude.{◌≡◌, ◌≤◌, ◌^◌, IfOk, IsSome, Some, length, take};
ghost use Rattle.rp_base.specs.Geometry.{copy_bytes as copy_bytes_of, least_sectors};
ghost use Rattle.rp_base.specs.Table.{IsWritable};
ghost use Rattle.rp_gpt.specs.Copy.{exact};
ghost use Rattle.rp_pool.specs.Region.{IsRegion, first_fit, lent};
ghost use Rattle.rp_region.specs.Region.{HoldsCopies, IsLeased};

use rp_base::{Memory, Table, Which, copy_bytes};
use rp_gpt::encode_copy;
use rp_pool::{Lease, Pool};
use std::alloc::Global;

/// Blocks of a copy, of a piece of a source, and of the levels of a tree with a data block.
const COPY: usize = 33;

const PIECE: usize = 64;

const LEVELS: usize = 6;

/// A region of 136 blocks, all of which are lent.
pub struct Blocks {
    pub pool: Pool,
    pub primary: Lease,
    pub backup: Lease,
    pub piece: Lease,
    pub levels: Lease,
}

impl Drop for Blocks {
    ghost use Rattle.rp_region.specs.Region.{IsLeased};

    fn drop(self)
        requires { IsLeased self }
    {
        let Blocks {
            mut pool,
            primary,
            backup,
            piece,
            levels,
        } = self;
        pool.give_back(primary);
        pool.give_back(backup);
        pool.give_back(piece);
        pool.give_back(levels);
    }
}

/// Takes all blocks, and lends them for what they are.
pub fn new_blocks(alloc: Global) -> Result<Blocks, Memory>
    ensures { IfOk result IsLeased }
{
    let mut pool = Pool::new(alloc, COPY + COPY + PIECE + LEVELS)?;
    let primary = lease(&mut pool, COPY);
    let backup = lease(&mut pool, COPY);
    let piece = lease(&mut pool, PIECE);
    let levels = lease(&mut pool, LEVELS);
    Ok(Blocks {
        pool,
        primary,
        backup,
        piece,
        levels,
    })
}

// The first run of so many blocks, of which there is one.
fn lease(pool: &mut Pool, blocks: usize) -> Lease
    requires some { 1 ≤ blocks }
    requires free { IsSome (first_fit pool.old.out blocks) }
    ensures run { first_fit pool.old.out blocks ≡ Some result }
    ensures region { pool.new ≡ lent pool.old (Some result) }
    ensures sound { IsRegion pool.new }
{
    match pool.lease(blocks) {
        Some(run) => run,
        None => unreachable!(),
    }
}

/// Writes both exact copies of a table, for a disk of so many sectors, into their runs.
pub fn write_copies(blocks: &mut Blocks, table: &Table, sectors: u64)
    requires leased { IsLeased blocks.old }
    requires writable { IsWritable table.now }
    requires room { least_sectors table.now.sector table.now.entries ≤ sectors }
    requires most { sectors ≤ 2 ^ 35 }
    ensures leased { IsLeased blocks.new }
    ensures copies { HoldsCopies table.now sectors blocks.new.pool }
{
    let primary = blocks.pool.bytes_mut(&blocks.primary);
    write_copy(table, Which::Primary, sectors, primary);
    let backup = blocks.pool.bytes_mut(&blocks.backup);
    write_copy(table, Which::Backup, sectors, backup);
}

// Writes the exact copy of a table into the first bytes of a run.
fn write_copy(table: &Table, which: Which, sectors: u64, run: &mut [u8])
    requires run { length run.old ≡ 135168 }
    requires writable { IsWritable table.now }
    requires room { least_sectors table.now.sector table.now.entries ≤ sectors }
    requires most { sectors ≤ 2 ^ 35 }
    ensures { take (copy_bytes_of table.now.entries table.now.sector) run.new ≡ exact table.now which sectors }
{
    let (copy, _) = run.split_at_mut(copy_bytes(table.entries, table.sector));
    encode_copy(table, which, sectors, copy);
}

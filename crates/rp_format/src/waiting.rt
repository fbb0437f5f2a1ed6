//! Hash blocks that are full, until they are written.

ghost use Rattle.std.specs.Prelude.{Option, ◌≡◌, ◌+◌, ◌*◌, ◌-◌, ◌^◌, ◌≤◌, [], length, Some, IfSome, OnOk};
ghost use Rattle.rp_base.specs.Faults.{HasCause};
ghost use Rattle.rp_disk.specs.Device.{Earlier, IsPossible, missed_by};
ghost use Rattle.rp_disk.specs.History.{held};
ghost use Rattle.rp_disk.specs.Made.{Past, history_told};
ghost use Rattle.rp_disk.specs.Runs.{Runs};
ghost use Rattle.rp_format.specs.Puts.{EndBy, kept_puts, writes_of};

use rp_base::Failed;
use rp_disk::Disk;
use rp_verity::{BLOCK, TreeOut};

/// How many blocks are kept: one more than a data block fills, so that none is refused.
const MOST: usize = 6;

/// Bytes of these blocks.
const ROOM: usize = 24576;

/// Hash blocks with their places behind the superblock's block.
#[derive(Drop)]
pub(crate) struct Waiting {
    count: usize,
    places: [u64; MOST],
    blocks: [u8; ROOM],
    // how many were refused
    faults: u64,
    ghost few: { count ≤ 6 },
    ghost full: { 1 ≤ faults → 6 ≤ count },
}

impl Waiting {
    ghost use Rattle.rp_format.specs.Waiting.{IsEmpty, puts_of};

    pub(crate) fn new() -> Waiting
        ensures { IsEmpty result }
    {
        Waiting {
            count: 0,
            places: [0; MOST],
            blocks: [0; ROOM],
            faults: 0,
        }
    }

    /// Writes each block to its place behind the superblock's block, which begins at a byte.
    pub(crate) fn write_to<D: Disk>(&self, disk: &mut D, hash_at: u64) -> Result<(), Failed>
        requires ends { EndBy hash_at (2 ^ 64 - 1) (puts_of self.now) }
        ensures earlier { Earlier (D.device disk.old) (D.device disk.new) }
        ensures ran { Runs (D.device disk.old).calls (writes_of hash_at (puts_of self.now)) (D.device disk.new).calls result }
        ensures strays { (o : Option Past) → IsPossible o (D.device disk.new) → IfSome (history_told o (D.device disk.old).calls)
            (λ h. EndBy hash_at (length (held h)) (puts_of self.now)
            → missed_by o (D.device disk.new).answers ≡ missed_by o (D.device disk.old).answers) }
        ensures cause { HasCause (D.device disk.old).faults (D.device disk.new).faults result }
    {
        for k in 0..self.count {
            let place = hash_at + BLOCK as u64 * (1 + self.places[k]);
            let at = BLOCK * k;
            disk.write(place, &self.blocks[at..at + BLOCK])?;
        }
        Ok(())
    }

    /// Keeps none of them any longer.
    pub(crate) fn clear(&mut self)
        ensures { IsEmpty self.new }
    {
        self.faults = 0;
        self.count = 0;
    }
}

impl TreeOut for Waiting {
    ghost told = { λ waiting. Some (kept_puts waiting.count waiting.places waiting.blocks) };

    ghost faults = { λ waiting. waiting.faults };

    fn faults(&self) -> u64 {
        self.faults
    }

    fn put(&mut self, index: u64, block: &[u8]) -> Result<(), Failed> {
        if self.count == MOST {
            self.faults = self.faults.saturating_add(1);
            return Err(Failed);
        }
        let at = BLOCK * self.count;
        self.places[self.count] = index;
        self.blocks[at..at + BLOCK].copy_from_slice(block);
        self.count += 1;
        Ok(())
    }
}

//! The steps that write into new rows, each with its room.

ghost use Rattle.std.specs.Prelude.{Option, ◌≡◌, ◌+◌, ◌^◌, ◌<◌, ◌≤◌, ℕ, List, IfSome, OnOk, false, length, replicate};
ghost use Rattle.rp_base.specs.Faults.{HasCause};
ghost use Rattle.rp_disk.specs.Device.{Earlier, IsPossible, StaysInsideWhere, missed_by};
ghost use Rattle.rp_disk.specs.History.{held};
ghost use Rattle.rp_disk.specs.Made.{Past, history_told};
ghost use Rattle.rp_disk.specs.Runs.{Runs};
ghost use Rattle.rp_fill.specs.Causes.{HasDiskCause, HasSourceCause};
ghost use Rattle.rp_fill.specs.Copied.{IsCopyOf};
ghost use Rattle.rp_format.specs.Written.{IsTreePlan, LieIn, WritesTree};
ghost use Rattle.rp_io.specs.Files.{content, passes};
ghost use Rattle.rp_region.specs.Region.{IsLeased};
ghost use Rattle.rp_steps.specs.Calls.{in_pieces};
ghost use Rattle.rp_step.specs.Stocked.{KeepsCopies};

use rp_base::Failed;
use rp_disk::Disk;
use rp_fill::{FillFault, copy_source, write_zeros};
use rp_format::{TreePlan, write_tree};
use rp_io::Sources;
use rp_region::Blocks;

// Writes so many zeros.
pub fn zero<D: Disk>(disk: &mut D, blocks: &mut Blocks, at: u64, len: u64) -> Result<(), Failed>
    requires end { at + len < 2 ^ 64 }
    requires leased { IsLeased blocks.old }
    ensures kept { KeepsCopies blocks.old blocks.new }
    ensures earlier { Earlier (D.device disk.old) (D.device disk.new) }
    ensures ran { Runs (D.device disk.old).calls (in_pieces at (replicate len 0)) (D.device disk.new).calls result }
    ensures inside { StaysInsideWhere (D.device disk.old) (D.device disk.new) (λ h. at + len ≤ length (held h)) }
    ensures cause { HasCause (D.device disk.old).faults (D.device disk.new).faults result }
{
    let room = blocks.pool.bytes_mut(&blocks.piece);
    write_zeros(disk, at, len, room)
}

// Writes the first so many bytes of a source.
pub fn copy<D: Disk, S: Sources>(
    disk: &mut D,
    sources: &mut S,
    path: &str,
    blocks: &mut Blocks,
    at: u64,
    len: u64,
) -> Result<(), FillFault>
    requires end { at + len < 2 ^ 64 }
    requires leased { IsLeased blocks.old }
    ensures kept { KeepsCopies blocks.old blocks.new }
    ensures earlier { Earlier (D.device disk.old) (D.device disk.new) }
    ensures told { S.told sources.new ≡ S.told sources.old }
    ensures ran { (bytes : List ℕ) × IsCopyOf (S.told sources.old) path.now len bytes
        × Runs (D.device disk.old).calls (in_pieces at bytes) (D.device disk.new).calls result }
    ensures disk_inside { StaysInsideWhere (D.device disk.old) (D.device disk.new) (λ h. at + len ≤ length (held h)) }
    ensures source_strays { IfSome (S.told sources.old) (λ files. passes (content files path.now) len ≡ false
        → S.strays sources.new ≡ S.strays sources.old) }
    ensures disk_cause { HasDiskCause (D.device disk.old).faults (D.device disk.new).faults result }
    ensures source_cause { HasSourceCause (S.faults sources.old) (S.faults sources.new) result }
{
    let room = blocks.pool.bytes_mut(&blocks.piece);
    copy_source(disk, sources, path, at, len, room)
}

// Writes the hash tree over a row. The answer is a root hash that isn't the planned one.
pub fn tree<D: Disk>(
    disk: &mut D,
    blocks: &mut Blocks,
    tree: &TreePlan,
) -> Result<Option<[u8; 32]>, Failed>
    requires plan { IsTreePlan tree.now }
    requires leased { IsLeased blocks.old }
    ensures kept { KeepsCopies blocks.old blocks.new }
    ensures earlier { Earlier (D.device disk.old) (D.device disk.new) }
    ensures written { (o : Option Past) → IsPossible o (D.device disk.new)
        → WritesTree tree.now o (D.device disk.old).calls (D.device disk.new).calls result }
    ensures strays { (o : Option Past) → IsPossible o (D.device disk.new)
        → IfSome (history_told o (D.device disk.old).calls) (λ h. LieIn tree.now (length (held h))
        → missed_by o (D.device disk.new).answers ≡ missed_by o (D.device disk.old).answers) }
    ensures cause { HasCause (D.device disk.old).faults (D.device disk.new).faults result }
{
    let room = blocks.pool.bytes_mut(&blocks.levels);
    write_tree(disk, tree, room)
}

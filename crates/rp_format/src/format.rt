//! Writing a tree block by block.

ghost use Rattle.std.specs.Prelude.{Option, ◌≡◌, ◌+◌, ◌*◌, ◌<◌, ◌≤◌, ◌++◌, ℕ, List, IfSome, IfOk, OnOk, OnErr, length, map};
ghost use Rattle.rp_base.specs.Faults.{HasCause};
ghost use Rattle.rp_base.specs.Image.{bytes_at};
ghost use Rattle.rp_base.specs.Trees.{levels};
ghost use Rattle.rp_disk.specs.Device.{Earlier, IsPossible, Known, missed_by};
ghost use Rattle.rp_disk.specs.History.{held};
ghost use Rattle.rp_disk.specs.Made.{Past, dones, history_told};
ghost use Rattle.rp_disk.specs.Runs.{MadeFirst};
ghost use Rattle.rp_verity.specs.Builder.{HasTaken};
ghost use Rattle.rp_verity.specs.Filled.{cut};
ghost use Rattle.rp_verity.specs.Tree.{digest as digest_of, root_hash};
ghost use Rattle.rp_format.specs.Puts.{writes_of};
ghost use Rattle.rp_format.specs.Taking.{IsAt, TakesBlock, WritesAll, left_puts};
ghost use Rattle.rp_format.specs.Waiting.{IsEmpty};
ghost use Rattle.rp_format.specs.Written.{IsTreePlan, LieIn, WritesTree, data_end};

use crate::TreePlan;
use crate::waiting::Waiting;
use rp_base::Failed;
use rp_disk::Disk;
use rp_lanes::digest_blocks;
use rp_verity::{BLOCK, Builder, DIGEST, write_superblock};

/// Data blocks that are read and hashed at once.
const RUN: usize = 4;

/// Reads the data blocks, writes each hash block behind the superblock's block as it becomes full, and then the
/// superblock, if the root hash is the planned one; the answer is a root hash that is another. The room has a block of
/// 4,096 bytes for each level and one more. It takes no memory.
#[tactic(auto, using(rp_disk::proofs::Noting::earlier_then))]
pub fn write_tree<D: Disk>(
    disk: &mut D,
    tree: &TreePlan,
    room: &mut [u8],
) -> Result<Option<[u8; 32]>, Failed>
    requires plan { IsTreePlan tree.now }
    requires room { 4096 * (levels tree.now.blocks + 1) ≤ length room.old }
    ensures earlier { Earlier (D.device disk.old) (D.device disk.new) }
    ensures written { (o : Option Past) → IsPossible o (D.device disk.new)
        → WritesTree tree.now o (D.device disk.old).calls (D.device disk.new).calls result }
    ensures range { (o : Option Past) → IsPossible o (D.device disk.new)
        → IfSome (history_told o (D.device disk.old).calls) (λ h. OnOk result (data_end tree.now ≤ length (held h))) }
    ensures strays { (o : Option Past) → IsPossible o (D.device disk.new)
        → IfSome (history_told o (D.device disk.old).calls) (λ h. LieIn tree.now (length (held h))
        → missed_by o (D.device disk.new).answers ≡ missed_by o (D.device disk.old).answers) }
    ensures cause { HasCause (D.device disk.old).faults (D.device disk.new).faults result }
{
    let root = write_hashes(disk, tree, room)?;
    if root != tree.root {
        return Ok(Some(root));
    }
    let (block, _) = room.split_at_mut(BLOCK);
    write_superblock(tree.uuid, tree.blocks, &tree.salt, block);
    disk.write(tree.hash_at, block)?;
    Ok(None)
}

// Reads the data blocks, some at once, and writes the hash blocks. The answer is the root hash.
#[tactic(auto, using(rp_disk::proofs::Noting::earlier_then))]
fn write_hashes<D: Disk>(disk: &mut D, tree: &TreePlan, room: &mut [u8]) -> Result<[u8; 32], Failed>
    requires plan { IsTreePlan tree.now }
    requires room { 4096 * (levels tree.now.blocks + 1) ≤ length room.old }
    ensures earlier { Earlier (D.device disk.old) (D.device disk.new) }
    ensures written { (o : Option Past) → IsPossible o (D.device disk.new)
        → WritesAll tree.now o (D.device disk.old).calls (D.device disk.new).calls result }
    ensures range { (o : Option Past) → IsPossible o (D.device disk.new)
        → IfSome (history_told o (D.device disk.old).calls) (λ h. OnOk result (data_end tree.now ≤ length (held h))) }
    ensures strays { (o : Option Past) → IsPossible o (D.device disk.new)
        → IfSome (history_told o (D.device disk.old).calls) (λ h. LieIn tree.now (length (held h))
        → missed_by o (D.device disk.new).answers ≡ missed_by o (D.device disk.old).answers) }
    ensures cause { HasCause (D.device disk.old).faults (D.device disk.new).faults result }
{
    let mut waiting = Waiting::new();
    let mut builder = Builder::new(tree.blocks, &tree.salt, room);
    let mut buffer = [0; RUN * BLOCK];
    let mut hashed = [[0; DIGEST]; RUN];
    'runs: for turn in 0..(tree.blocks + (RUN as u64 - 1)) / RUN as u64 {
        let k = RUN as u64 * turn;
        let count = (tree.blocks - k).min(RUN as u64) as usize;
        let run = &mut buffer[..BLOCK * count];
        let digests = &mut hashed[..count];
        read_run(disk, tree, k, run, digests)?;
        'each: for i in 0..count {
            take_block(
                disk,
                tree,
                k + i as u64,
                digests[i],
                &mut builder,
                &mut waiting,
            )?;
        }
    }
    finish(disk, tree, builder, &mut waiting)
}

// Reads data blocks, from that of this number on, and hashes each.
fn read_run<D: Disk>(
    disk: &mut D,
    tree: &TreePlan,
    k: u64,
    run: &mut [u8],
    digests: &mut [[u8; DIGEST]],
) -> Result<(), Failed>
    requires plan { IsTreePlan tree.now }
    requires more { k + length digests.old ≤ tree.now.blocks }
    requires run { length run.old ≡ 4096 * length digests.old }
    ensures earlier { Earlier (D.device disk.old) (D.device disk.new) }
    ensures calls { (D.device disk.new).calls ≡ (D.device disk.old).calls }
    ensures range { Known (D.device disk.old) (D.device disk.new) (λ h.
        OnOk result (tree.now.data_at + 4096 * k + length run.old ≤ length (held h))) }
    ensures bytes { Known (D.device disk.old) (D.device disk.new) (λ h.
        OnOk result (run.new ≡ bytes_at (held h) (tree.now.data_at + 4096 * k) (length run.old))) }
    ensures digests { OnOk result (digests.new ≡ map (digest_of tree.now.salt) (cut (length digests.old) run.new)) }
    ensures strays { (o : Option Past) → IsPossible o (D.device disk.new)
        → IfSome (history_told o (D.device disk.old).calls) (λ h. LieIn tree.now (length (held h))
        → missed_by o (D.device disk.new).answers ≡ missed_by o (D.device disk.old).answers) }
    ensures cause { HasCause (D.device disk.old).faults (D.device disk.new).faults result }
{
    disk.read(tree.data_at + BLOCK as u64 * k, run)?;
    digest_blocks(&tree.salt, run, BLOCK, digests);
    Ok(())
}

// Takes the data block of this number by its digest, and writes the hash blocks that are full with it.
fn take_block<D: Disk>(
    disk: &mut D,
    tree: &TreePlan,
    k: u64,
    digest: [u8; DIGEST],
    builder: &mut Builder<'_>,
    waiting: &mut Waiting,
) -> Result<(), Failed>
    requires plan { IsTreePlan tree.now }
    requires more { k < tree.now.blocks }
    requires builder { IsAt tree.now k builder.old }
    requires taken { (taken : List (List ℕ)) × HasTaken builder.old tree.now.salt taken }
    requires block { (block : List ℕ) × (digest ≡ digest_of tree.now.salt block) }
    requires waiting { IsEmpty waiting.old }
    ensures builder { OnOk result (IsAt tree.now (k + 1) builder.new) }
    ensures waiting { OnOk result (IsEmpty waiting.new) }
    ensures earlier { Earlier (D.device disk.old) (D.device disk.new) }
    ensures takes { (block : List ℕ) → digest ≡ digest_of tree.now.salt block
        → TakesBlock tree.now k builder.old builder.new (D.device disk.old).calls (D.device disk.new).calls block result }
    ensures strays { (o : Option Past) → IsPossible o (D.device disk.new)
        → IfSome (history_told o (D.device disk.old).calls) (λ h. LieIn tree.now (length (held h))
        → missed_by o (D.device disk.new).answers ≡ missed_by o (D.device disk.old).answers) }
    ensures cause { HasCause (D.device disk.old).faults (D.device disk.new).faults result }
{
    builder.push_digest(digest, waiting)?;
    waiting.write_to(disk, tree.hash_at)?;
    waiting.clear();
    Ok(())
}

// Writes the hash blocks that aren't full, when all data blocks were taken. The answer is the root hash.
fn finish<D: Disk>(
    disk: &mut D,
    tree: &TreePlan,
    builder: Builder<'_>,
    waiting: &mut Waiting,
) -> Result<[u8; 32], Failed>
    requires plan { IsTreePlan tree.now }
    requires builder { IsAt tree.now tree.now.blocks builder }
    requires taken { (taken : List (List ℕ)) × HasTaken builder tree.now.salt taken }
    requires waiting { IsEmpty waiting.old }
    ensures earlier { Earlier (D.device disk.old) (D.device disk.new) }
    ensures done { (taken : List (List ℕ)) → HasTaken builder.entry tree.now.salt taken
        → OnOk result ((D.device disk.new).calls ≡ (D.device disk.old).calls ++ dones (writes_of tree.now.hash_at (left_puts tree.now taken))) }
    ensures root { (taken : List (List ℕ)) → HasTaken builder.entry tree.now.salt taken
        → IfOk result (λ root. root ≡ root_hash tree.now.salt taken) }
    ensures failed { (taken : List (List ℕ)) → HasTaken builder.entry tree.now.salt taken
        → OnErr result (MadeFirst (D.device disk.old).calls (writes_of tree.now.hash_at (left_puts tree.now taken)) (D.device disk.new).calls) }
    ensures strays { (o : Option Past) → IsPossible o (D.device disk.new)
        → IfSome (history_told o (D.device disk.old).calls) (λ h. LieIn tree.now (length (held h))
        → missed_by o (D.device disk.new).answers ≡ missed_by o (D.device disk.old).answers) }
    ensures cause { HasCause (D.device disk.old).faults (D.device disk.new).faults result }
{
    let root = builder.finish(waiting)?;
    waiting.write_to(disk, tree.hash_at)?;
    Ok(root)
}

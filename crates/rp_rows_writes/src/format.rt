ghost use Rattle.std.specs.Prelude.{◌≡◌, ◌*◌, ◌≤◌};
ghost use Rattle.rp_base.specs.Trees as trees;
ghost use Rattle.rp_format.specs.Written.{IsTreePlan};

use rp_base::{Failed, Guid, List, Row};
use rp_disk::MemDisk;
use rp_format::{TreePlan, write_tree};
use rp_tree::check_all;
use rp_verity::{hash_blocks, levels};
use std::test::Fail;

// The root hash of 129 blocks of zeros, as another program has it, in two halves.
const FRONT: &str = "f82df898b7ef6dfcc6ff7298e647a3cd";

const BACK: &str = "dfad64a836ac4b2a30e5bfc2c90764f8";

const BLOCK: u64 = 4096;

// The tree over 129 blocks, behind these.
fn plan(root: [u8; 32]) -> TreePlan
    ensures plan { IsTreePlan result }
    ensures levels { trees.levels result.blocks ≤ 5 }
{
    let _count = hash_blocks(129);
    let _levels = levels(129);
    TreePlan {
        data_at: 0,
        hash_at: 129 * BLOCK,
        blocks: 129,
        salt: [0x11; 32],
        uuid: Guid([7; 16]),
        root,
    }
}

// A row of blocks.
fn row(start: u64, blocks: u64, id: Guid) -> Row
    requires { blocks ≤ 129 }
    ensures start { result.start ≡ start }
    ensures size { result.size ≡ 8 * blocks }
{
    Row {
        slot: 0,
        kind: Guid([1; 16]),
        id,
        start,
        size: 8 * blocks,
        attrs: 0,
        name: [0; 36],
    }
}

// Writes the tree where this root hash is planned.
fn written(disk: &mut MemDisk, root: [u8; 32]) -> Result<Option<[u8; 32]>, Failed> {
    let mut room = [0; 24576];
    write_tree(disk, &plan(root), &mut room)
}

// Whether the tree that was written is right, as another crate judges it.
fn is_right(disk: &mut MemDisk, front: [u8; 16], back: [u8; 16]) -> Result<bool, Failed> {
    let mut room = [0; 24576];
    let payload = row(0, 129, Guid(front));
    let hash = row(1032, 4, Guid(back));
    Ok(check_all(disk, &payload, &hash, &mut room)?.is_none())
}

#[test]
fn tree_of_zeros(rt: HostRuntime) -> Result<(), Fail> {
    let mut front = [0; 16];
    hex::decode_to_slice(FRONT, &mut front)?;
    let mut back = [0; 16];
    hex::decode_to_slice(BACK, &mut back)?;
    let mut root = [0; 32];
    root[..16].copy_from_slice(&front);
    root[16..].copy_from_slice(&back);
    let bytes = List::from_vec(vec![in rt.alloc(); 0u8; 133 * 4096]?);
    let mut disk = MemDisk::new(rt.alloc(), bytes, List::new(rt.alloc()));
    // another root hash is planned
    assert!(rt; written(&mut disk, [9; 32])? == Some(root));
    assert_eq!(rt; disk.writes(), 3);
    // this one is
    assert!(rt; written(&mut disk, root)?.is_none());
    assert_eq!(rt; disk.writes(), 7);
    assert!(rt; is_right(&mut disk, front, back)?);
    Ok(())
}

// The second hash block can't be written: 32 reads of data come before the first, and one more before it.
#[test]
fn failed_write(rt: HostRuntime) -> Result<(), Fail> {
    let bytes = List::from_vec(vec![in rt.alloc(); 0u8; 133 * 4096]?);
    let mut fail = List::new(rt.alloc());
    fail.push(35)?;
    let mut disk = MemDisk::new(rt.alloc(), bytes, fail);
    assert!(rt; written(&mut disk, [9; 32]).is_err());
    assert_eq!(rt; disk.writes(), 2);
    Ok(())
}

//! The calls that check a tree.

ghost use Rattle.std.specs.Prelude.{◌≡◌, ◌+◌, ◌-◌, ◌*◌, ◌^◌, ◌≢◌, ◌≤◌, ◌++◌, Some, None, IfSome, IfOk, MatchOption, OnOk, drop, length, option_map, take, if◌then◌else◌};
ghost use Rattle.std.specs.Option.{option_or};
ghost use Rattle.rp_base.specs.Faults.{HasCause};
ghost use Rattle.rp_base.specs.Trees.{levels as levels_of};
ghost use Rattle.rp_disk.specs.Device.{Earlier, Known, StaysInsideWhere};
ghost use Rattle.rp_disk.specs.History.{held};
ghost use Rattle.rp_verity.specs.Superblock.{FitIn, salt_in, superblock_in};
ghost use Rattle.rp_tree.specs.Reads.{Reads, end_of, ends_of};
ghost use Rattle.rp_tree.specs.Checked.{bad_in, block_of, first_bad, has_root, is_rooted, superblock_of, salt_of, top_of, wrong_block};
ghost use Rattle.rp_tree.specs.Standing.{IsShape, IsTreeOf, salt_kept};

use crate::Bad;
use crate::level::{first_noted, next_block};
use crate::read::read_blocks;
use crate::right::is_right;
use crate::run::data_under;
use crate::tree::Tree;
use rp_base::{Failed, Row};
use rp_disk::Disk;
use rp_verity::{BLOCK, DIGEST, MOST_SALT, SALT, levels, read_superblock, runs};

/// The most levels of a tree.
const MOST_LEVELS: usize = 5;

/// Bytes of a room that is enough for every tree: a block for each level, and one for data.
pub const ROOM: usize = BLOCK * (MOST_LEVELS + 1);

/// Bytes of a room in which every tree has 8 blocks or more for data, which are read and hashed together.
pub const WIDE_ROOM: usize = 65536;

/// Whether the superblock of a hash row is right for it and its data row, and the digest of the topmost block, or of the
/// only data block, is the identifier of the data row with that of the hash row behind it. The room has 6 blocks. A row
/// that ends past the disk's end is met by a fault where it is read.
pub fn check_root<D: Disk>(
    disk: &mut D,
    payload: &Row,
    hash: &Row,
    room: &mut [u8],
) -> Result<bool, Failed>
    requires payload { 8 ≤ payload.now.size }
    requires payload_end { payload.now.start + payload.now.size ≤ 2 ^ 35 }
    requires hash { 8 ≤ hash.now.size }
    requires hash_end { hash.now.start + hash.now.size ≤ 2 ^ 35 }
    requires room { 24576 ≤ length room.old }
    ensures earlier { Earlier (D.device disk.old) (D.device disk.new) }
    ensures calls { (D.device disk.new).calls ≡ (D.device disk.old).calls }
    ensures inside { StaysInsideWhere (D.device disk.old) (D.device disk.new) (λ h. ends_of payload.now hash.now ≤ length (held h)) }
    ensures answer { Known (D.device disk.old) (D.device disk.new)
        (λ h. IfOk result (λ right. right ≡ has_root (held h) payload.now hash.now)) }
    ensures cause { HasCause (D.device disk.old).faults (D.device disk.new).faults result }
{
    let block = &mut room[..BLOCK];
    let Some(tree) = read_tree(disk, payload, hash, block)? else {
        return Ok(false);
    };
    is_rooted(disk, payload, hash, &tree, block)
}

/// What is wrong first of the tree in a hash row over its data row: the superblock, the digest of the top, then the hash
/// blocks and then the data blocks, each by place. Nothing exactly where all digests are right. Each block is read once.
/// The room has 6 blocks or more: those that the levels don't need are filled with data blocks at once. A row that ends
/// past the disk's end is met by a fault where it is read.
pub fn check_all<D: Disk>(
    disk: &mut D,
    payload: &Row,
    hash: &Row,
    room: &mut [u8],
) -> Result<Option<Bad>, Failed>
    requires payload { 8 ≤ payload.now.size }
    requires payload_end { payload.now.start + payload.now.size ≤ 2 ^ 35 }
    requires hash { 8 ≤ hash.now.size }
    requires hash_end { hash.now.start + hash.now.size ≤ 2 ^ 35 }
    requires room { 24576 ≤ length room.old }
    ensures earlier { Earlier (D.device disk.old) (D.device disk.new) }
    ensures calls { (D.device disk.new).calls ≡ (D.device disk.old).calls }
    ensures inside { StaysInsideWhere (D.device disk.old) (D.device disk.new) (λ h. ends_of payload.now hash.now ≤ length (held h)) }
    ensures answer { Known (D.device disk.old) (D.device disk.new)
        (λ h. IfOk result (λ bad. bad ≡ first_bad (held h) payload.now hash.now)) }
    ensures cause { HasCause (D.device disk.old).faults (D.device disk.new).faults result }
{
    let (block, _) = room.split_at_mut(BLOCK);
    let Some(tree) = read_tree(disk, payload, hash, block)? else {
        return Ok(Some(Bad::Superblock));
    };
    check_tree(disk, payload, hash, &tree, room)
}

// The tree that a hash row has for a data row, if its superblock is right.
fn read_tree<D: Disk>(
    disk: &mut D,
    payload: &Row,
    hash: &Row,
    block: &mut [u8],
) -> Result<Option<Tree>, Failed>
    requires hash { 8 ≤ hash.now.size }
    requires end { hash.now.start + hash.now.size ≤ 2 ^ 35 }
    requires block { length block.old ≡ 4096 }
    ensures reads { Reads (end_of hash.now) (D.device disk.old) (D.device disk.new) result }
    ensures tree { Known (D.device disk.old) (D.device disk.new) (λ h. IfOk result (λ found.
        MatchOption found (superblock_of (held h) payload.now hash.now ≡ None) (IsTreeOf (held h) payload.now hash.now))) }
    ensures fits { IfOk result (λ found. IfSome found (λ tree. FitIn tree.said.blocks payload.now hash.now)) }
{
    read_blocks(disk, hash, 0, block)?;
    Ok(tree_in(block, payload, hash))
}

// The tree of a superblock's block, if that is right.
fn tree_in(block: &[u8], payload: &Row, hash: &Row) -> Option<Tree>
    requires { length block.now ≡ 4096 }
    ensures tree { MatchOption result (superblock_in block.now payload.now hash.now ≡ None)
        (λ tree. (superblock_in block.now payload.now hash.now ≡ Some tree.said)
        × (salt_kept tree ≡ salt_in block.now tree.said.salt_size)) }
    ensures fits { IfSome result (λ tree. FitIn tree.said.blocks payload.now hash.now) }
{
    let said = read_superblock(block, payload, hash)?;
    let salt = salt_in(block, said.salt_size);
    Some(Tree { said, salt })
}

// The salt of this size in a superblock's block, with zeros behind it.
fn salt_in(block: &[u8], size: u16) -> [u8; MOST_SALT as usize]
    requires block { length block.now ≡ 4096 }
    requires size { size ≤ 256 }
    ensures { take size result ≡ salt_in block.now size }
{
    let size = size as usize;
    let mut salt = [0; MOST_SALT as usize];
    let (front, _) = salt.split_at_mut(size);
    front.copy_from_slice(&block[SALT..SALT + size]);
    salt
}

// Whether the root hash of a tree is the identifiers of its rows. The block whose digest it is is left in the room.
fn is_rooted<D: Disk>(
    disk: &mut D,
    payload: &Row,
    hash: &Row,
    tree: &Tree,
    block: &mut [u8],
) -> Result<bool, Failed>
    requires fits { FitIn tree.now.said.blocks payload.now hash.now }
    requires payload_end { payload.now.start + payload.now.size ≤ 2 ^ 35 }
    requires hash_end { hash.now.start + hash.now.size ≤ 2 ^ 35 }
    requires block { length block.old ≡ 4096 }
    ensures reads { Reads (ends_of payload.now hash.now) (D.device disk.old) (D.device disk.new) result }
    ensures block { Known (D.device disk.old) (D.device disk.new)
        (λ h. OnOk result (block.new ≡ top_of (held h) payload.now hash.now tree.now.said.blocks)) }
    ensures root { Known (D.device disk.old) (D.device disk.new) (λ h. IsTreeOf (held h) payload.now hash.now tree.now
        → IfOk result (λ right. right ≡ is_rooted (held h) payload.now hash.now tree.now.said)) }
{
    read_top(disk, payload, hash, tree.said.blocks, block)?;
    Ok(is_right(tree.salt(), block, &root_of(payload, hash), 0))
}

// Reads the topmost block, or the only data block.
fn read_top<D: Disk>(
    disk: &mut D,
    payload: &Row,
    hash: &Row,
    blocks: u64,
    block: &mut [u8],
) -> Result<(), Failed>
    requires fits { FitIn blocks payload.now hash.now }
    requires payload_end { payload.now.start + payload.now.size ≤ 2 ^ 35 }
    requires hash_end { hash.now.start + hash.now.size ≤ 2 ^ 35 }
    requires block { length block.old ≡ 4096 }
    ensures reads { Reads (ends_of payload.now hash.now) (D.device disk.old) (D.device disk.new) result }
    ensures block { Known (D.device disk.old) (D.device disk.new)
        (λ h. OnOk result (block.new ≡ top_of (held h) payload.now hash.now blocks)) }
{
    if blocks == 1 {
        read_blocks(disk, payload, 0, block)
    } else {
        read_blocks(disk, hash, 1, block)
    }
}

// The identifiers of the rows, as a root hash.
fn root_of(payload: &Row, hash: &Row) -> [u8; DIGEST]
    ensures value { result ≡ payload.now.id.0 ++ hash.now.id.0 }
    ensures len { length result ≡ 32 }
{
    let mut root = [0; DIGEST];
    let (front, back) = root.split_at_mut(DIGEST / 2);
    front.copy_from_slice(&payload.id.0);
    back.copy_from_slice(&hash.id.0);
    root
}

// What is wrong first of a tree whose superblock is right.
fn check_tree<D: Disk>(
    disk: &mut D,
    payload: &Row,
    hash: &Row,
    tree: &Tree,
    room: &mut [u8],
) -> Result<Option<Bad>, Failed>
    requires fits { FitIn tree.now.said.blocks payload.now hash.now }
    requires payload_end { payload.now.start + payload.now.size ≤ 2 ^ 35 }
    requires hash_end { hash.now.start + hash.now.size ≤ 2 ^ 35 }
    requires room { 24576 ≤ length room.old }
    ensures reads { Reads (ends_of payload.now hash.now) (D.device disk.old) (D.device disk.new) result }
    ensures bad { Known (D.device disk.old) (D.device disk.new) (λ h. IsTreeOf (held h) payload.now hash.now tree.now
        → IfOk result (λ bad. bad ≡ bad_in (held h) payload.now hash.now tree.now.said)) }
{
    if tree.said.blocks == 1 {
        let (block, _) = room.split_at_mut(BLOCK);
        let rooted = is_rooted(disk, payload, hash, tree, block)?;
        return Ok(top_bad(rooted));
    }
    let count = levels(tree.said.blocks);
    let (standing, buffer) = room.split_at_mut(BLOCK * count as usize);
    let rooted = top_stands(disk, payload, hash, tree, count, standing)?;
    if !rooted {
        return Ok(Some(Bad::Top));
    }
    check_blocks(disk, payload, hash, tree, count, standing, buffer)
}

// What is wrong of a tree without hash blocks.
fn top_bad(rooted: bool) -> Option<Bad>
    ensures { result ≡ (if rooted then None else Some Bad.Top) }
{
    if rooted { None } else { Some(Bad::Top) }
}

// Whether the root hash of a tree with hash blocks is right. Its topmost block is left in the last place of the room.
fn top_stands<D: Disk>(
    disk: &mut D,
    payload: &Row,
    hash: &Row,
    tree: &Tree,
    count: u32,
    standing: &mut [u8],
) -> Result<bool, Failed>
    requires fits { FitIn tree.now.said.blocks payload.now hash.now }
    requires more { tree.now.said.blocks ≢ 1 }
    requires payload_end { payload.now.start + payload.now.size ≤ 2 ^ 35 }
    requires hash_end { hash.now.start + hash.now.size ≤ 2 ^ 35 }
    requires count { 1 ≤ count }
    requires low { count ≤ 5 }
    requires standing { length standing.old ≡ 4096 * count }
    ensures reads { Reads (ends_of payload.now hash.now) (D.device disk.old) (D.device disk.new) result }
    ensures block { Known (D.device disk.old) (D.device disk.new)
        (λ h. OnOk result (drop (4096 * (count - 1)) standing.new ≡ block_of (held h) hash.now 1)) }
    ensures root { Known (D.device disk.old) (D.device disk.new) (λ h. IsTreeOf (held h) payload.now hash.now tree.now
        → IfOk result (λ right. right ≡ is_rooted (held h) payload.now hash.now tree.now.said)) }
{
    let at = BLOCK * (count as usize - 1);
    is_rooted(disk, payload, hash, tree, &mut standing[at..])
}

// What is wrong of the blocks of a tree whose topmost block stands in the last place of the room.
fn check_blocks<D: Disk>(
    disk: &mut D,
    payload: &Row,
    hash: &Row,
    tree: &Tree,
    count: u32,
    standing: &mut [u8],
    buffer: &mut [u8],
) -> Result<Option<Bad>, Failed>
    requires fits { FitIn tree.now.said.blocks payload.now hash.now }
    requires more { tree.now.said.blocks ≢ 1 }
    requires payload_end { payload.now.start + payload.now.size ≤ 2 ^ 35 }
    requires hash_end { hash.now.start + hash.now.size ≤ 2 ^ 35 }
    requires count { count ≡ levels_of tree.now.said.blocks }
    requires standing { length standing.old ≡ 4096 * count }
    requires buffer { 4096 ≤ length buffer.old }
    requires shape { IsShape hash.now count tree.now.said.blocks (length standing.old) 5 }
    ensures reads { Reads (ends_of payload.now hash.now) (D.device disk.old) (D.device disk.new) result }
    ensures bad { Known (D.device disk.old) (D.device disk.new) (λ h. IsTreeOf (held h) payload.now hash.now tree.now
        → drop (4096 * (count - 1)) standing.old ≡ block_of (held h) hash.now 1
        → IfOk result (λ bad. bad ≡ wrong_block (held h)
        (salt_of (held h) hash.now tree.now.said) payload.now hash.now tree.now.said.blocks)) }
{
    let blocks = tree.said.blocks;
    let salt = tree.salt();
    let mut notes = [None; MOST_LEVELS];
    let mut found = None;
    for index in 0..runs(blocks) {
        next_block(disk, hash, salt, count, blocks, index, standing, &mut notes)?;
        let (digests, _) = standing.split_at(BLOCK);
        let now = data_under(disk, payload, salt, blocks, index, found, digests, buffer)?;
        found = now;
    }
    Ok(block_bad(first_noted(count, &notes), found))
}

// What is wrong by the first wrong hash block and the first wrong data block.
fn block_bad(noted: Option<u64>, found: Option<u64>) -> Option<Bad>
    ensures { result ≡ option_or (option_map (λ block. Bad.Hash block) noted) (option_map (λ block. Bad.Data block) found) }
{
    match noted {
        Some(block) => Some(Bad::Hash { block }),
        None => found.map(|block| Bad::Data { block }),
    }
}

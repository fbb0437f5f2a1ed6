//! The hash blocks of a tree, one of each level at a time, the topmost one being there already.

ghost use Rattle.std.specs.Prelude.{◌≡◌, ◌+◌, ◌-◌, ◌*◌, ◌/◌, ◌%◌, ◌^◌, ◌<◌, ◌≤◌, ℕ, List, OnOk, drop, length};
ghost use Rattle.rp_base.specs.declared.table.Row.{Row as ARow};
ghost use Rattle.rp_disk.specs.Device.{Known};
ghost use Rattle.rp_disk.specs.History.{held};
ghost use Rattle.rp_verity.specs.Tree.{runs as runs_of};
ghost use Rattle.rp_verity.specs.Order.{blocks_over as blocks_of};
ghost use Rattle.rp_tree.specs.Reads.{Reads, end_of};
ghost use Rattle.rp_tree.specs.Checked.{wrong_hash};
ghost use Rattle.rp_tree.specs.Standing.{IsNoted, IsShape, Stands, noted};

use crate::read::read_blocks;
use crate::right::is_right;
use rp_base::{Failed, Row};
use rp_disk::Disk;
use rp_verity::{BLOCK, DIGEST, FAN, blocks_over, runs};

/// Reads the next block, which has this index, of the lowest of so many levels over so many digests, and first that of each
/// level above of which the next one is wanted. Notes of each level the first block that is wrong.
pub(crate) fn next_block<D: Disk>(
    disk: &mut D,
    hash: &Row,
    salt: &[u8],
    levels: u32,
    total: u64,
    index: u64,
    room: &mut [u8],
    notes: &mut [Option<u64>],
) -> Result<(), Failed>
    requires salt { length salt.now ≤ 256 }
    requires shape { IsShape hash.now levels total (length room.old) (length notes.old) }
    requires index { index < runs_of total }
    ensures reads { Reads (end_of hash.now) (D.device disk.old) (D.device disk.new) result }
    ensures stands { Known (D.device disk.old) (D.device disk.new) (λ h.
        Stands (held h) salt.now hash.now levels total index room.old notes.old
        → OnOk result (Stands (held h) salt.now hash.now levels total (index + 1) room.new notes.new)) }
{
    if levels == 1 {
        return Ok(());
    }
    if index % FAN != 0 {
        return own_block(disk, hash, salt, levels, total, index, room, notes);
    }
    let (_, above) = room.split_at_mut(BLOCK);
    let (_, higher) = notes.split_at_mut(1);
    next_block(
        disk,
        hash,
        salt,
        levels - 1,
        runs(total),
        index / FAN,
        above,
        higher,
    )?;
    own_block(disk, hash, salt, levels, total, index, room, notes)
}

// The same, where the block above it is there.
fn own_block<D: Disk>(
    disk: &mut D,
    hash: &Row,
    salt: &[u8],
    levels: u32,
    total: u64,
    index: u64,
    room: &mut [u8],
    notes: &mut [Option<u64>],
) -> Result<(), Failed>
    requires salt { length salt.now ≤ 256 }
    requires shape { IsShape hash.now levels total (length room.old) (length notes.old) }
    requires more { 2 ≤ levels }
    requires index { index < runs_of total }
    ensures reads { Reads (end_of hash.now) (D.device disk.old) (D.device disk.new) result }
    ensures stands { Known (D.device disk.old) (D.device disk.new) (λ h.
        IsNoted (held h) salt.now hash.now levels total index notes.old
        → Stands (held h) salt.now hash.now (levels - 1) (runs_of total) (index / 128 + 1) (drop 4096 room.old) (drop 1 notes.old)
        → OnOk result (Stands (held h) salt.now hash.now levels total (index + 1) room.new notes.new)) }
{
    let (block, above) = room.split_at_mut(BLOCK);
    let number = 1 + blocks_over(levels - 1, runs(total)) + index;
    read_blocks(disk, hash, number, block)?;
    let at = DIGEST * (index % FAN) as usize;
    note(notes, number, is_right(salt, block, above, at));
    Ok(())
}

// Notes a number as the first wrong one of the lowest level, where its block isn't right and none was noted.
fn note(notes: &mut [Option<u64>], number: u64, right: bool)
    requires { 1 ≤ length notes.old }
    ensures { notes.new ≡ noted notes.old number right }
{
    let first = &mut notes[0];
    if !right && first.is_none() {
        *first = Some(number);
    }
}

/// The first hash block that was noted of so many levels, the topmost level first, its one block left out.
pub(crate) fn first_noted(levels: u32, notes: &[Option<u64>]) -> Option<u64>
    requires { levels ≤ length notes.now }
    ensures { (image salt : List ℕ) (hash : ARow) (total : ℕ) (room : List ℕ)
        → Stands image salt hash levels total (runs_of total) room notes.now
        → result ≡ wrong_hash image salt hash levels total }
{
    if levels <= 1 {
        return None;
    }
    first_noted(levels - 1, &notes[1..]).or(notes[0])
}

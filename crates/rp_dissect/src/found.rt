//! What is read of a designator's row.

ghost use Rattle.std.specs.Prelude.{◌≡◌, ◌≤◌, ◌*◌, All, IfSome, IfOk, OnOk, length, map};
ghost use Rattle.rp_base.specs.Image.{bytes_at};
ghost use Rattle.rp_disk.specs.Device.{Known};
ghost use Rattle.rp_disk.specs.History.{held};
ghost use Rattle.rp_policy.specs.Reading.{designators};
ghost use Rattle.rp_tree.specs.Reads.{Reads, end_of};
ghost use Rattle.rp_dissect.specs.Kinds.{found_as, found_of, has_tree, is_luks, kinds_of};
ghost use Rattle.rp_dissect.specs.Reach.{EndsWell, ends_with, farthest};

use rp_base::{Failed, Row};
use rp_disk::Disk;
use rp_policy::{DESIGNATORS, Flags, Found};
use rp_tree::check_root;
use rp_types::{Arch, Designator, GROW_FILE_SYSTEM, READ_ONLY};
use rp_verdict::{has, row_of, tree_row};

/// Bytes of the room that is used.
pub const ROOM: usize = 24576;

/// Units of a block.
const BLOCK_UNITS: u64 = 8;

/// Bytes of a unit.
const UNIT: u64 = 512;

/// The first bytes of an encrypted volume.
const LUKS: [u8; 6] = [0x4c, 0x55, 0x4b, 0x53, 0xba, 0xbe];

/// What is found of each designator, in order. Of a row of a block or more the first bytes are read, and of its hash tree the
/// superblock and the top.
pub fn found_in<D: Disk>(
    disk: &mut D,
    rows: &[Row],
    arch: Arch,
    room: &mut [u8],
) -> Result<[Option<Found>; 13], Failed>
    requires rows { All EndsWell rows.now }
    requires room { 24576 ≤ length room.old }
    ensures reads { Reads (farthest rows.now) (D.device disk.old) (D.device disk.new) result }
    ensures found { Known (D.device disk.old) (D.device disk.new) (λ h.
        IfOk result (λ found. found ≡ map (found_of (held h) arch rows.now) designators)) }
{
    let mut found = [None; 13];
    for (place, designator) in DESIGNATORS.iter().enumerate() {
        found[place] = found_of(disk, rows, arch, *designator, room)?;
    }
    Ok(found)
}

// What is found of a designator.
fn found_of<D: Disk>(
    disk: &mut D,
    rows: &[Row],
    arch: Arch,
    designator: Designator,
    room: &mut [u8],
) -> Result<Option<Found>, Failed>
    requires rows { All EndsWell rows.now }
    requires room { 24576 ≤ length room.old }
    ensures reads { Reads (farthest rows.now) (D.device disk.old) (D.device disk.new) result }
    ensures found { Known (D.device disk.old) (D.device disk.new)
        (λ h. IfOk result (λ found. found ≡ found_of (held h) arch rows.now designator)) }
{
    let Some(row) = row_of(rows, arch, designator) else {
        return Ok(None);
    };
    let tree = tree_row(rows, arch, designator);
    let kinds = kinds_of(disk, &row, tree, room)?;
    Ok(Some(found_as(&row, kinds)))
}

// What a row with these protections is found as.
fn found_as(row: &Row, kinds: Flags) -> Found
    ensures { result ≡ found_as row.now kinds.0 }
{
    Found {
        kinds,
        read_only: has(row.attrs, READ_ONLY),
        growfs: has(row.attrs, GROW_FILE_SYSTEM),
    }
}

// The protections of a row with this hash tree.
fn kinds_of<D: Disk>(
    disk: &mut D,
    row: &Row,
    tree: Option<Row>,
    room: &mut [u8],
) -> Result<Flags, Failed>
    requires row { EndsWell row.now }
    requires tree { IfSome tree EndsWell }
    requires room { 24576 ≤ length room.old }
    ensures reads { Reads (ends_with row.now tree) (D.device disk.old) (D.device disk.new) result }
    ensures kinds { Known (D.device disk.old) (D.device disk.new)
        (λ h. IfOk result (λ kinds. kinds.0 ≡ kinds_of (held h) row.now tree)) }
{
    if row.size < BLOCK_UNITS {
        return Ok(Flags::UNPROTECTED);
    }
    if is_luks(disk, row)? {
        return Ok(Flags::ENCRYPTED);
    }
    if has_tree(disk, row, tree, room)? {
        Ok(Flags(9))
    } else {
        Ok(Flags::UNPROTECTED)
    }
}

// Whether a row begins as an encrypted volume.
#[tactic(auto, unfolding(crate::specs::Kinds::is_luks))]
fn is_luks<D: Disk>(disk: &mut D, row: &Row) -> Result<bool, Failed>
    requires row { EndsWell row.now }
    requires size { 8 ≤ row.now.size }
    ensures reads { Reads (end_of row.now) (D.device disk.old) (D.device disk.new) result }
    ensures luks { Known (D.device disk.old) (D.device disk.new)
        (λ h. IfOk result (λ luks. luks ≡ is_luks (held h) row.now)) }
{
    let mut bytes = [0; 6];
    read_front(disk, row, &mut bytes)?;
    Ok(bytes == LUKS)
}

// Fills the buffer with the first bytes of a row.
fn read_front<D: Disk>(disk: &mut D, row: &Row, buf: &mut [u8]) -> Result<(), Failed>
    requires row { EndsWell row.now }
    requires size { length buf.old ≤ 512 * row.now.size }
    ensures reads { Reads (end_of row.now) (D.device disk.old) (D.device disk.new) result }
    ensures bytes { Known (D.device disk.old) (D.device disk.new)
        (λ h. OnOk result (buf.new ≡ bytes_at (held h) (512 * row.now.start) (length buf.old))) }
{
    disk.read(UNIT * row.start, buf)
}

// Whether there is a hash tree of a block at least whose root is right for a row.
fn has_tree<D: Disk>(
    disk: &mut D,
    row: &Row,
    tree: Option<Row>,
    room: &mut [u8],
) -> Result<bool, Failed>
    requires row { EndsWell row.now }
    requires size { 8 ≤ row.now.size }
    requires tree { IfSome tree EndsWell }
    requires room { 24576 ≤ length room.old }
    ensures reads { Reads (ends_with row.now tree) (D.device disk.old) (D.device disk.new) result }
    ensures tree { Known (D.device disk.old) (D.device disk.new)
        (λ h. IfOk result (λ right. right ≡ has_tree (held h) row.now tree)) }
{
    match tree {
        Some(hash) if hash.size >= BLOCK_UNITS => check_root(disk, row, &hash, room),
        _ => Ok(false),
    }
}

//! What is wrong of the hash trees of an image.

ghost use Rattle.std.specs.Prelude.{◌≡◌, ◌+◌, ◌*◌, ◌≤◌, ◌^◌, IfSome, IfOk, length};
ghost use Rattle.std.specs.Option.{option_or};
ghost use Rattle.rp_difference.specs.Difference.{IsOfTree, IsOfTrees, bad_of as bad_of_pair, tree_difference as tree_difference_of};
ghost use Rattle.rp_disk.specs.Device.{Known};
ghost use Rattle.rp_disk.specs.History.{held};
ghost use Rattle.rp_gpt.specs.Accepted.{IsSeen};
ghost use Rattle.rp_tree.specs.Reads.{Reads, ends_of};

use crate::Difference;
use rp_base::{Failed, Row, Seen};
use rp_disk::Disk;
use rp_tree::{BLOCK_UNITS, Bad, check_all};
use rp_types::{Arch, Designator};
use rp_verdict::{row_of, tree_row};

/// What is wrong first of the hash tree of root, then of that of usr.
pub(crate) fn trees_difference<D: Disk>(
    disk: &mut D,
    arch: Arch,
    seen: &Seen,
    room: &mut [u8],
) -> Result<Option<Difference>, Failed>
    requires seen { IsSeen seen.now.shown.sector seen.now }
    requires room { 24576 ≤ length room.old }
    ensures reads { Reads (512 * seen.now.sectors) (D.device disk.old) (D.device disk.new) result }
    ensures found { Known (D.device disk.old) (D.device disk.new) (λ h. IfOk result (λ found.
        found ≡ option_or (tree_difference_of (held h) arch seen.now.shown.rows Designator.Root)
        (tree_difference_of (held h) arch seen.now.shown.rows Designator.Usr))) }
    ensures tree { IfOk result IsOfTrees }
{
    if let Some(found) = tree_difference(disk, arch, seen, Designator::Root, room)? {
        return Ok(Some(found));
    }
    tree_difference(disk, arch, seen, Designator::Usr, room)
}

// What is wrong first of the hash tree of a designator's data.
fn tree_difference<D: Disk>(
    disk: &mut D,
    arch: Arch,
    seen: &Seen,
    designator: Designator,
    room: &mut [u8],
) -> Result<Option<Difference>, Failed>
    requires seen { IsSeen seen.now.shown.sector seen.now }
    requires room { 24576 ≤ length room.old }
    ensures reads { Reads (512 * seen.now.sectors) (D.device disk.old) (D.device disk.new) result }
    ensures found { Known (D.device disk.old) (D.device disk.new) (λ h. IfOk result (λ found.
        found ≡ tree_difference_of (held h) arch seen.now.shown.rows designator)) }
    ensures tree { IfOk result (λ found. IfSome found (IsOfTree designator)) }
{
    let rows = seen.shown.rows.as_slice();
    let Some(payload) = row_of(rows, arch, designator) else {
        return Ok(None);
    };
    let Some(hash) = tree_row(rows, arch, designator) else {
        return Ok(None);
    };
    match bad_of(disk, &payload, &hash, room)? {
        Some(bad) => Ok(Some(Difference::Tree { designator, bad })),
        None => Ok(None),
    }
}

// What is wrong first of a hash tree over its data, where both rows have a block at least.
fn bad_of<D: Disk>(
    disk: &mut D,
    payload: &Row,
    hash: &Row,
    room: &mut [u8],
) -> Result<Option<Bad>, Failed>
    requires payload { payload.now.start + payload.now.size ≤ 2 ^ 35 }
    requires hash { hash.now.start + hash.now.size ≤ 2 ^ 35 }
    requires room { 24576 ≤ length room.old }
    ensures reads { Reads (ends_of payload.now hash.now) (D.device disk.old) (D.device disk.new) result }
    ensures bad { Known (D.device disk.old) (D.device disk.new)
        (λ h. IfOk result (λ bad. bad ≡ bad_of_pair (held h) payload.now hash.now)) }
{
    if payload.size < BLOCK_UNITS || hash.size < BLOCK_UNITS {
        return Ok(None);
    }
    check_all(disk, payload, hash, room)
}

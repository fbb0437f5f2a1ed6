ghost use Rattle.std.specs.Prelude.{◌≡◌, ◌≤◌, ◌*◌, IfOk, length};
ghost use Rattle.rp_base.specs.Faults.{HasCause};
ghost use Rattle.rp_disk.specs.Device.{Earlier, Known, StaysInsideWhere};
ghost use Rattle.rp_disk.specs.History.{held};
ghost use Rattle.rp_difference.specs.Difference.{BeginsWith, difference, table_difference as table_difference_of};
ghost use Rattle.rp_gpt.specs.Accepted.{IsSeen};

use crate::table::table_difference;
use crate::trees::trees_difference;
use rp_base::{Failed, Plan, Seen};
use rp_disk::Disk;
use rp_tree::{Bad, WIDE_ROOM};
use rp_types::{Arch, Designator};

/// Bytes of the room that a caller does best to give: one in which data blocks fill their lanes.
pub const ROOM: usize = WIDE_ROOM;

/// What an image first differs in from what is planned for it, in the order in which it is looked for.
#[derive(Clone, Copy, Debug, PartialEq, Eq)]
pub enum Difference {
    /// The primary place hasn't the exact copy of the shown table.
    Primary,
    /// The backup place hasn't.
    Backup,
    /// The protective MBR isn't the record of the image's size, and holds no partitions of another table.
    Mbr,
    /// The planned table has another disk identifier or other bounds.
    Table,
    /// The row in this slot is new or changed in the planned table.
    Row { slot: u16 },
    /// The hash tree of a designator's data isn't right.
    Tree { designator: Designator, bad: Bad },
}

/// What the image on a disk, of which this was seen, first differs in from what is planned for it; the hash trees are checked
/// down to the last digest where all else is the same. The disk is read alone. The room has 24,576 bytes or more: with
/// `ROOM` bytes data blocks fill their lanes.
pub fn difference_of<D: Disk>(
    disk: &mut D,
    arch: Arch,
    seen: &Seen,
    plan: &Plan,
    room: &mut [u8],
) -> Result<Option<Difference>, Failed>
    requires seen { IsSeen seen.now.shown.sector seen.now }
    requires room { 24576 ≤ length room.old }
    ensures earlier { Earlier (D.device disk.old) (D.device disk.new) }
    ensures calls { (D.device disk.new).calls ≡ (D.device disk.old).calls }
    ensures inside { StaysInsideWhere (D.device disk.old) (D.device disk.new) (λ h. 512 * seen.now.sectors ≤ length (held h)) }
    ensures answer { Known (D.device disk.old) (D.device disk.new) (λ h.
        IfOk result (λ found. found ≡ difference (held h) arch seen.now plan.now)) }
    ensures table { IfOk result (BeginsWith (table_difference_of seen.now plan.now)) }
    ensures cause { HasCause (D.device disk.old).faults (D.device disk.new).faults result }
{
    if let Some(found) = table_difference(seen, plan) {
        return Ok(Some(found));
    }
    trees_difference(disk, arch, seen, room)
}

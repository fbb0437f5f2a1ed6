ghost use Rattle.rp_make_room.specs.Room.{Grows};

use crate::LENGTH;
use rp_base::Failed;
use rp_disk::Disk;

/// Grows the image on a disk, which has so many bytes, to `LENGTH`, where it has fewer, and syncs the disk then.
pub fn grow<D: Disk>(disk: &mut D, len: u64) -> Result<(), Failed>
    ensures { Grows len
        (D.device disk.old) (D.device disk.new) result }
{
    if len >= LENGTH {
        return Ok(());
    }
    disk.set_len(LENGTH)?;
    disk.sync()
}

//! Reading blocks of rows.

ghost use Rattle.std.specs.Prelude.{◌≡◌, ◌+◌, ◌*◌, ◌≤◌, ◌^◌, OnOk, length};
ghost use Rattle.rp_base.specs.Image.{bytes_at};
ghost use Rattle.rp_disk.specs.Device.{Known};
ghost use Rattle.rp_disk.specs.History.{held};
ghost use Rattle.rp_tree.specs.Reads.{Reads, end_of};

use rp_base::{Failed, Row, SECTOR};
use rp_disk::Disk;
use rp_verity::BLOCK;

/// Fills the buffer with the blocks of a row from the one with this number on.
pub(crate) fn read_blocks<D: Disk>(
    disk: &mut D,
    row: &Row,
    number: u64,
    buf: &mut [u8],
) -> Result<(), Failed>
    requires row { row.now.start + row.now.size ≤ 2 ^ 35 }
    requires blocks { 4096 * number + length buf.old ≤ 512 * row.now.size }
    ensures reads { Reads (end_of row.now) (D.device disk.old) (D.device disk.new) result }
    ensures bytes { Known (D.device disk.old) (D.device disk.new)
        (λ h. OnOk result (buf.new ≡ bytes_at (held h) (512 * row.now.start + 4096 * number) (length buf.old))) }
{
    disk.read(SECTOR * row.start + BLOCK as u64 * number, buf)
}

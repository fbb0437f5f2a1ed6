ghost use Rattle.std.specs.Prelude.{◌≡◌, ◌+◌, ◌^◌, ◌<◌, ◌≤◌, length, replicate};
ghost use Rattle.rp_base.specs.Faults.{HasCause};
ghost use Rattle.rp_disk.specs.Device.{Earlier, StaysInsideWhere};
ghost use Rattle.rp_disk.specs.History.{held};
ghost use Rattle.rp_disk.specs.Runs.{Runs};
ghost use Rattle.rp_steps.specs.Calls.{in_pieces};
ghost use Rattle.rp_steps.specs.Writes.{piece};

use crate::piece::{PIECE, pieces, size_of};
use rp_base::Failed;
use rp_disk::Disk;

/// Writes so many zeros from a place on, piece by piece: pieces of 262,144 bytes, and a last one that may be shorter. The
/// room has at least a piece's bytes.
#[tactic(auto, using(rp_disk::proofs::Noting::earlier_then))]
pub fn write_zeros<D: Disk>(disk: &mut D, at: u64, len: u64, room: &mut [u8]) -> Result<(), Failed>
    requires end { at + len < 2 ^ 64 }
    requires room { piece ≤ length room.old }
    ensures earlier { Earlier (D.device disk.old) (D.device disk.new) }
    ensures ran { Runs (D.device disk.old).calls (in_pieces at (replicate len 0)) (D.device disk.new).calls result }
    ensures inside { StaysInsideWhere (D.device disk.old) (D.device disk.new) (λ h. at + len ≤ length (held h)) }
    ensures cause { HasCause (D.device disk.old).faults (D.device disk.new).faults result }
{
    room.fill(0);
    for k in 0..pieces(len) {
        disk.write(at + PIECE * k, &room[..size_of(len, k)])?;
    }
    Ok(())
}

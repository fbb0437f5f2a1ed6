ghost use Rattle.std.specs.Prelude.{◌≡◌, ◌+◌, ◌^◌, ◌<◌, ◌≤◌, ℕ, List, IfSome, false, length};
ghost use Rattle.rp_disk.specs.Device.{Earlier, StaysInsideWhere};
ghost use Rattle.rp_disk.specs.History.{held};
ghost use Rattle.rp_disk.specs.Runs.{Runs};
ghost use Rattle.rp_io.specs.Files.{content, passes};
ghost use Rattle.rp_steps.specs.Calls.{in_pieces};
ghost use Rattle.rp_fill.specs.Causes.{HasDiskCause, HasSourceCause};
ghost use Rattle.rp_fill.specs.Copied.{CopiesPiece, HasAll, IsCopyOf};
ghost use Rattle.rp_steps.specs.Writes.{piece};

use crate::FillFault;
use crate::piece::{PIECE, pieces, size_of};
use rp_disk::Disk;
use rp_io::Sources;

/// Writes the first so many bytes of a source from a place on, piece by piece: pieces of 262,144 bytes, and a last one that
/// may be shorter. Each is read once, into the room, which has at least a piece's bytes. A file that has fewer bytes is a
/// fault of the source, if no write failed before its end.
#[tactic(auto, using(rp_disk::proofs::Noting::earlier_then))]
pub fn copy_source<D: Disk, S: Sources>(
    disk: &mut D,
    sources: &mut S,
    path: &str,
    at: u64,
    len: u64,
    room: &mut [u8],
) -> Result<(), FillFault>
    requires end { at + len < 2 ^ 64 }
    requires room { piece ≤ length room.old }
    ensures earlier { Earlier (D.device disk.old) (D.device disk.new) }
    ensures told { S.told sources.new ≡ S.told sources.old }
    ensures ran { (bytes : List ℕ) × IsCopyOf (S.told sources.old) path.now len bytes
        × Runs (D.device disk.old).calls (in_pieces at bytes) (D.device disk.new).calls result }
    ensures whole { HasAll (S.told sources.old) path.now len result }
    ensures disk_inside { StaysInsideWhere (D.device disk.old) (D.device disk.new) (λ h. at + len ≤ length (held h)) }
    ensures source_strays { IfSome (S.told sources.old) (λ files. passes (content files path.now) len ≡ false
        → S.strays sources.new ≡ S.strays sources.old) }
    ensures disk_cause { HasDiskCause (D.device disk.old).faults (D.device disk.new).faults result }
    ensures source_cause { HasSourceCause (S.faults sources.old) (S.faults sources.new) result }
{
    for k in 0..pieces(len) {
        let part = &mut room[..size_of(len, k)];
        copy_piece(disk, sources, path, PIECE * k, at, part)?;
    }
    Ok(())
}

// Copies a piece that begins at this byte of the source.
#[tactic(auto, using(rp_disk::proofs::Noting::earlier_then))]
fn copy_piece<D: Disk, S: Sources>(
    disk: &mut D,
    sources: &mut S,
    path: &str,
    from: u64,
    at: u64,
    part: &mut [u8],
) -> Result<(), FillFault>
    requires { at + from < 2 ^ 64 }
    ensures earlier { Earlier (D.device disk.old) (D.device disk.new) }
    ensures told { S.told sources.new ≡ S.told sources.old }
    ensures ran { CopiesPiece (S.told sources.old) path.now from at part.new (D.device disk.old).calls (D.device disk.new).calls result }
    ensures disk_inside { StaysInsideWhere (D.device disk.old) (D.device disk.new) (λ h. at + from + length part.old ≤ length (held h)) }
    ensures source_strays { IfSome (S.told sources.old) (λ files. passes (content files path.now) (from + length part.old) ≡ false
        → S.strays sources.new ≡ S.strays sources.old) }
    ensures disk_cause { HasDiskCause (D.device disk.old).faults (D.device disk.new).faults result }
    ensures source_cause { HasSourceCause (S.faults sources.old) (S.faults sources.new) result }
{
    if sources.read(path, from, part).is_err() {
        return Err(FillFault::Source);
    }
    if disk.write(at + from, part).is_err() {
        return Err(FillFault::Disk);
    }
    Ok(())
}

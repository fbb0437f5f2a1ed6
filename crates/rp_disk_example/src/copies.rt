ghost use Rattle.std.specs.Prelude.{◌≡◌, ◌+◌, ◌*◌, ◌<◌, ◌^◌, ◌∷◌, length, OnOk};
ghost use Rattle.rp_base.specs.Faults.{HasCause};
ghost use Rattle.rp_disk.specs.Device.{Earlier};
ghost use Rattle.rp_disk.specs.Runs.{AtAnyMoment, AtAnyMomentBehindSync, EndsSettled, Runs};
ghost use Rattle.rp_disk_example.specs.Copies.{two_writes, row_of, settled_row};

use rp_base::Failed;
use rp_disk::{Call, Disk};

// The calls of `two_copies`.
#[tactic(auto, using(rp_disk::proofs::Noting::earlier_then))]
fn make_two<D: Disk>(disk: &mut D, first: u64, second: u64, bytes: &[u8]) -> Result<(), Failed>
    ensures earlier { Earlier (D.device disk.old) (D.device disk.new) }
    ensures ran { Runs (D.device disk.old).calls (two_writes first second bytes.now) (D.device disk.new).calls result }
    ensures cause { HasCause (D.device disk.old).faults (D.device disk.new).faults result }
{
    disk.write(first, bytes)?;
    disk.sync()?;
    disk.write(second, bytes)?;
    disk.sync()?;
    Ok(())
}

/// Writes the bytes at two places, each settled by a sync.
pub fn two_copies<D: Disk>(
    disk: &mut D,
    first: u64,
    second: u64,
    bytes: &[u8],
) -> Result<(), Failed>
    ensures earlier { Earlier (D.device disk.old) (D.device disk.new) }
    ensures ran { Runs (D.device disk.old).calls (two_writes first second bytes.now) (D.device disk.new).calls result }
    ensures end { OnOk result (EndsSettled (D.device disk.old).calls (two_writes first second bytes.now) (D.device disk.new).calls) }
    ensures any_moment { AtAnyMoment (D.device disk.old).calls (two_writes first second bytes.now) (D.device disk.new).calls }
    ensures cause { HasCause (D.device disk.old).faults (D.device disk.new).faults result }
{
    make_two(disk, first, second, bytes)
}

// Writes the bytes this often, one behind the other.
#[tactic(auto, using(rp_disk::proofs::Noting::earlier_then))]
fn write_row<D: Disk>(disk: &mut D, at: u64, count: u64, bytes: &[u8]) -> Result<(), Failed>
    requires { at + count * length bytes.now < 2 ^ 64 }
    ensures earlier { Earlier (D.device disk.old) (D.device disk.new) }
    ensures ran { Runs (D.device disk.old).calls (row_of at count bytes.now) (D.device disk.new).calls result }
    ensures cause { HasCause (D.device disk.old).faults (D.device disk.new).faults result }
{
    let size = bytes.len() as u64;
    for i in 0..count {
        disk.write(at + i * size, bytes)?;
    }
    Ok(())
}

// The calls of `fill`.
#[tactic(auto, using(rp_disk::proofs::Noting::earlier_then))]
fn make_row<D: Disk>(disk: &mut D, at: u64, count: u64, bytes: &[u8]) -> Result<(), Failed>
    requires { at + count * length bytes.now < 2 ^ 64 }
    ensures earlier { Earlier (D.device disk.old) (D.device disk.new) }
    ensures ran { Runs (D.device disk.old).calls (Call.Sync ∷ settled_row at count bytes.now) (D.device disk.new).calls result }
    ensures cause { HasCause (D.device disk.old).faults (D.device disk.new).faults result }
{
    disk.sync()?;
    write_row(disk, at, count, bytes)?;
    disk.sync()?;
    Ok(())
}

/// Writes the bytes this often, one behind the other, between two syncs.
pub fn fill<D: Disk>(disk: &mut D, at: u64, count: u64, bytes: &[u8]) -> Result<(), Failed>
    requires { at + count * length bytes.now < 2 ^ 64 }
    ensures earlier { Earlier (D.device disk.old) (D.device disk.new) }
    ensures ran { Runs (D.device disk.old).calls (Call.Sync ∷ settled_row at count bytes.now) (D.device disk.new).calls result }
    ensures end { OnOk result (EndsSettled (D.device disk.old).calls (Call.Sync ∷ settled_row at count bytes.now)
        (D.device disk.new).calls) }
    ensures any_moment { AtAnyMomentBehindSync (D.device disk.old).calls (settled_row at count bytes.now) (D.device disk.new).calls }
    ensures cause { HasCause (D.device disk.old).faults (D.device disk.new).faults result }
{
    make_row(disk, at, count, bytes)
}

#[cfg(test)]
mod tests {
    use super::*;
    use rp_base::List;
    use rp_disk::MemDisk;
    use std::test::Fail;

    #[test]
    fn copies_and_rows(rt: HostRuntime) -> Result<(), Fail> {
        let bytes = List::from_vec([0u8; 8].to_vec(rt.alloc())?);
        let mut disk = MemDisk::new(rt.alloc(), bytes, List::new(rt.alloc()));
        assert!(rt; two_copies(&mut disk, 0, 6, &[1, 2]).is_ok());
        assert!(rt; fill(&mut disk, 2, 2, &[3, 4]).is_ok());
        assert_eq!(rt; disk.bytes(), [1, 2, 3, 4, 3, 4, 1, 2].as_slice());
        assert_eq!(rt; disk.calls().len(), 8);
        Ok(())
    }
}

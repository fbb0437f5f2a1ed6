//! An image's verdicts.

ghost use Rattle.std.specs.Prelude.{◌≡◌, ◌⊎◌, IfOk, IfErr, Err};
ghost use Rattle.rp_base.specs.Answers.{Gives};
ghost use Rattle.rp_base.specs.Faults.{Rose};
ghost use Rattle.rp_base.specs.Geometry.{IsSector};
ghost use Rattle.rp_disk.specs.Device.{Earlier, Known, StaysInside};
ghost use Rattle.rp_disk.specs.History.{held};
ghost use Rattle.rp_dissect.specs.Dissected.{of_table, verdicts};
ghost use Rattle.rp_verdict.specs.Verdicts.{AreVerdicts, IsOwn};

use crate::found::{ROOM, found_in};
use rp_disk::Disk;
use rp_policy::Policy;
use rp_table::{Empty, TableFault, read_at};
use rp_types::Arch;
use rp_verdict::{DissectFault, Verdicts, verdicts_by};
use std::alloc::Global;

/// What a policy says of the image on a disk with sectors of 512 bytes, or the first fault, as by `dissect_at`.
pub fn dissect<D: Disk>(
    alloc: Global,
    disk: &mut D,
    arch: Arch,
    policy: &Policy,
) -> Result<Verdicts, DissectFault>
    ensures earlier { Earlier (D.device disk.old) (D.device disk.new) }
    ensures calls { (D.device disk.new).calls ≡ (D.device disk.old).calls }
    ensures inside { StaysInside (D.device disk.old) (D.device disk.new) }
    ensures answer { Known (D.device disk.old) (D.device disk.new) (λ h.
        (result ≡ Err DissectFault.Disk) ⊎ Gives DissectFault.Memory (verdicts 512 (held h) arch policy.now) result) }
    ensures fault { result ≡ Err DissectFault.Disk → Rose (D.device disk.old).faults (D.device disk.new).faults }
    ensures kept { (result ≡ Err DissectFault.Disk) ⊎ ((D.device disk.new).faults ≡ (D.device disk.old).faults) }
    ensures verdicts { IfOk result AreVerdicts }
    ensures own { IfErr result IsOwn }
{
    dissect_at(alloc, disk, arch, policy, 512)
}

/// What a policy says of the image on a disk with sectors of 512 or 4,096 bytes, or the first fault. It makes no changing
/// call and no stray one: it reads the table, of each row that is a designator's the first bytes, and of those for which
/// there is a hash tree the tree's superblock and its top.
pub fn dissect_at<D: Disk>(
    alloc: Global,
    disk: &mut D,
    arch: Arch,
    policy: &Policy,
    sector: u32,
) -> Result<Verdicts, DissectFault>
    requires { IsSector sector }
    ensures earlier { Earlier (D.device disk.old) (D.device disk.new) }
    ensures calls { (D.device disk.new).calls ≡ (D.device disk.old).calls }
    ensures inside { StaysInside (D.device disk.old) (D.device disk.new) }
    ensures answer { Known (D.device disk.old) (D.device disk.new) (λ h.
        (result ≡ Err DissectFault.Disk) ⊎ Gives DissectFault.Memory (verdicts sector (held h) arch policy.now) result) }
    ensures fault { result ≡ Err DissectFault.Disk → Rose (D.device disk.old).faults (D.device disk.new).faults }
    ensures kept { (result ≡ Err DissectFault.Disk) ⊎ ((D.device disk.new).faults ≡ (D.device disk.old).faults) }
    ensures verdicts { IfOk result AreVerdicts }
    ensures own { IfErr result IsOwn }
{
    let seen = match read_at(alloc, disk, Empty::Refuse, sector) {
        Ok(seen) => seen,
        Err(fault) => return Err(of_table(fault)),
    };
    let Ok(mut room) = vec![in alloc; 0; ROOM] else {
        return Err(DissectFault::Memory);
    };
    let rows = seen.shown.rows.as_slice();
    let Ok(found) = found_in(disk, rows, arch, &mut room) else {
        return Err(DissectFault::Disk);
    };
    verdicts_by(alloc, policy, rows, arch, &found)
}

// A failure of the disk and want of memory stand for themselves.
fn of_table(fault: TableFault) -> DissectFault
    ensures value { result ≡ of_table fault }
    ensures own { IsOwn result }
{
    match fault {
        TableFault::Disk => DissectFault::Disk,
        TableFault::Memory => DissectFault::Memory,
        _ => DissectFault::Table(fault),
    }
}

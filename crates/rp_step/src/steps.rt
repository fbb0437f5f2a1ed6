ghost use Rattle.std.specs.Prelude.{Option, ◌≡◌, All, IfSome, length};
ghost use Rattle.rp_disk.specs.Device.{Earlier, IsPossible, missed_by};
ghost use Rattle.rp_disk.specs.History.{held};
ghost use Rattle.rp_disk.specs.Made.{Past, history_told};
ghost use Rattle.rp_step.specs.Causes.{HasDiskCause, HasSourceCause};
ghost use Rattle.rp_step.specs.Found.{CanMake, Found, HasFile, outside_of};
ghost use Rattle.rp_step.specs.Run.{AllLieIn, MakesSteps};
ghost use Rattle.rp_step.specs.Stocked.{CanWrite, IsStocked};

use crate::ApplyFault;
use crate::step::make_step;
use rp_base::{List, Plan, Text};
use rp_disk::Disk;
use rp_io::Sources;
use rp_region::Blocks;
use rp_steps::Step;

/// Makes the calls of steps in their order, up to the first fault.
pub fn make_steps<D: Disk, S: Sources>(
    disk: &mut D,
    sources: &mut S,
    plan: &Plan,
    paths: &List<Text>,
    blocks: &mut Blocks,
    steps: &[Step],
) -> Result<(), ApplyFault>
    requires goal { CanWrite plan.now }
    requires stocked { IsStocked plan.now blocks.old }
    requires can { All (CanMake paths.now) steps.now }
    ensures stocked { IsStocked plan.now blocks.new }
    ensures earlier { Earlier (D.device disk.old) (D.device disk.new) }
    ensures told { S.told sources.new ≡ S.told sources.old }
    ensures made { (o : Option Past) → IsPossible o (D.device disk.new) → (founds : List Found) × MakesSteps plan.now
        (outside_of (S.told sources.old) paths.now o) steps.now founds
        (D.device disk.old).calls (D.device disk.new).calls result }
    ensures disk_strays { (o : Option Past) → IsPossible o (D.device disk.new) → IfSome (history_told o (D.device disk.old).calls)
        (λ h. AllLieIn plan.now (length (held h)) steps.now → missed_by o (D.device disk.new).answers ≡ missed_by o (D.device disk.old).answers) }
    ensures source_strays { IfSome (S.told sources.old) (λ files. All (HasFile files paths.now) steps.now
        → S.strays sources.new ≡ S.strays sources.old) }
    ensures disk_cause { HasDiskCause (D.device disk.old).faults (D.device disk.new).faults result }
    ensures source_cause { HasSourceCause (S.faults sources.old) (S.faults sources.new) result }
{
    for step in steps {
        make_step(disk, sources, plan, paths, blocks, step)?;
    }
    Ok(())
}

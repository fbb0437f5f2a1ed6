ghost use Rattle.std.specs.Prelude.{Option, ◌≡◌, ◌*◌, All, IfOk, IfSome, List, OnOk, length};
ghost use Rattle.rp_disk.specs.Device.{Earlier, IsPossible, missed_by};
ghost use Rattle.rp_disk.specs.History.{held};
ghost use Rattle.rp_disk.specs.Made.{Past, history_told};
ghost use Rattle.rp_step.specs.Causes.{HasDiskCause, HasSourceCause};
ghost use Rattle.rp_step.specs.Found.{Found, HasFile, outside_of};
ghost use Rattle.rp_step.specs.Run.{AllLieIn, MakesSteps};
ghost use Rattle.rp_steps.specs.Writes.{writes as writes_in};
ghost use Rattle.rp_apply.specs.Commits.{AnyMomentIsSafe, ChangesAtRoots, EndsFinal, IsComplete, MakesPlanned, TellsShown};
ghost use Rattle.rp_apply.specs.Ready.{IsReady};
ghost use Rattle.rp_region.specs.Region.{IsLeased};

use crate::Ready;
use rp_disk::Disk;
use rp_io::Sources;
use rp_step::{ApplyFault, make_steps};

/// A plan was carried out, in so many writes.
#[derive(Clone, Copy, Debug, PartialEq, Eq)]
pub struct Done {
    pub writes: u64,
}

/// Carries out a plan: makes the calls of its steps in their order, up to the first fault. It takes no memory.
pub fn commit<D: Disk, S: Sources>(
    ready: Ready,
    disk: &mut D,
    sources: &mut S,
) -> Result<Done, ApplyFault>
    requires { IsReady ready }
    ensures earlier { Earlier (D.device disk.old) (D.device disk.new) }
    ensures told { S.told sources.new ≡ S.told sources.old }

    // Over every disk and all sources: the calls are those of the steps, whatever is copied.
    ensures made { (o : Option Past) → IsPossible o (D.device disk.new) → (founds : List Found) × MakesSteps ready.plan
        (outside_of (S.told sources.old) ready.paths o) ready.steps founds
        (D.device disk.old).calls (D.device disk.new).calls result }
    ensures writes { IfOk result (λ done. done.writes ≡ writes_in ready.steps) }
    ensures disk_cause { HasDiskCause (D.device disk.old).faults (D.device disk.new).faults result }
    ensures source_cause { HasSourceCause (S.faults sources.old) (S.faults sources.new) result }
    // No call goes past the end of a disk as long as it was seen, nor of a file that has the bytes.
    ensures disk_strays { (o : Option Past) → IsPossible o (D.device disk.new) → IfSome (history_told o (D.device disk.old).calls)
        (λ h. length (held h) ≡ 512 * ready.seen.sectors → missed_by o (D.device disk.new).answers ≡ missed_by o (D.device disk.old).answers) }
    ensures source_strays { IfSome (S.told sources.old) (λ files. All (HasFile files ready.paths) ready.steps
        → S.strays sources.new ≡ S.strays sources.old) }

    // Where the disk tells, whatever the sources do.
    ensures copied { (o : Option Past) → IsPossible o (D.device disk.new)
        → TellsShown ready o (D.device disk.old).calls (D.device disk.new).calls result }

    // Where both tell: they are the calls of the plan, and a source has changed exactly where a tree's root isn't the planned one.
    ensures planned { (o : Option Past) → IsPossible o (D.device disk.new)
        → IfSome (S.told sources.old) (λ files. MakesPlanned ready files o (D.device disk.old).calls
        (D.device disk.new).calls result) }
    ensures changed { (o : Option Past) → IsPossible o (D.device disk.new)
        → IfSome (S.told sources.old) (λ files. ChangesAtRoots ready files o (D.device disk.old).calls result) }
    ensures complete { (o : Option Past) → IsPossible o (D.device disk.new) → IfSome (S.told sources.old)
        (λ files. IsComplete ready files o (D.device disk.old).calls (D.device disk.old).faults (D.device disk.new).faults
        (S.faults sources.old) (S.faults sources.new) result) }
    ensures ended { (o : Option Past) → IsPossible o (D.device disk.new) → IfSome (S.told sources.old) (λ files. OnOk result
        (EndsFinal ready files o (D.device disk.old).calls (D.device disk.new).calls)) }

    // Whatever the sources do.
    ensures any_moment { (o : Option Past) → IsPossible o (D.device disk.new)
        → AnyMomentIsSafe ready (S.told sources.old) o (D.device disk.old).calls (D.device disk.new).calls }
{
    carry_out(ready, disk, sources)
}

// The calls of `commit`.
fn carry_out<D: Disk, S: Sources>(
    ready: Ready,
    disk: &mut D,
    sources: &mut S,
) -> Result<Done, ApplyFault>
    requires { IsReady ready }
    ensures earlier { Earlier (D.device disk.old) (D.device disk.new) }
    ensures told { S.told sources.new ≡ S.told sources.old }
    ensures made { (o : Option Past) → IsPossible o (D.device disk.new) → (founds : List Found) × MakesSteps ready.plan
        (outside_of (S.told sources.old) ready.paths o) ready.steps founds
        (D.device disk.old).calls (D.device disk.new).calls result }
    ensures writes { IfOk result (λ done. done.writes ≡ writes_in ready.steps) }
    ensures disk_cause { HasDiskCause (D.device disk.old).faults (D.device disk.new).faults result }
    ensures source_cause { HasSourceCause (S.faults sources.old) (S.faults sources.new) result }
    ensures disk_strays { (o : Option Past) → IsPossible o (D.device disk.new) → IfSome (history_told o (D.device disk.old).calls)
        (λ h. AllLieIn ready.plan (length (held h)) ready.steps → missed_by o (D.device disk.new).answers ≡ missed_by o (D.device disk.old).answers) }
    ensures source_strays { IfSome (S.told sources.old) (λ files. All (HasFile files ready.paths) ready.steps
        → S.strays sources.new ≡ S.strays sources.old) }
{
    let mut ready = ready;
    let writes = ready.writes();
    make_all(&mut ready, disk, sources)?;
    Ok(Done { writes })
}

// Makes the calls of all steps.
fn make_all<D: Disk, S: Sources>(
    ready: &mut Ready,
    disk: &mut D,
    sources: &mut S,
) -> Result<(), ApplyFault>
    requires { IsReady ready.old }
    ensures leased { IsLeased ready.new.blocks }
    ensures earlier { Earlier (D.device disk.old) (D.device disk.new) }
    ensures told { S.told sources.new ≡ S.told sources.old }
    ensures made { (o : Option Past) → IsPossible o (D.device disk.new) → (founds : List Found) × MakesSteps ready.old.plan
        (outside_of (S.told sources.old) ready.old.paths o) ready.old.steps founds
        (D.device disk.old).calls (D.device disk.new).calls result }
    ensures disk_cause { HasDiskCause (D.device disk.old).faults (D.device disk.new).faults result }
    ensures source_cause { HasSourceCause (S.faults sources.old) (S.faults sources.new) result }
    ensures disk_strays { (o : Option Past) → IsPossible o (D.device disk.new) → IfSome (history_told o (D.device disk.old).calls)
        (λ h. AllLieIn ready.old.plan (length (held h)) ready.old.steps → missed_by o (D.device disk.new).answers ≡ missed_by o (D.device disk.old).answers) }
    ensures source_strays { IfSome (S.told sources.old) (λ files. All (HasFile files ready.old.paths) ready.old.steps
        → S.strays sources.new ≡ S.strays sources.old) }
{
    make_steps(
        disk,
        sources,
        &ready.plan,
        &ready.paths,
        &mut ready.blocks,
        ready.steps.as_slice(),
    )
}

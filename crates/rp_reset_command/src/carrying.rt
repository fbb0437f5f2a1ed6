//! Both plans of a factory reset are carried out.

ghost use Rattle.std.specs.Prelude.{◌≡◌, Some};
ghost use Rattle.rp_apply.specs.Ready.{IsReady, IsReadyFor};
ghost use Rattle.rp_apply_command.specs.Applies.{CarriesOut};
ghost use Rattle.rp_apply_command.specs.Carrying.{HasSeenLength, HasToldRoots};
ghost use Rattle.rp_base.specs.declared.plan.Plan.{Plan as Aim};
ghost use Rattle.rp_defs.specs.declared.definition.Definitions.{Definitions as Defined};
ghost use Rattle.rp_outcome.specs.Store.{store};
ghost use Rattle.rp_planned.specs.declared.planned.Planned.{Planned as Planning};
ghost use Rattle.rp_reset_command.specs.Applies.{CarriesBoth, outcome_of};
ghost use Rattle.rp_reset_command.specs.Carrying.{CanRenew};
ghost use Rattle.rp_reset_command.specs.declared.renewal.Renewal.{Renewal as Aims};

use rp_apply::{ApplyFault, Ready, commit};
use rp_disk::Disk;
use rp_io::Sources;

/// Carries out one plan.
pub(crate) fn carry_out<D: Disk, S: Sources>(
    ready: Ready,
    disk: &mut D,
    sources: &mut S,
) -> Result<(), ApplyFault>
    requires { IsReady ready }
    ensures { (definitions : Defined) (planned : Planning) → IsReadyFor planned.plan planned.seen definitions.list ready
        → HasSeenLength planned (D.device disk.old)
        → HasToldRoots definitions.list planned
        (D.device disk.old) (store S.told S.faults S.strays sources.old)
        → CarriesOut definitions planned
        (D.device disk.old) (D.device disk.new)
        (store S.told S.faults S.strays sources.old) (store S.told S.faults S.strays sources.new) (outcome_of result) }
{
    match commit(ready, disk, sources) {
        Ok(_) => Ok(()),
        Err(fault) => Err(fault),
    }
}

/// Carries out the plan of a reset, and then the plan behind it.
pub(crate) fn carry_out_both<D: Disk, S: Sources>(
    first: Ready,
    second: Ready,
    disk: &mut D,
    sources: &mut S,
) -> Result<(), ApplyFault>
    requires first { IsReady first }
    requires second { IsReady second }
    ensures { (definitions : Defined) (renewal : Aims) (reset : Aim) → IsReadyFor reset renewal.seen definitions.list first
        → IsReadyFor renewal.planned.plan renewal.planned.seen definitions.list second → renewal.reset ≡ Some reset
        → CanRenew definitions.list renewal
        (D.device disk.old) (store S.told S.faults S.strays sources.old)
        → CarriesBoth definitions renewal reset
        (D.device disk.old) (D.device disk.new)
        (store S.told S.faults S.strays sources.old) (store S.told S.faults S.strays sources.new) (outcome_of result) }
{
    match carry_out(first, disk, sources) {
        Ok(()) => carry_out(second, disk, sources),
        Err(fault) => Err(fault),
    }
}

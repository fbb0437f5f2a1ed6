ghost use Rattle.rp_apply.specs.Ready.{IsReady, IsReadyFor};
ghost use Rattle.rp_apply_command.specs.Applies.{CarriesOut};
ghost use Rattle.rp_apply_command.specs.Carrying.{HasSeenLength, HasToldRoots};
ghost use Rattle.rp_defs.specs.declared.definition.Definitions.{Definitions};
ghost use Rattle.rp_make_command.specs.Makes.{SourcesStay, outcome_of, refusal_of};
ghost use Rattle.rp_outcome.specs.Output.{Refuses, output};
ghost use Rattle.rp_outcome.specs.Store.{store};
ghost use Rattle.rp_planned.specs.declared.planned.Planned.{Planned};

use rp_apply::{ApplyFault, Ready, commit};
use rp_disk::Disk;
use rp_io::{Sink, Sources};
use rp_outcome::{Refusal, refuse};

/// Carries out a plan.
pub(crate) fn carry_out<D: Disk, S: Sources>(
    ready: Ready,
    disk: &mut D,
    sources: &mut S,
) -> Result<(), ApplyFault>
    requires { IsReady ready }
    ensures { (definitions : Definitions) (planned : Planned) → IsReadyFor planned.plan planned.seen definitions.list ready
        → HasSeenLength planned (D.device disk.old)
        → HasToldRoots definitions.list planned
        (D.device disk.old) (store S.told S.faults S.strays sources.old)
        → CarriesOut definitions planned
        (D.device disk.old) (D.device disk.new)
        (store S.told S.faults S.strays sources.old) (store S.told S.faults S.strays sources.new) (outcome_of result)
        × SourcesStay definitions planned (store S.told S.faults S.strays sources.old) (store S.told S.faults S.strays sources.new) }
{
    match commit(ready, disk, sources) {
        Ok(_) => Ok(()),
        Err(fault) => Err(fault),
    }
}

/// Ends a command whose plan wasn't carried out.
pub(crate) fn refuse_fault<K: Sink>(out: &mut K, fault: &ApplyFault) -> u8
    ensures { Refuses (output K.told K.faults out.old) (output K.told K.faults out.new) (refusal_of fault.now) result }
{
    match fault {
        ApplyFault::DiskFault => refuse(out, &Refusal::disk()),
        ApplyFault::SourceFault => refuse(out, &Refusal::source()),
        ApplyFault::SourceChanged { planned, copied } => {
            refuse(out, &Refusal::changed(planned, copied))
        }
    }
}

ghost use Rattle.std.specs.Prelude.{◌≡◌, ◌≤◌, ◌%◌, ◌^◌, Bool, IfOk};
ghost use Rattle.rp_apply.specs.Ready.{IsReady, IsReadyFor};
ghost use Rattle.rp_base.specs.Geometry.{IsSector};
ghost use Rattle.rp_defs.specs.WellFormed.{IsWellFormed};
ghost use Rattle.rp_defs.specs.declared.definition.Definitions.{Definitions as Defined};
ghost use Rattle.rp_outcome.specs.Output.{output};
ghost use Rattle.rp_outcome.specs.Store.{store};
ghost use Rattle.rp_planned.specs.declared.planned.Planned.{Planned as Aim};
ghost use Rattle.rp_apply_command.specs.Applies.{Applies, AppliesOpened, AppliesPlanned, Commits, PlanFits, applied_report};
ghost use Rattle.rp_apply_command.specs.Carrying.{CanPrepare, HasSeenLength, HasToldRoots};

use rp_apply::{ApplyFault, Ready, commit, plan_fits, prepare};
use rp_base::{Failed, Memory, Text};
use rp_defs::Definitions;
use rp_disk::Disk;
use rp_io::{Folders, Sink, Sources};
use rp_outcome::{Refusal, finish, refuse};
use rp_planned::{Planned, Request, plan_image, unplanned_refusal};
use rp_reading::{read_definitions, unread_refusal};
use rp_report::plan_text;
use std::alloc::Global;

/// Changes the image on a disk to what the definitions of these folders ask for, and prints it, as text or as JSON; answers the
/// exit status.
///
/// The folders are read, then the disk is synced, then the image is read and the wanted sources are asked. All memory is taken
/// before the first write.
pub fn apply<D: Disk, F: Folders, S: Sources, K: Sink>(
    alloc: Global,
    request: Request,
    json: bool,
    dirs: &[Text],
    disk: &mut D,
    folders: &mut F,
    sources: &mut S,
    out: &mut K,
) -> u8
    requires sector { IsSector request.sector }
    requires whole { request.size % 4096 ≡ 0 }
    requires most { request.size ≤ 2 ^ 44 }
    ensures { Applies request json dirs.now
        (store F.told F.faults F.strays folders.old) (store F.told F.faults F.strays folders.new)
        (D.device disk.old) (D.device disk.new)
        (store S.told S.faults S.strays sources.old) (store S.told S.faults S.strays sources.new)
        (output K.told K.faults out.old) (output K.told K.faults out.new) result }
{
    let definitions = match read_definitions(alloc, request.arch, dirs, folders) {
        Ok(definitions) => definitions,
        Err(fault) => return refuse(out, &unread_refusal(&fault)),
    };
    match disk.sync() {
        Ok(()) => apply_opened(alloc, request, json, &definitions, disk, sources, out),
        Err(Failed) => refuse(out, &Refusal::disk()),
    }
}

// The same, once the disk was synced.
fn apply_opened<D: Disk, S: Sources, K: Sink>(
    alloc: Global,
    request: Request,
    json: bool,
    definitions: &Definitions,
    disk: &mut D,
    sources: &mut S,
    out: &mut K,
) -> u8
    requires sector { IsSector request.sector }
    requires whole { request.size % 4096 ≡ 0 }
    requires most { request.size ≤ 2 ^ 44 }
    requires list { IsWellFormed definitions.now.list }
    ensures { AppliesOpened request json definitions.now
        (D.device disk.old) (D.device disk.new)
        (store S.told S.faults S.strays sources.old) (store S.told S.faults S.strays sources.new)
        (output K.told K.faults out.old) (output K.told K.faults out.new) result (Ok tt) }
{
    let list = definitions.list.as_slice();
    match plan_image(alloc, request, list, disk, sources) {
        Ok(planned) => apply_planned(alloc, json, definitions, &planned, disk, sources, out),
        Err(cause) => refuse(out, &unplanned_refusal(list, &cause)),
    }
}

// Carries out what is planned, once there is memory for all of it, and tells it.
fn apply_planned<D: Disk, S: Sources, K: Sink>(
    alloc: Global,
    json: bool,
    definitions: &Definitions,
    planned: &Planned,
    disk: &mut D,
    sources: &mut S,
    out: &mut K,
) -> u8
    requires can { CanPrepare definitions.now.list planned.now }
    requires len { HasSeenLength planned.now (D.device disk.old) }
    requires roots { HasToldRoots definitions.now.list planned.now
        (D.device disk.old) (store S.told S.faults S.strays sources.old) }
    ensures fits { PlanFits planned.now }
    ensures applies { AppliesPlanned json definitions.now
        (D.device disk.old) (D.device disk.new)
        (store S.told S.faults S.strays sources.old) (store S.told S.faults S.strays sources.new)
        (output K.told K.faults out.old) (output K.told K.faults out.new) result (Ok planned.now) }
{
    match prepared(alloc, json, definitions, planned) {
        Ok((ready, text)) => carried_out(ready, text.as_str(), disk, sources, out),
        Err(Memory) => refuse(out, &Refusal::memory()),
    }
}

// All memory for carrying out a plan, and its text.
fn prepared(
    alloc: Global,
    json: bool,
    definitions: &Definitions,
    planned: &Planned,
) -> Result<(Ready, Text), Memory>
    requires { CanPrepare definitions.now.list planned.now }
    ensures fits { PlanFits planned.now }
    ensures ready { IfOk result (λ made. IsReadyFor planned.now.plan planned.now.seen definitions.now.list made.0) }
    ensures text { IfOk result (λ made. made.1 ≡ applied_report json definitions.now planned.now) }
{
    let plan = &planned.plan;
    plan_fits(plan);
    let ready = prepare(alloc, plan, &planned.seen, definitions.list.as_slice())?;
    let (steps, writes) = (ready.steps(), ready.writes());
    let text = plan_text(alloc, json, plan, definitions, steps, writes, true, None)?;
    Ok((ready, text))
}

// Carries out a plan and tells it by its text.
fn carried_out<D: Disk, S: Sources, K: Sink>(
    ready: Ready,
    text: &str,
    disk: &mut D,
    sources: &mut S,
    out: &mut K,
) -> u8
    requires { IsReady ready }
    ensures { (json : Bool) (definitions : Defined) (planned : Aim) → IsReadyFor planned.plan planned.seen definitions.list ready
        → text.now ≡ applied_report json definitions planned
        → HasSeenLength planned (D.device disk.old)
        → HasToldRoots definitions.list planned
        (D.device disk.old) (store S.told S.faults S.strays sources.old)
        → Commits json definitions planned
        (D.device disk.old) (D.device disk.new)
        (store S.told S.faults S.strays sources.old) (store S.told S.faults S.strays sources.new)
        (output K.told K.faults out.old) (output K.told K.faults out.new) result }
{
    match commit(ready, disk, sources) {
        Ok(_) => finish(out, text),
        Err(ApplyFault::DiskFault) => refuse(out, &Refusal::disk()),
        Err(ApplyFault::SourceFault) => refuse(out, &Refusal::source()),
        Err(ApplyFault::SourceChanged { planned, copied }) => {
            refuse(out, &Refusal::changed(&planned, &copied))
        }
    }
}

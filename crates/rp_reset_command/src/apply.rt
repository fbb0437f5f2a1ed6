ghost use Rattle.std.specs.Prelude.{◌≡◌, ◌≤◌, ◌%◌, ◌^◌, All, Bool, IfOk, None, Ok, Some, length, true};
ghost use Rattle.rp_apply.specs.Ready.{IsReady, IsReadyFor};
ghost use Rattle.rp_apply.specs.Sourced.{NamesSource};
ghost use Rattle.rp_apply_command.specs.Applies.{PlanFits};
ghost use Rattle.rp_base.specs.Geometry.{IsSector};
ghost use Rattle.rp_defs.specs.WellFormed.{IsWellFormed};
ghost use Rattle.rp_defs.specs.declared.definition.Definitions.{Definitions as Defined};
ghost use Rattle.rp_outcome.specs.Output.{output};
ghost use Rattle.rp_outcome.specs.Store.{store};
ghost use Rattle.rp_reset_command.specs.Applies.{AppliesOpened, AppliesPlanned, AppliesReset, TellsApplied, outcome_of};
ghost use Rattle.rp_reset_command.specs.Carrying.{CanRenew, IsFormed};
ghost use Rattle.rp_reset_command.specs.Reports.{renewal_report};
ghost use Rattle.rp_reset_command.specs.declared.renewal.Renewal.{Renewal as Aims};
ghost use Rattle.rp_steps.specs.Writes.{writes as writes_in};

use crate::Renewal;
use crate::carrying::{carry_out, carry_out_both};
use crate::renewal::plan_renewal;
use crate::telling::{Counts, text_with, together};
use rp_apply::{ApplyFault, Ready, plan_fits, prepare};
use rp_base::{Failed, Memory, Plan, Text};
use rp_defs::Definitions;
use rp_disk::Disk;
use rp_io::{Folders, Sink, Sources};
use rp_outcome::{Refusal, finish, refuse};
use rp_planned::{Planned, Request, unplanned_refusal};
use rp_reading::{read_definitions, unread_refusal};
use std::alloc::Global;

/// Changes the image on a disk to what the definitions of these folders ask for, with a factory reset, and prints it: as text
/// or as JSON, with the slots that are taken out. It answers the exit status.
///
/// The folders are read, then the disk is synced, then the image is read, the reset is planned, and the sources that are
/// wanted for what it leaves are asked. All memory is taken before the first write. Then the calls of the reset are made,
/// and those of the plan behind it.
pub fn apply_reset<D: Disk, F: Folders, S: Sources, K: Sink>(
    alloc: Global,
    request: Request,
    json: bool,
    dirs: &[Text],
    disk: &mut D,
    folders: &mut F,
    sources: &mut S,
    out: &mut K,
) -> u8
    requires sector { IsSector request.sector }
    requires whole { request.size % 4096 ≡ 0 }
    requires most { request.size ≤ 2 ^ 44 }
    ensures { AppliesReset request json dirs.now
        (store F.told F.faults F.strays folders.old) (store F.told F.faults F.strays folders.new)
        (D.device disk.old) (D.device disk.new)
        (store S.told S.faults S.strays sources.old) (store S.told S.faults S.strays sources.new)
        (output K.told K.faults out.old) (output K.told K.faults out.new) result }
{
    let definitions = match read_definitions(alloc, request.arch, dirs, folders) {
        Ok(definitions) => definitions,
        Err(fault) => return refuse(out, &unread_refusal(&fault)),
    };
    match disk.sync() {
        Ok(()) => apply_opened(alloc, request, json, &definitions, disk, sources, out),
        Err(Failed) => refuse(out, &Refusal::disk()),
    }
}

// The same, once the disk was synced.
fn apply_opened<D: Disk, S: Sources, K: Sink>(
    alloc: Global,
    request: Request,
    json: bool,
    definitions: &Definitions,
    disk: &mut D,
    sources: &mut S,
    out: &mut K,
) -> u8
    requires sector { IsSector request.sector }
    requires whole { request.size % 4096 ≡ 0 }
    requires most { request.size ≤ 2 ^ 44 }
    requires list { IsWellFormed definitions.now.list }
    ensures { AppliesOpened request json definitions.now
        (D.device disk.old) (D.device disk.new)
        (store S.told S.faults S.strays sources.old) (store S.told S.faults S.strays sources.new)
        (output K.told K.faults out.old) (output K.told K.faults out.new) result (Ok tt) }
{
    let list = definitions.list.as_slice();
    match plan_renewal(alloc, request, list, disk, sources) {
        Ok(renewal) => apply_planned(alloc, json, definitions, &renewal, disk, sources, out),
        Err(cause) => refuse(out, &unplanned_refusal(list, &cause)),
    }
}

// Carries out what is planned, once there is memory for all of it, and tells it.
fn apply_planned<D: Disk, S: Sources, K: Sink>(
    alloc: Global,
    json: bool,
    definitions: &Definitions,
    renewal: &Renewal,
    disk: &mut D,
    sources: &mut S,
    out: &mut K,
) -> u8
    requires list { length definitions.now.list ≤ 256 }
    requires can { CanRenew definitions.now.list renewal.now
        (D.device disk.old) (store S.told S.faults S.strays sources.old) }
    ensures fits { PlanFits renewal.now.planned }
    ensures applies { AppliesPlanned json definitions.now
        (D.device disk.old) (D.device disk.new)
        (store S.told S.faults S.strays sources.old) (store S.told S.faults S.strays sources.new)
        (output K.told K.faults out.old) (output K.told K.faults out.new) result (Ok renewal.now) }
{
    plan_fits(&renewal.planned.plan);
    match &renewal.reset {
        Some(reset) => apply_both(alloc, json, definitions, renewal, reset, disk, sources, out),
        None => apply_alone(alloc, json, definitions, renewal, disk, sources, out),
    }
}

// Where no partition is taken out, there is one plan alone.
fn apply_alone<D: Disk, S: Sources, K: Sink>(
    alloc: Global,
    json: bool,
    definitions: &Definitions,
    renewal: &Renewal,
    disk: &mut D,
    sources: &mut S,
    out: &mut K,
) -> u8
    requires list { length definitions.now.list ≤ 256 }
    requires none { renewal.now.reset ≡ None }
    requires can { CanRenew definitions.now.list renewal.now
        (D.device disk.old) (store S.told S.faults S.strays sources.old) }
    ensures { AppliesPlanned json definitions.now
        (D.device disk.old) (D.device disk.new)
        (store S.told S.faults S.strays sources.old) (store S.told S.faults S.strays sources.new)
        (output K.told K.faults out.old) (output K.told K.faults out.new) result (Ok renewal.now) }
{
    match prepared(alloc, json, definitions, renewal) {
        Ok((ready, text)) => {
            let done = carry_out(ready, disk, sources);
            tell(done, text.as_str(), out)
        }
        Err(Memory) => refuse(out, &Refusal::memory()),
    }
}

fn apply_both<D: Disk, S: Sources, K: Sink>(
    alloc: Global,
    json: bool,
    definitions: &Definitions,
    renewal: &Renewal,
    reset: &Plan,
    disk: &mut D,
    sources: &mut S,
    out: &mut K,
) -> u8
    requires list { length definitions.now.list ≤ 256 }
    requires some { renewal.now.reset ≡ Some reset.now }
    requires can { CanRenew definitions.now.list renewal.now
        (D.device disk.old) (store S.told S.faults S.strays sources.old) }
    ensures { AppliesPlanned json definitions.now
        (D.device disk.old) (D.device disk.new)
        (store S.told S.faults S.strays sources.old) (store S.told S.faults S.strays sources.new)
        (output K.told K.faults out.old) (output K.told K.faults out.new) result (Ok renewal.now) }
{
    match prepared_both(alloc, json, definitions, renewal, reset) {
        Ok((first, second, text)) => {
            let done = carry_out_both(first, second, disk, sources);
            tell(done, text.as_str(), out)
        }
        Err(Memory) => refuse(out, &Refusal::memory()),
    }
}

// All memory for carrying out the one plan, and its text.
fn prepared(
    alloc: Global,
    json: bool,
    definitions: &Definitions,
    renewal: &Renewal,
) -> Result<(Ready, Text), Memory>
    requires list { length definitions.now.list ≤ 256 }
    requires none { renewal.now.reset ≡ None }
    requires formed { IsFormed renewal.now }
    requires named { All (NamesSource definitions.now.list) renewal.now.planned.plan.notes }
    ensures ready { IfOk result (λ made. IsReadyFor renewal.now.planned.plan renewal.now.planned.seen definitions.now.list made.0) }
    ensures text { IfOk result (λ made. made.1 ≡ renewal_report json definitions.now renewal.now true) }
{
    let Planned { seen, plan } = &renewal.planned;
    let ready = prepare(alloc, plan, seen, definitions.list.as_slice())?;
    let none = Counts {
        steps: 0,
        writes: 0,
    };
    let counts = together(none, counts_of(&ready));
    let text = text_with(alloc, json, definitions, renewal, counts, true)?;
    Ok((ready, text))
}

// All memory for carrying out both, and their text.
fn prepared_both(
    alloc: Global,
    json: bool,
    definitions: &Definitions,
    renewal: &Renewal,
    reset: &Plan,
) -> Result<(Ready, Ready, Text), Memory>
    requires list { length definitions.now.list ≤ 256 }
    requires some { renewal.now.reset ≡ Some reset.now }
    requires formed { IsFormed renewal.now }
    requires named { All (NamesSource definitions.now.list) renewal.now.planned.plan.notes }
    requires reset_named { All (NamesSource definitions.now.list) reset.now.notes }
    ensures first { IfOk result (λ made. IsReadyFor reset.now renewal.now.seen definitions.now.list made.0) }
    ensures second { IfOk result (λ made. IsReadyFor renewal.now.planned.plan renewal.now.planned.seen definitions.now.list made.1) }
    ensures text { IfOk result (λ made. made.2 ≡ renewal_report json definitions.now renewal.now true) }
{
    let list = definitions.list.as_slice();
    let Planned { seen, plan } = &renewal.planned;
    let first = prepare(alloc, reset, &renewal.seen, list)?;
    let second = prepare(alloc, plan, seen, list)?;
    let counts = together(counts_of(&first), counts_of(&second));
    let text = text_with(alloc, json, definitions, renewal, counts, true)?;
    Ok((first, second, text))
}

// The steps and writes of a plan that can be carried out.
fn counts_of(ready: &Ready) -> Counts
    requires { IsReady ready.now }
    ensures { result ≡ record { steps = length ready.now.steps; writes = writes_in ready.now.steps } }
{
    Counts {
        steps: ready.steps(),
        writes: ready.writes(),
    }
}

// Tells what was carried out by its text, or the fault.
fn tell<K: Sink>(done: Result<(), ApplyFault>, text: &str, out: &mut K) -> u8
    ensures { (json : Bool) (definitions : Defined) (renewal : Aims) → text.now ≡ renewal_report json definitions renewal true
        → TellsApplied json definitions renewal (output K.told K.faults out.old) (output K.told K.faults out.new) result (outcome_of done) }
{
    match done {
        Ok(()) => finish(out, text),
        Err(ApplyFault::DiskFault) => refuse(out, &Refusal::disk()),
        Err(ApplyFault::SourceFault) => refuse(out, &Refusal::source()),
        Err(ApplyFault::SourceChanged { planned, copied }) => {
            refuse(out, &Refusal::changed(&planned, &copied))
        }
    }
}

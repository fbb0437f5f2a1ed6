ghost use Rattle.std.specs.Prelude.{◌≡◌, ◌≤◌, ◌%◌, ◌^◌};
ghost use Rattle.rp_base.specs.Geometry.{IsSector};
ghost use Rattle.rp_defs.specs.WellFormed.{IsWellFormed};
ghost use Rattle.rp_outcome.specs.Output.{output};
ghost use Rattle.rp_outcome.specs.Store.{store};
ghost use Rattle.rp_plan_command.specs.Plans.{Plans, PlansRead, Tells};
ghost use Rattle.rp_base.specs.Plan.{IsWellFormed as IsPlan};

use rp_base::{List, Memory, Text};
use rp_defs::Definitions;
use rp_disk::Disk;
use rp_io::{Folders, Sink, Sources};
use rp_outcome::{Refusal, finish, refuse};
use rp_planned::{Planned, Request, plan_image, unplanned_refusal};
use rp_reading::{read_definitions, unread_refusal};
use rp_report::plan_text;
use rp_steps::{Step, steps_of, writes_of};
use std::alloc::Global;

/// Prints what is to become of the image on a disk by the definitions of these folders, as text or as JSON, and answers the
/// exit status.
///
/// The folders are read, then the image, then the wanted sources are asked. The disk is read alone.
pub fn plan<D: Disk, F: Folders, S: Sources, K: Sink>(
    alloc: Global,
    request: Request,
    json: bool,
    dirs: &[Text],
    disk: &mut D,
    folders: &mut F,
    sources: &mut S,
    out: &mut K,
) -> u8
    requires sector { IsSector request.sector }
    requires whole { request.size % 4096 ≡ 0 }
    requires most { request.size ≤ 2 ^ 44 }
    ensures { Plans request json dirs.now
        (store F.told F.faults F.strays folders.old) (store F.told F.faults F.strays folders.new)
        (D.device disk.old) (D.device disk.new)
        (store S.told S.faults S.strays sources.old) (store S.told S.faults S.strays sources.new)
        (output K.told K.faults out.old) (output K.told K.faults out.new) result }
{
    match read_definitions(alloc, request.arch, dirs, folders) {
        Ok(definitions) => plan_read(alloc, request, json, &definitions, disk, sources, out),
        Err(fault) => refuse(out, &unread_refusal(&fault)),
    }
}

// The same, by definitions that were read.
fn plan_read<D: Disk, S: Sources, K: Sink>(
    alloc: Global,
    request: Request,
    json: bool,
    definitions: &Definitions,
    disk: &mut D,
    sources: &mut S,
    out: &mut K,
) -> u8
    requires sector { IsSector request.sector }
    requires whole { request.size % 4096 ≡ 0 }
    requires most { request.size ≤ 2 ^ 44 }
    requires list { IsWellFormed definitions.now.list }
    ensures { PlansRead request json definitions.now
        (D.device disk.old) (D.device disk.new)
        (store S.told S.faults S.strays sources.old) (store S.told S.faults S.strays sources.new)
        (output K.told K.faults out.old) (output K.told K.faults out.new) result }
{
    let list = definitions.list.as_slice();
    match plan_image(alloc, request, list, disk, sources) {
        Ok(planned) => tell(alloc, json, definitions, &planned, out),
        Err(cause) => refuse(out, &unplanned_refusal(list, &cause)),
    }
}

// Prints a plan, with its steps and writes.
#[tactic(auto, using(crate::proofs::Noted::as_many))]
fn tell<K: Sink>(
    alloc: Global,
    json: bool,
    definitions: &Definitions,
    planned: &Planned,
    out: &mut K,
) -> u8
    requires { IsPlan planned.now.seen planned.now.plan }
    ensures { Tells json definitions.now (output K.told K.faults out.old) (output K.told K.faults out.new) result (Ok planned.now) }
{
    let steps = match steps_of(alloc, &planned.plan, &planned.seen) {
        Ok(steps) => steps,
        Err(Memory) => return refuse(out, &Refusal::memory()),
    };
    let writes = writes_of(steps.as_slice());
    let count = steps.len() as u64;
    match plan_text(
        alloc,
        json,
        &planned.plan,
        definitions,
        count,
        writes,
        false,
        None,
    ) {
        Ok(text) => finish(out, text.as_str()),
        Err(Memory) => refuse(out, &Refusal::memory()),
    }
}

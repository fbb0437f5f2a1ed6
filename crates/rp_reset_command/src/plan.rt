ghost use Rattle.std.specs.Prelude.{◌≡◌, ◌≤◌, ◌%◌, ◌^◌, Ok, length};
ghost use Rattle.rp_base.specs.Geometry.{IsSector};
ghost use Rattle.rp_defs.specs.WellFormed.{IsWellFormed};
ghost use Rattle.rp_outcome.specs.Output.{output};
ghost use Rattle.rp_outcome.specs.Store.{store};
ghost use Rattle.rp_reset_command.specs.Carrying.{IsFormed};
ghost use Rattle.rp_reset_command.specs.Plans.{PlansRead, PlansReset, Tells};

use crate::Renewal;
use crate::renewal::plan_renewal;
use crate::telling::planned_text;
use rp_base::{Memory, Text};
use rp_defs::Definitions;
use rp_disk::Disk;
use rp_io::{Folders, Sink, Sources};
use rp_outcome::{Refusal, finish, refuse};
use rp_planned::{Request, unplanned_refusal};
use rp_reading::{read_definitions, unread_refusal};
use std::alloc::Global;

/// Prints what is to become of the image on a disk by the definitions of these folders, with a factory reset: as text or as
/// JSON, with the slots that are taken out. It answers the exit status.
///
/// The folders are read, then the image; the reset is planned, and then the sources that are wanted for what it leaves are
/// asked. The disk is read alone.
pub fn plan_reset<D: Disk, F: Folders, S: Sources, K: Sink>(
    alloc: Global,
    request: Request,
    json: bool,
    dirs: &[Text],
    disk: &mut D,
    folders: &mut F,
    sources: &mut S,
    out: &mut K,
) -> u8
    requires sector { IsSector request.sector }
    requires whole { request.size % 4096 ≡ 0 }
    requires most { request.size ≤ 2 ^ 44 }
    ensures { PlansReset request json dirs.now
        (store F.told F.faults F.strays folders.old) (store F.told F.faults F.strays folders.new)
        (D.device disk.old) (D.device disk.new)
        (store S.told S.faults S.strays sources.old) (store S.told S.faults S.strays sources.new)
        (output K.told K.faults out.old) (output K.told K.faults out.new) result }
{
    match read_definitions(alloc, request.arch, dirs, folders) {
        Ok(definitions) => plan_read(alloc, request, json, &definitions, disk, sources, out),
        Err(fault) => refuse(out, &unread_refusal(&fault)),
    }
}

// The same, by definitions that were read.
fn plan_read<D: Disk, S: Sources, K: Sink>(
    alloc: Global,
    request: Request,
    json: bool,
    definitions: &Definitions,
    disk: &mut D,
    sources: &mut S,
    out: &mut K,
) -> u8
    requires sector { IsSector request.sector }
    requires whole { request.size % 4096 ≡ 0 }
    requires most { request.size ≤ 2 ^ 44 }
    requires list { IsWellFormed definitions.now.list }
    ensures { PlansRead request json definitions.now
        (D.device disk.old) (D.device disk.new)
        (store S.told S.faults S.strays sources.old) (store S.told S.faults S.strays sources.new)
        (output K.told K.faults out.old) (output K.told K.faults out.new) result }
{
    let list = definitions.list.as_slice();
    match plan_renewal(alloc, request, list, disk, sources) {
        Ok(renewal) => tell(alloc, json, definitions, &renewal, out),
        Err(cause) => refuse(out, &unplanned_refusal(list, &cause)),
    }
}

// Prints what is planned.
fn tell<K: Sink>(
    alloc: Global,
    json: bool,
    definitions: &Definitions,
    renewal: &Renewal,
    out: &mut K,
) -> u8
    requires formed { IsFormed renewal.now }
    requires list { length definitions.now.list ≤ 256 }
    ensures { Tells json definitions.now (output K.told K.faults out.old) (output K.told K.faults out.new) result (Ok renewal.now) }
{
    match planned_text(alloc, json, definitions, renewal) {
        Ok(text) => finish(out, text.as_str()),
        Err(Memory) => refuse(out, &Refusal::memory()),
    }
}

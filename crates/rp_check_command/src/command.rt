ghost use Rattle.std.specs.Prelude.{◌≡◌, ◌*◌, length};
ghost use Rattle.rp_base.specs.Geometry.{IsSector};
ghost use Rattle.rp_check_command.specs.Checks.{Checks, ChecksPlanned, ChecksRead, check_request as check_request_of};
ghost use Rattle.rp_defs.specs.WellFormed.{IsWellFormed};
ghost use Rattle.rp_disk.specs.Device.{Known};
ghost use Rattle.rp_disk.specs.History.{held};
ghost use Rattle.rp_gpt.specs.Accepted.{IsSeen};
ghost use Rattle.rp_outcome.specs.Output.{output};
ghost use Rattle.rp_outcome.specs.Store.{store};

use crate::printing::tell;
use rp_base::{Failed, Guid, Text};
use rp_defs::Definitions;
use rp_difference::{ROOM, difference_of};
use rp_disk::Disk;
use rp_gpt::Empty;
use rp_io::{Folders, Sink, Sources};
use rp_outcome::{Refusal, refuse};
use rp_planned::{Planned, Request, plan_image, unplanned_refusal};
use rp_reading::{read_definitions, unread_refusal};
use rp_types::Arch;
use std::alloc::Global;

/// Prints what the image on a disk with sectors of so many bytes first differs in from what the definitions of these folders
/// ask for, or `ok`, and answers the exit status.
///
/// The folders are read, then the image, then the wanted sources are asked, as for a plan for the image's own length; then the
/// hash trees are read, down to the last block, where all else is the same. The disk is read alone.
pub fn check<D: Disk, F: Folders, S: Sources, K: Sink>(
    alloc: Global,
    seed: Guid,
    arch: Arch,
    sector: u32,
    dirs: &[Text],
    disk: &mut D,
    folders: &mut F,
    sources: &mut S,
    out: &mut K,
) -> u8
    requires { IsSector sector }
    ensures { Checks seed arch sector dirs.now
        (store F.told F.faults F.strays folders.old) (store F.told F.faults F.strays folders.new)
        (D.device disk.old) (D.device disk.new)
        (store S.told S.faults S.strays sources.old) (store S.told S.faults S.strays sources.new)
        (output K.told K.faults out.old) (output K.told K.faults out.new) result }
{
    let request = check_request(seed, arch, sector);
    match read_definitions(alloc, arch, dirs, folders) {
        Ok(definitions) => check_read(alloc, request, &definitions, disk, sources, out),
        Err(fault) => refuse(out, &unread_refusal(&fault)),
    }
}

// What is planned for: an image that shows a table, and keeps its length.
fn check_request(seed: Guid, arch: Arch, sector: u32) -> Request
    ensures { result ≡ check_request_of seed arch sector }
{
    Request {
        seed,
        arch,
        empty: Empty::Refuse,
        size: 0,
        sector,
    }
}

// The same, by definitions that were read.
fn check_read<D: Disk, S: Sources, K: Sink>(
    alloc: Global,
    request: Request,
    definitions: &Definitions,
    disk: &mut D,
    sources: &mut S,
    out: &mut K,
) -> u8
    requires sector { IsSector request.sector }
    requires size { request.size ≡ 0 }
    requires list { IsWellFormed definitions.now.list }
    ensures { ChecksRead request definitions.now
        (D.device disk.old) (D.device disk.new)
        (store S.told S.faults S.strays sources.old) (store S.told S.faults S.strays sources.new)
        (output K.told K.faults out.old) (output K.told K.faults out.new) result }
{
    let list = definitions.list.as_slice();
    match plan_image(alloc, request, list, disk, sources) {
        Ok(planned) => check_planned(alloc, request.arch, &planned, disk, out),
        Err(cause) => refuse(out, &unplanned_refusal(list, &cause)),
    }
}

// Compares the image with what is planned for it, and tells it.
fn check_planned<D: Disk, K: Sink>(
    alloc: Global,
    arch: Arch,
    planned: &Planned,
    disk: &mut D,
    out: &mut K,
) -> u8
    requires seen { IsSeen planned.now.seen.shown.sector planned.now.seen }
    requires len { Known (D.device disk.old) (D.device disk.old) (λ h. length (held h) ≡ 512 * planned.now.seen.sectors) }
    ensures { ChecksPlanned arch
        (D.device disk.old) (D.device disk.new)
        (output K.told K.faults out.old) (output K.told K.faults out.new) result (Ok planned.now) }
{
    let Ok(mut room) = vec![in alloc; 0; ROOM] else {
        return refuse(out, &Refusal::memory());
    };
    match difference_of(disk, arch, &planned.seen, &planned.plan, &mut room) {
        Ok(found) => tell(out, found),
        Err(Failed) => refuse(out, &Refusal::disk()),
    }
}

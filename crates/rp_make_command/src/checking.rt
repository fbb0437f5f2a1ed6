ghost use Rattle.std.specs.Prelude.{◌≡◌, Ok};
ghost use Rattle.rp_apply_command.specs.Carrying.{HasSeenLength};
ghost use Rattle.rp_check_command.specs.Checks.{Finds, check_request as check_request_of};
ghost use Rattle.rp_defs.specs.WellFormed.{IsWellFormed};
ghost use Rattle.rp_gpt.specs.Accepted.{IsSeen};
ghost use Rattle.rp_make_command.specs.Makes.{MakesChecked, MakesCompared, unfound_refusal};
ghost use Rattle.rp_make_command.specs.Summary.{TellsMade};
ghost use Rattle.rp_outcome.specs.Output.{output};
ghost use Rattle.rp_outcome.specs.Store.{store};
ghost use Rattle.rp_reading.specs.Stages.{refused};
ghost use Rattle.rp_types.specs.declared.arch.Arch.TheVariants.{X86_64};

use rp_base::{Failed, Guid};
use rp_check_command::tell;
use rp_defs::Definitions;
use rp_difference::{Difference, ROOM, difference_of};
use rp_disk::Disk;
use rp_gpt::Empty;
use rp_io::{Sink, Sources};
use rp_outcome::{Refusal, SINK, print_pieces, refuse};
use rp_planned::{Planned, Request, plan_image, unplanned_refusal};
use rp_types::Arch;
use std::alloc::Global;

/// Why what an image differs in wasn't found.
#[derive(Clone, Copy, Debug, PartialEq, Eq)]
pub(crate) enum Unfound {
    Disk,
    Memory,
}

/// Looks for what the image on a disk differs in from what these definitions ask for, and tells it behind the front of the summary.
pub(crate) fn check_made<D: Disk, S: Sources, K: Sink>(
    alloc: Global,
    seed: Guid,
    front: &str,
    definitions: &Definitions,
    disk: &mut D,
    sources: &mut S,
    out: &mut K,
) -> u8
    requires list { IsWellFormed definitions.now.list }
    ensures { MakesChecked seed front.now definitions.now
        (D.device disk.old) (D.device disk.new)
        (store S.told S.faults S.strays sources.old) (store S.told S.faults S.strays sources.new)
        (output K.told K.faults out.old) (output K.told K.faults out.new) result }
{
    let list = definitions.list.as_slice();
    match plan_image(alloc, check_request(seed), list, disk, sources) {
        Ok(planned) => compare_made(alloc, front, &planned, disk, out),
        Err(cause) => refuse(out, &unplanned_refusal(list, &cause)),
    }
}

// What is planned for: an image that shows a table, and keeps its length.
fn check_request(seed: Guid) -> Request
    ensures { result ≡ check_request_of seed X86_64 512 }
{
    Request {
        seed,
        arch: Arch::X86_64,
        empty: Empty::Refuse,
        size: 0,
        sector: 512,
    }
}

// Compares the image with what is planned for it, and tells it.
fn compare_made<D: Disk, K: Sink>(
    alloc: Global,
    front: &str,
    planned: &Planned,
    disk: &mut D,
    out: &mut K,
) -> u8
    requires seen { IsSeen planned.now.seen.shown.sector planned.now.seen }
    requires len { HasSeenLength planned.now (D.device disk.old) }
    ensures { MakesCompared front.now planned.now
        (D.device disk.old) (D.device disk.new)
        (output K.told K.faults out.old) (output K.told K.faults out.new) result }
{
    match find(alloc, planned, disk) {
        Ok(found) => tell_made(out, front, found),
        Err(Unfound::Disk) => refuse(out, &Refusal::disk()),
        Err(Unfound::Memory) => refuse(out, &Refusal::memory()),
    }
}

// What the image first differs in from what is planned for it.
fn find<D: Disk>(
    alloc: Global,
    planned: &Planned,
    disk: &mut D,
) -> Result<Option<Difference>, Unfound>
    requires seen { IsSeen planned.now.seen.shown.sector planned.now.seen }
    requires len { HasSeenLength planned.now (D.device disk.old) }
    ensures { Finds X86_64 planned.now
        (D.device disk.old) (D.device disk.new)
        (refused unfound_refusal result) }
{
    let Ok(mut room) = vec![in alloc; 0; ROOM] else {
        return Err(Unfound::Memory);
    };
    match difference_of(disk, Arch::X86_64, &planned.seen, &planned.plan, &mut room) {
        Ok(found) => Ok(found),
        Err(Failed) => Err(Unfound::Disk),
    }
}

// Prints the front of the summary and what differs, and answers the exit status.
fn tell_made<K: Sink>(out: &mut K, front: &str, found: Option<Difference>) -> u8
    ensures { TellsMade front.now (output K.told K.faults out.old) (output K.told K.faults out.new) result found }
{
    match print_pieces(out, &[front]) {
        Ok(()) => tell(out, found),
        Err(Failed) => SINK,
    }
}

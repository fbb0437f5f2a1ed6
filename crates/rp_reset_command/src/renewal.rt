//! What is planned for an image with a factory reset.

ghost use Rattle.std.specs.Prelude.{◌≡◌, ◌≤◌, ◌%◌, ◌^◌, IfOk, Ok, false};
ghost use Rattle.rp_base.specs.Geometry.{IsSector};
ghost use Rattle.rp_defs.specs.WellFormed.{IsWellFormed};
ghost use Rattle.rp_gpt.specs.Accepted.{IsSeen};
ghost use Rattle.rp_outcome.specs.Store.{store};
ghost use Rattle.rp_planned.specs.Planning.{must_repair as must_repair_first, unplanned_refusal as refusal_of};
ghost use Rattle.rp_reading.specs.Stages.{refused};
ghost use Rattle.rp_reset.specs.Reset.{reset as reset_of};
ghost use Rattle.rp_reset_command.specs.Carrying.{IsFormed};
ghost use Rattle.rp_reset_command.specs.Renewing.{RenewsImage, RenewsLeft, RenewsUnless, seen_left as seen_left_of};

use rp_base::{Memory, Plan, Seen};
use rp_defs::Definition;
use rp_disk::Disk;
use rp_io::Sources;
use rp_planned::{Planned, Request, Unplanned, must_repair, plan_seen, read_image};
use rp_reset::{after, reset};
use std::alloc::Global;

/// What is to become of an image with a factory reset.
#[derive(Debug, Drop)]
pub struct Renewal {
    /// What was seen of the image.
    pub seen: Seen,
    /// The plan that takes the partitions of definitions with `FactoryReset=yes` out, where there are any.
    pub reset: Option<Plan>,
    /// What is to become of what that leaves.
    pub planned: Planned,
}

/// What is to become of the image on a disk by these definitions, with a factory reset. The image is read, and the reset is
/// planned; then the sources that are wanted for what it leaves are asked. The disk is read alone.
pub(crate) fn plan_renewal<D: Disk, S: Sources>(
    alloc: Global,
    request: Request,
    list: &[Definition],
    disk: &mut D,
    sources: &mut S,
) -> Result<Renewal, Unplanned>
    requires sector { IsSector request.sector }
    requires whole { request.size % 4096 ≡ 0 }
    requires most { request.size ≤ 2 ^ 44 }
    requires list { IsWellFormed list.now }
    ensures renews { RenewsImage request list.now
        (D.device disk.old) (D.device disk.new)
        (store S.told S.faults S.strays sources.old) (store S.told S.faults S.strays sources.new)
        (refused (refusal_of list.now) result) }
    ensures formed { IfOk result IsFormed }
{
    match read_image(alloc, request, disk) {
        Ok(seen) => renew_seen(alloc, request, list, seen, sources),
        Err(fault) => Err(Unplanned::Image(fault)),
    }
}

// The same, from what was seen of the image.
fn renew_seen<S: Sources>(
    alloc: Global,
    request: Request,
    list: &[Definition],
    seen: Seen,
    sources: &mut S,
) -> Result<Renewal, Unplanned>
    requires seen { IsSeen request.sector seen }
    requires sector { IsSector request.sector }
    requires whole { request.size % 4096 ≡ 0 }
    requires most { request.size ≤ 2 ^ 44 }
    requires list { IsWellFormed list.now }
    ensures renews { RenewsUnless (must_repair_first request.size seen) request list.now seen
        (store S.told S.faults S.strays sources.old) (store S.told S.faults S.strays sources.new)
        (refused (refusal_of list.now) result) }
    ensures formed { IfOk result IsFormed }
{
    if must_repair(request.size, &seen) {
        return Err(Unplanned::RepairFirst);
    }
    match reset(alloc, &seen, list) {
        Ok(reset) => renew_left(alloc, request, list, seen, reset, sources),
        Err(demand) => Err(Unplanned::Demand(demand)),
    }
}

// And from the plan of the reset, if there is one.
fn renew_left<S: Sources>(
    alloc: Global,
    request: Request,
    list: &[Definition],
    seen: Seen,
    reset: Option<Plan>,
    sources: &mut S,
) -> Result<Renewal, Unplanned>
    requires seen { IsSeen request.sector seen }
    requires sector { IsSector request.sector }
    requires whole { request.size % 4096 ≡ 0 }
    requires most { request.size ≤ 2 ^ 44 }
    requires list { IsWellFormed list.now }
    requires repaired { must_repair_first request.size seen ≡ false }
    requires reset { reset_of seen list.now ≡ Ok reset }
    ensures renews { RenewsLeft request list.now seen reset
        (store S.told S.faults S.strays sources.old) (store S.told S.faults S.strays sources.new)
        (refused (refusal_of list.now) result) }
    ensures formed { IfOk result IsFormed }
{
    let left = match seen_left(alloc, &seen, &reset) {
        Ok(left) => left,
        Err(Memory) => return Err(Unplanned::Memory),
    };
    match plan_seen(alloc, request, list, left, sources) {
        Ok(planned) => Ok(Renewal {
            seen,
            reset,
            planned,
        }),
        Err(cause) => Err(cause),
    }
}

// What is seen of the image behind the reset.
fn seen_left(alloc: Global, seen: &Seen, reset: &Option<Plan>) -> Result<Seen, Memory>
    ensures { IfOk result (λ left. left ≡ seen_left_of seen.now reset.now) }
{
    match reset {
        Some(plan) => after(alloc, seen, plan),
        None => copy_of(alloc, seen),
    }
}

// An equal record of what was seen.
fn copy_of(alloc: Global, seen: &Seen) -> Result<Seen, Memory>
    ensures { IfOk result (λ copy. copy ≡ seen.now) }
{
    Ok(Seen {
        sectors: seen.sectors,
        shown: seen.shown.copy(alloc)?,
        origin: seen.origin,
        primary_same: seen.primary_same,
        backup_same: seen.backup_same,
        mbr: seen.mbr,
    })
}

ghost use Rattle.std.specs.Prelude.{◌≡◌, ◌≤◌, ◌%◌, ◌^◌, IfOk};
ghost use Rattle.rp_base.specs.Geometry.{IsSector};
ghost use Rattle.rp_base.specs.Plan.{IsWellFormed as IsPlan};
ghost use Rattle.rp_defs.specs.WellFormed.{IsWellFormed};
ghost use Rattle.rp_gpt.specs.Accepted.{IsSeen};
ghost use Rattle.rp_outcome.specs.Refusals.{table_refusal as table_refusal_of};
ghost use Rattle.rp_outcome.specs.Store.{store};
ghost use Rattle.rp_planned.specs.Planning.{AsksSources, PlansBy, PlansImage, PlansUnless, ReadsImage, must_repair as must_repair_first, target_of as target_for, unplanned_refusal as refusal_of};
ghost use Rattle.rp_reading.specs.Stages.{refused};
ghost use Rattle.rp_sizes.specs.Needs.{AreFactsOn, wanted_of};

use crate::Request;
use rp_base::{List, Memory, Origin, Plan, Seen};
use rp_defs::Definition;
use rp_demand::Demand;
use rp_disk::Disk;
use rp_facts::{FactFault, facts_of};
use rp_gpt::TableFault;
use rp_io::Sources;
use rp_outcome::{Refusal, demand_refusal, table_refusal};
use rp_plan::plan;
use rp_sizes::{Fact, Need, wanted};
use rp_table::read_at;
use std::alloc::Global;

/// What is to become of an image, and what was seen of it.
#[derive(Debug, Drop)]
pub struct Planned {
    pub seen: Seen,
    pub plan: Plan,
}

/// Why nothing is planned for an image.
#[derive(Debug, Drop)]
pub enum Unplanned {
    Image(TableFault),
    RepairFirst,
    Source,
    Demand(Demand),
    Memory,
}

/// What is to become of the image on a disk, by these definitions. The image is read, then the wanted sources are asked
/// for their lengths and the roots of pairs. The disk is read alone.
pub fn plan_image<D: Disk, S: Sources>(
    alloc: Global,
    request: Request,
    list: &[Definition],
    disk: &mut D,
    sources: &mut S,
) -> Result<Planned, Unplanned>
    requires sector { IsSector request.sector }
    requires whole { request.size % 4096 ≡ 0 }
    requires most { request.size ≤ 2 ^ 44 }
    requires list { IsWellFormed list.now }
    ensures plans { PlansImage request list.now
        (D.device disk.old) (D.device disk.new)
        (store S.told S.faults S.strays sources.old) (store S.told S.faults S.strays sources.new)
        (refused (refusal_of list.now) result) }
    ensures well_formed { IfOk result (λ planned. IsPlan planned.seen planned.plan) }
{
    match read_image(alloc, request, disk) {
        Ok(seen) => plan_seen(alloc, request, list, seen, sources),
        Err(fault) => Err(Unplanned::Image(fault)),
    }
}

/// What is seen of the image on a disk, which is read alone.
#[tactic(auto, using(crate::proofs::Answered::image_refused, crate::proofs::Answered::image_seen))]
pub fn read_image<D: Disk>(
    alloc: Global,
    request: Request,
    disk: &mut D,
) -> Result<Seen, TableFault>
    requires { IsSector request.sector }
    ensures { ReadsImage request.sector request.empty
        (D.device disk.old) (D.device disk.new)
        (refused table_refusal_of result) }
{
    match read_at(alloc, disk, request.empty, request.sector) {
        Ok(seen) => Ok(seen),
        Err(fault) => Err(fault),
    }
}

/// What is to become of an image of which this was seen, by these definitions: the wanted sources are asked, unless the
/// image has to be repaired first.
#[tactic(auto, using(crate::proofs::Answered::repair_first, crate::proofs::Answered::unknown, crate::proofs::Answered::known, crate::proofs::Answered::known_each))]
pub fn plan_seen<S: Sources>(
    alloc: Global,
    request: Request,
    list: &[Definition],
    seen: Seen,
    sources: &mut S,
) -> Result<Planned, Unplanned>
    requires seen { IsSeen request.sector seen }
    requires sector { IsSector request.sector }
    requires whole { request.size % 4096 ≡ 0 }
    requires most { request.size ≤ 2 ^ 44 }
    requires list { IsWellFormed list.now }
    ensures plans { PlansUnless (must_repair_first request.size seen) request list.now seen
        (store S.told S.faults S.strays sources.old) (store S.told S.faults S.strays sources.new)
        (refused (refusal_of list.now) result) }
    ensures well_formed { IfOk result (λ planned. IsPlan planned.seen planned.plan) }
{
    if must_repair(request.size, &seen) {
        return Err(Unplanned::RepairFirst);
    }
    match asked(alloc, request, list, &seen, sources) {
        Ok(facts) => planned_by(alloc, request, list, seen, facts.as_slice()),
        Err(cause) => Err(cause),
    }
}

// What the sources tell of what is wanted for an image.
#[tactic(auto, using(crate::proofs::Asked::wanted_nothing))]
fn asked<S: Sources>(
    alloc: Global,
    request: Request,
    list: &[Definition],
    seen: &Seen,
    sources: &mut S,
) -> Result<List<Fact>, Unplanned>
    requires seen { IsSeen request.sector seen.now }
    requires list { IsWellFormed list.now }
    ensures asked { AsksSources request.seed seen.now.shown list.now
        (store S.told S.faults S.strays sources.old) (store S.told S.faults S.strays sources.new)
        (refused (refusal_of list.now) result) }
{
    match wanted_for(alloc, request, list, seen) {
        Ok(needs) => known(alloc, request, list, seen, needs.as_slice(), sources),
        Err(Memory) => Err(Unplanned::Memory),
    }
}

// The wanted sources.
#[tactic(auto, using(crate::proofs::Target::rows_few))]
fn wanted_for(
    alloc: Global,
    request: Request,
    list: &[Definition],
    seen: &Seen,
) -> Result<List<Need>, Memory>
    requires seen { IsSeen request.sector seen.now }
    requires list { IsWellFormed list.now }
    ensures { IfOk result (λ needs. needs ≡ wanted_of seen.now.shown list.now) }
{
    wanted(alloc, &seen.shown, list)
}

// What the sources tell of these needs, which are what is wanted.
#[tactic(auto, using(crate::proofs::Asked::are_sourced, crate::proofs::Asked::known_ok, crate::proofs::Asked::known_failed, crate::proofs::Asked::known_memory))]
fn known<S: Sources>(
    alloc: Global,
    request: Request,
    list: &[Definition],
    seen: &Seen,
    needs: &[Need],
    sources: &mut S,
) -> Result<List<Fact>, Unplanned>
    requires list { IsWellFormed list.now }
    requires needs { needs.now ≡ wanted_of seen.now.shown list.now }
    ensures asked { AsksSources request.seed seen.now.shown list.now
        (store S.told S.faults S.strays sources.old) (store S.told S.faults S.strays sources.new)
        (refused (refusal_of list.now) result) }
{
    match facts_of(alloc, sources, request.seed, list, needs) {
        Ok(facts) => Ok(facts),
        Err(FactFault::SourceFault) => Err(Unplanned::Source),
        Err(FactFault::Memory) => Err(Unplanned::Memory),
    }
}

// What is to become of an image by these facts.
#[tactic(auto, using(crate::proofs::Answered::planned_ok, crate::proofs::Answered::planned_err, crate::proofs::Target::target_of_seen, crate::proofs::Target::is_plannable))]
fn planned_by(
    alloc: Global,
    request: Request,
    list: &[Definition],
    seen: Seen,
    facts: &[Fact],
) -> Result<Planned, Unplanned>
    requires seen { IsSeen request.sector seen }
    requires sector { IsSector request.sector }
    requires whole { request.size % 4096 ≡ 0 }
    requires most { request.size ≤ 2 ^ 44 }
    requires list { IsWellFormed list.now }
    requires facts { AreFactsOn (wanted_of seen.shown list.now) facts.now }
    ensures plans { PlansBy request list.now seen (Ok facts.now) (refused (refusal_of list.now) result) }
    ensures well_formed { IfOk result (λ planned. IsPlan planned.seen planned.plan) }
{
    let target = target_of(request.size, &seen);
    match plan(alloc, &seen, target, list, facts, request.seed) {
        Ok(plan) => Ok(Planned { seen, plan }),
        Err(demand) => Err(Unplanned::Demand(demand)),
    }
}

fn target_of(size: u64, seen: &Seen) -> u64
    ensures { result ≡ target_for size seen.now }
{
    seen.sectors.max(size / 512)
}

/// Whether an image has to be repaired before it grows to so many bytes.
pub fn must_repair(size: u64, seen: &Seen) -> bool
    ensures { result ≡ must_repair_first size seen.now }
{
    seen.sectors < target_of(size, seen) && seen.origin != Origin::Primary
}

/// The refusal of such a cause.
pub fn unplanned_refusal<'a>(list: &'a [Definition], cause: &Unplanned) -> Refusal<'a>
    ensures { result ≡ refusal_of list.now cause.now }
{
    let demand = match cause {
        Unplanned::Demand(demand) => *demand,
        Unplanned::Image(fault) => return table_refusal(*fault),
        Unplanned::RepairFirst => return Refusal::repair_first(),
        Unplanned::Source => return Refusal::source(),
        Unplanned::Memory => return Refusal::memory(),
    };
    demand_refusal(list, demand)
}

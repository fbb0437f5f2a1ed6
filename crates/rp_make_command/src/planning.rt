ghost use Rattle.std.specs.Prelude.{◌≡◌, IfOk};
ghost use Rattle.rp_apply.specs.Ready.{IsReadyFor};
ghost use Rattle.rp_apply_command.specs.Applies.{PlanFits};
ghost use Rattle.rp_apply_command.specs.Carrying.{CanPrepare, HasSeenLength, HasToldRoots};
ghost use Rattle.rp_defs.specs.WellFormed.{IsWellFormed};
ghost use Rattle.rp_make_command.specs.Makes.{MakesCarried, MakesGrown, MakesPlanned, make_request as make_request_of};
ghost use Rattle.rp_make_command.specs.Summary.{front_text};
ghost use Rattle.rp_outcome.specs.Output.{output};
ghost use Rattle.rp_outcome.specs.Store.{store};

use crate::carrying::{carry_out, refuse_fault};
use crate::checking::check_made;
use crate::front::front;
use rp_apply::{Ready, plan_fits, prepare};
use rp_base::{Guid, Memory, Text};
use rp_defs::Definitions;
use rp_disk::Disk;
use rp_gpt::Empty;
use rp_io::{Sink, Sources};
use rp_outcome::{Refusal, refuse};
use rp_planned::{Planned, Request, plan_image, unplanned_refusal};
use rp_types::Arch;
use std::alloc::Global;

/// Makes an image of the length that it has, by definitions that were read.
pub(crate) fn make_grown<D: Disk, S: Sources, K: Sink>(
    alloc: Global,
    number: u8,
    seed: Guid,
    definitions: &Definitions,
    disk: &mut D,
    sources: &mut S,
    out: &mut K,
) -> u8
    requires list { IsWellFormed definitions.now.list }
    ensures { MakesGrown number seed definitions.now
        (D.device disk.old) (D.device disk.new)
        (store S.told S.faults S.strays sources.old) (store S.told S.faults S.strays sources.new)
        (output K.told K.faults out.old) (output K.told K.faults out.new) result }
{
    let list = definitions.list.as_slice();
    match plan_image(alloc, make_request(seed), list, disk, sources) {
        Ok(planned) => make_planned(
            alloc,
            number,
            seed,
            definitions,
            &planned,
            disk,
            sources,
            out,
        ),
        Err(cause) => refuse(out, &unplanned_refusal(list, &cause)),
    }
}

// What is planned for: an image that shows no table, and keeps its length.
fn make_request(seed: Guid) -> Request
    ensures { result ≡ make_request_of seed }
{
    Request {
        seed,
        arch: Arch::X86_64,
        empty: Empty::Require,
        size: 0,
        sector: 512,
    }
}

// Carries out what is planned, once there is memory for all of it, and goes on.
fn make_planned<D: Disk, S: Sources, K: Sink>(
    alloc: Global,
    number: u8,
    seed: Guid,
    definitions: &Definitions,
    planned: &Planned,
    disk: &mut D,
    sources: &mut S,
    out: &mut K,
) -> u8
    requires list { IsWellFormed definitions.now.list }
    requires can { CanPrepare definitions.now.list planned.now }
    requires len { HasSeenLength planned.now (D.device disk.old) }
    requires roots { HasToldRoots definitions.now.list planned.now
        (D.device disk.old) (store S.told S.faults S.strays sources.old) }
    ensures fits { PlanFits planned.now }
    ensures makes { MakesPlanned number seed definitions.now planned.now
        (D.device disk.old) (D.device disk.new)
        (store S.told S.faults S.strays sources.old) (store S.told S.faults S.strays sources.new)
        (output K.told K.faults out.old) (output K.told K.faults out.new) result }
{
    let (ready, front) = match prepared(alloc, number, definitions, planned) {
        Ok(made) => made,
        Err(Memory) => return refuse(out, &Refusal::memory()),
    };
    match carry_out(ready, disk, sources) {
        Ok(()) => check_made(alloc, seed, front.as_str(), definitions, disk, sources, out),
        Err(fault) => refuse_fault(out, &fault),
    }
}

// All memory for carrying out a plan, and the front of the summary.
fn prepared(
    alloc: Global,
    number: u8,
    definitions: &Definitions,
    planned: &Planned,
) -> Result<(Ready, Text), Memory>
    requires { CanPrepare definitions.now.list planned.now }
    ensures fits { PlanFits planned.now }
    ensures ready { IfOk result (λ made. IsReadyFor planned.now.plan planned.now.seen definitions.now.list made.0) }
    ensures front { IfOk result (λ made. made.1 ≡ front_text number planned.now) }
{
    let plan = &planned.plan;
    plan_fits(plan);
    let ready = prepare(alloc, plan, &planned.seen, definitions.list.as_slice())?;
    let writes = ready.writes();
    let front = front(alloc, number, plan, writes)?;
    Ok((ready, front))
}

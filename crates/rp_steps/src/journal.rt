ghost use Rattle.std.specs.Prelude.{◌≡◌, ◌++◌, ◌^◌, ◌<◌, IfOk, OnOk};
ghost use Rattle.rp_base.specs.Plan.{IsWellFormed};
ghost use Rattle.rp_steps.specs.Steps.{growth, mbr_phases, steps as steps_for, synced, writes_mbr as writes_mbr_of};
ghost use Rattle.rp_steps.specs.Writes.{AreCountable};

use crate::Step;
use crate::contents::push_contents;
use crate::copies::{extend, push_copies};
use rp_base::{List, Mbr, Memory, Plan, SECTOR, Seen};
use std::alloc::Global;

// An image that grows gets its length.
#[tactic(auto, unfolding(crate::specs::Steps::growth))]
fn push_growth(steps: &mut List<Step>, plan: &Plan, seen: &Seen) -> Result<(), Memory>
    requires { plan.now.target < 2 ^ 55 }
    ensures { OnOk result (steps.new ≡ steps.old ++ synced (growth plan.now seen.now)) }
{
    if plan.target <= seen.sectors {
        return Ok(());
    }
    let len = SECTOR * plan.target;
    extend(steps, &[Step::Grow { len }, Step::Sync])
}

// The protective MBR is to be written.
#[tactic(auto, unfolding(crate::specs::Steps::writes_mbr))]
fn writes_mbr(plan: &Plan, seen: &Seen) -> bool
    ensures { result ≡ writes_mbr_of plan.now seen.now seen.now.mbr }
{
    match seen.mbr {
        Mbr::Foreign => false,
        Mbr::Differs => true,
        Mbr::Same => plan.target != seen.sectors,
    }
}

// The protective MBR, where it is to be written.
#[tactic(auto, unfolding(crate::specs::Steps::mbr_phases))]
fn push_mbr(steps: &mut List<Step>, plan: &Plan, seen: &Seen) -> Result<(), Memory>
    ensures { OnOk result (steps.new ≡ steps.old ++ synced (mbr_phases plan.now seen.now)) }
{
    if writes_mbr(plan, seen) {
        return extend(steps, &[Step::Mbr, Step::Sync]);
    }
    Ok(())
}

/// The steps that carry out a plan on an image of which this was seen: its growth, the contents of new rows, the copies of
/// the table and the protective MBR, as far as there is something to do. The copy that isn't shown is written first.
pub fn steps_of(alloc: Global, plan: &Plan, seen: &Seen) -> Result<List<Step>, Memory>
    requires { IsWellFormed seen.now plan.now }
    ensures steps { IfOk result (λ steps. steps ≡ steps_for plan.now seen.now) }
    // So that their writes can be counted.
    ensures countable { IfOk result AreCountable }
{
    let mut steps = List::new(alloc);
    push_growth(&mut steps, plan, seen)?;
    push_contents(&mut steps, plan)?;
    push_copies(&mut steps, plan, seen)?;
    push_mbr(&mut steps, plan, seen)?;
    Ok(steps)
}

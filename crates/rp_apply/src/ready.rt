ghost use Rattle.std.specs.Prelude.{◌≡◌, ◌≤◌, All, IfOk, length};
ghost use Rattle.rp_base.specs.Plan.{IsWellFormed, noted_of};
ghost use Rattle.rp_stops.specs.Order.{target_sectors as target_sectors_of};
ghost use Rattle.rp_steps.specs.Writes.{writes as writes_in};
ghost use Rattle.rp_apply.specs.Ready.{IsReady, IsReadyFor};
ghost use Rattle.rp_region.specs.Region.{HoldsCopies};
ghost use Rattle.rp_apply.specs.Sourced.{NamesSource};

use crate::numbers::plan_fits;
use crate::paths::paths_of;
use rp_base::{List, Memory, Plan, Seen, Text, sector_units};
use rp_defs::Definition;
use rp_pool::Pool;
use rp_region::{Blocks, new_blocks, write_copies};
use rp_steps::{Step, steps_of, writes_of};
use std::alloc::Global;

/// A plan that can be carried out without memory: the plan, what was seen of its image, its steps, the paths of their
/// sources, and the blocks with both copies of the goal.
pub struct Ready {
    pub(crate) plan: Plan,
    pub(crate) seen: Seen,
    pub(crate) steps: List<Step>,
    pub(crate) paths: List<Text>,
    pub(crate) blocks: Blocks,
}

impl Drop for Ready {
    ghost use Rattle.rp_region.specs.Region.{IsLeased};

    fn drop(self)
        requires { IsLeased self.blocks }
    {
        let Ready {
            plan: _,
            seen: _,
            steps: _,
            paths: _,
            blocks: _,
        } = self;
    }
}

/// Takes all the memory that carrying out a plan needs. Each note with a source names a definition that has one.
pub fn prepare(
    alloc: Global,
    plan: &Plan,
    seen: &Seen,
    defs: &[Definition],
) -> Result<Ready, Memory>
    requires well_formed { IsWellFormed seen.now plan.now }
    requires sources { All (NamesSource defs.now) plan.now.notes }
    ensures { IfOk result (IsReadyFor plan.now seen.now defs.now) }
{
    plan_fits(plan);
    let steps = steps_of(alloc, plan, seen)?;
    let paths = paths_of(alloc, defs)?;
    let kept = copy_of_plan(alloc, plan)?;
    let seen = copy_of_seen(alloc, seen)?;
    let mut blocks = new_blocks(alloc)?;
    write_copies(&mut blocks, &plan.goal, target_sectors(plan));
    Ok(Ready {
        plan: kept,
        seen,
        steps,
        paths,
        blocks,
    })
}

// The sectors of the target.
pub(crate) fn target_sectors(plan: &Plan) -> u64
    requires { 512 ≤ plan.now.goal.sector }
    ensures { result ≡ target_sectors_of plan.now }
{
    plan.target / sector_units(plan.goal.sector)
}

// An equal plan.
fn copy_of_plan(alloc: Global, plan: &Plan) -> Result<Plan, Memory>
    ensures { IfOk result (λ copy. copy ≡ plan.now) }
{
    Ok(Plan {
        target: plan.target,
        goal: plan.goal.copy(alloc)?,
        notes: List::from_vec(plan.notes.as_slice().to_vec(alloc)?),
        dropped: List::from_vec(plan.dropped.as_slice().to_vec(alloc)?),
        threshold: plan.threshold,
    })
}

// An equal record of what was seen.
fn copy_of_seen(alloc: Global, seen: &Seen) -> Result<Seen, Memory>
    ensures { IfOk result (λ copy. copy ≡ seen.now) }
{
    Ok(Seen {
        sectors: seen.sectors,
        shown: seen.shown.copy(alloc)?,
        origin: seen.origin,
        primary_same: seen.primary_same,
        backup_same: seen.backup_same,
        mbr: seen.mbr,
    })
}

impl Ready {
    /// How many steps it has.
    pub fn steps(&self) -> u64
        ensures { result ≡ length self.now.steps }
    {
        self.steps.len() as u64
    }

    /// How many writes its steps are.
    pub fn writes(&self) -> u64
        requires { IsReady self.now }
        ensures { result ≡ writes_in self.now.steps }
    {
        writes_of(self.steps.as_slice())
    }

    /// The region, all of whose blocks are out. It holds the exact primary copy of the goal from block 0, and the exact
    /// backup copy from block 33.
    pub fn region(&self) -> &Pool
        requires { IsReady self.now }
        ensures region { result.now ≡ self.now.blocks.pool }
        ensures copies { HoldsCopies self.now.plan.goal (target_sectors_of self.now.plan) result.now }
    {
        &self.blocks.pool
    }
}

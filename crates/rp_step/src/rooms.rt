//! What the blocks hold.

ghost use Rattle.std.specs.Prelude.{◌≡◌, ◌≤◌, length, take};
ghost use Rattle.rp_base.specs.Geometry.{IsSector, copy_bytes as copy_bytes_of};
ghost use Rattle.rp_gpt.specs.Copy.{exact};
ghost use Rattle.rp_stops.specs.Order.{target_sectors as target_sectors_of};
ghost use Rattle.rp_step.specs.Stocked.{CanWrite, IsStocked};

use rp_base::{Plan, Which, copy_bytes};
use rp_region::Blocks;

// The exact copy of the goal for a place.
pub fn copy_for<'a>(blocks: &'a Blocks, plan: &Plan, which: Which) -> &'a [u8]
    requires goal { CanWrite plan.now }
    requires stocked { IsStocked plan.now blocks.now }
    ensures copy { result.now ≡ exact plan.now.goal which (target_sectors_of plan.now) }
    ensures size { length result.now ≡ copy_bytes_of plan.now.goal.entries plan.now.goal.sector }
{
    match which {
        Which::Primary => copy_in(blocks.pool.bytes(&blocks.primary), plan),
        Which::Backup => copy_in(blocks.pool.bytes(&blocks.backup), plan),
    }
}

// The copy with which a run begins.
fn copy_in<'a>(run: &'a [u8], plan: &Plan) -> &'a [u8]
    requires sector { IsSector plan.now.goal.sector }
    requires room { copy_bytes_of plan.now.goal.entries plan.now.goal.sector ≤ length run.now }
    ensures { result.now ≡ take (copy_bytes_of plan.now.goal.entries plan.now.goal.sector) run.now }
{
    run.split_at(copy_bytes(plan.goal.entries, plan.goal.sector))
        .0
}

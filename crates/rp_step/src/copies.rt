//! The steps that no source and no data row has a part in, and that need no room.

ghost use Rattle.std.specs.Prelude.{◌≡◌, ◌*◌, ◌≤◌, ◌∷◌, [], length};
ghost use Rattle.rp_base.specs.Faults.{HasCause};
ghost use Rattle.rp_disk.specs.Device.{Earlier, StaysInsideWhere};
ghost use Rattle.rp_disk.specs.History.{held};
ghost use Rattle.rp_disk.specs.Runs.{Runs};
ghost use Rattle.rp_stops.specs.Order.{array_call, header_call};
ghost use Rattle.rp_step.specs.Stocked.{CanWrite, IsStocked};

use crate::rooms::copy_for;
use rp_base::{Failed, Plan, Which};
use rp_copies::{write_array, write_header};
use rp_disk::Disk;
use rp_region::Blocks;

// Writes the array of a place.
pub fn array<D: Disk>(
    disk: &mut D,
    plan: &Plan,
    blocks: &Blocks,
    which: Which,
) -> Result<(), Failed>
    requires stocked { IsStocked plan.now blocks.now }
    requires goal { CanWrite plan.now }
    ensures earlier { Earlier (D.device disk.old) (D.device disk.new) }
    ensures ran { Runs (D.device disk.old).calls (array_call plan.now which ∷ []) (D.device disk.new).calls result }
    ensures inside { StaysInsideWhere (D.device disk.old) (D.device disk.new) (λ h. 512 * plan.now.target ≤ length (held h)) }
    ensures cause { HasCause (D.device disk.old).faults (D.device disk.new).faults result }
{
    write_array(disk, plan, which, copy_for(blocks, plan, which))
}

// Writes the header of a place.
pub fn header<D: Disk>(
    disk: &mut D,
    plan: &Plan,
    blocks: &Blocks,
    which: Which,
) -> Result<(), Failed>
    requires stocked { IsStocked plan.now blocks.now }
    requires goal { CanWrite plan.now }
    ensures earlier { Earlier (D.device disk.old) (D.device disk.new) }
    ensures ran { Runs (D.device disk.old).calls (header_call plan.now which ∷ []) (D.device disk.new).calls result }
    ensures inside { StaysInsideWhere (D.device disk.old) (D.device disk.new) (λ h. 512 * plan.now.target ≤ length (held h)) }
    ensures cause { HasCause (D.device disk.old).faults (D.device disk.new).faults result }
{
    write_header(disk, plan, which, copy_for(blocks, plan, which))
}

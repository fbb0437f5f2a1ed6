ghost use Rattle.std.specs.Prelude.{◌≡◌, ◌+◌, ◌*◌, ◌^◌, ◌≤◌, ◌∷◌, [], length};
ghost use Rattle.rp_base.specs.Faults.{HasCause};
ghost use Rattle.rp_base.specs.Geometry.{array_sectors as array_sectors_of, copy_bytes as copy_bytes_of};
ghost use Rattle.rp_disk.specs.Device.{Earlier, StaysInsideWhere};
ghost use Rattle.rp_disk.specs.History.{held};
ghost use Rattle.rp_disk.specs.Runs.{Runs};
ghost use Rattle.rp_gpt.specs.Copy.{exact};
ghost use Rattle.rp_stops.specs.Order.{array_call, array_offset as array_offset_of, close_call, header_call, header_offset as header_offset_of, mbr_call, target_sectors as target_sectors_of};
ghost use Rattle.rp_copies.specs.Room.{HasRoom};

use crate::parts::{array_of, header_of};
use rp_base::{Failed, Plan, Which, array_place, header_place, sector_units};
use rp_disk::Disk;
use rp_gpt::mbr_bytes;

/// Closes the header of a place: its sector is written with zeros.
pub fn close_header<D: Disk>(disk: &mut D, plan: &Plan, which: Which) -> Result<(), Failed>
    requires { HasRoom plan.now }
    ensures earlier { Earlier (D.device disk.old) (D.device disk.new) }
    ensures ran { Runs (D.device disk.old).calls (close_call plan.now which ∷ []) (D.device disk.new).calls result }
    ensures inside { StaysInsideWhere (D.device disk.old) (D.device disk.new) (λ h. 512 * plan.now.target ≤ length (held h)) }
    ensures cause { HasCause (D.device disk.old).faults (D.device disk.new).faults result }
{
    let sector = plan.goal.sector;
    let zeros = [0; 4096];
    disk.write(header_offset(plan, which), &zeros[..sector as usize])?;
    Ok(())
}

/// Writes the array of a place, of this exact copy of the goal.
pub fn write_array<D: Disk>(
    disk: &mut D,
    plan: &Plan,
    which: Which,
    copy: &[u8],
) -> Result<(), Failed>
    requires room { HasRoom plan.now }
    requires size { length copy.now ≡ copy_bytes_of plan.now.goal.entries plan.now.goal.sector }
    requires copy { copy.now ≡ exact plan.now.goal which (target_sectors_of plan.now) }
    ensures earlier { Earlier (D.device disk.old) (D.device disk.new) }
    ensures ran { Runs (D.device disk.old).calls (array_call plan.now which ∷ []) (D.device disk.new).calls result }
    ensures inside { StaysInsideWhere (D.device disk.old) (D.device disk.new) (λ h. 512 * plan.now.target ≤ length (held h)) }
    ensures cause { HasCause (D.device disk.old).faults (D.device disk.new).faults result }
{
    let array = array_of(copy, which, plan.goal.sector);
    disk.write(array_offset(plan, which), array)?;
    Ok(())
}

/// Writes the header of a place, of this exact copy of the goal, which opens it.
pub fn write_header<D: Disk>(
    disk: &mut D,
    plan: &Plan,
    which: Which,
    copy: &[u8],
) -> Result<(), Failed>
    requires room { HasRoom plan.now }
    requires size { length copy.now ≡ copy_bytes_of plan.now.goal.entries plan.now.goal.sector }
    requires copy { copy.now ≡ exact plan.now.goal which (target_sectors_of plan.now) }
    ensures earlier { Earlier (D.device disk.old) (D.device disk.new) }
    ensures ran { Runs (D.device disk.old).calls (header_call plan.now which ∷ []) (D.device disk.new).calls result }
    ensures inside { StaysInsideWhere (D.device disk.old) (D.device disk.new) (λ h. 512 * plan.now.target ≤ length (held h)) }
    ensures cause { HasCause (D.device disk.old).faults (D.device disk.new).faults result }
{
    let header = header_of(copy, which, plan.goal.sector);
    disk.write(header_offset(plan, which), header)?;
    Ok(())
}

/// Writes the record of the protective MBR and its signature (UEFI 2.10, 5.2.3).
pub fn write_mbr<D: Disk>(disk: &mut D, plan: &Plan) -> Result<(), Failed>
    requires { HasRoom plan.now }
    ensures earlier { Earlier (D.device disk.old) (D.device disk.new) }
    ensures ran { Runs (D.device disk.old).calls (mbr_call plan.now ∷ []) (D.device disk.new).calls result }
    ensures inside { StaysInsideWhere (D.device disk.old) (D.device disk.new) (λ h. 512 * plan.now.target ≤ length (held h)) }
    ensures cause { HasCause (D.device disk.old).faults (D.device disk.new).faults result }
{
    disk.write(446, &mbr_bytes(target_sectors(plan)))?;
    Ok(())
}

// The sectors of the target.
fn target_sectors(plan: &Plan) -> u64
    requires { HasRoom plan.now }
    ensures { result ≡ target_sectors_of plan.now }
{
    plan.target / sector_units(plan.goal.sector)
}

// The first byte of a header.
fn header_offset(plan: &Plan, which: Which) -> u64
    requires { HasRoom plan.now }
    ensures place { result ≡ header_offset_of plan.now.goal.sector (target_sectors_of plan.now) which }
    ensures within { result + plan.now.goal.sector ≤ 512 * plan.now.target }
{
    u64::from(plan.goal.sector) * header_place(which, target_sectors(plan))
}

// The first byte of an array.
fn array_offset(plan: &Plan, which: Which) -> u64
    requires { HasRoom plan.now }
    ensures place { result ≡ array_offset_of plan.now.goal.sector plan.now.goal.entries (target_sectors_of plan.now) which }
    ensures within { result + plan.now.goal.sector * array_sectors_of plan.now.goal.sector plan.now.goal.entries ≤ 512 * plan.now.target }
{
    let sector = plan.goal.sector;
    let place = array_place(which, sector, plan.goal.entries, target_sectors(plan));
    u64::from(sector) * place
}

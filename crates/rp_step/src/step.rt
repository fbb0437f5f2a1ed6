ghost use Rattle.std.specs.Prelude.{Option, ◌≡◌, IfSome, length};
ghost use Rattle.rp_base.specs.Faults.{HasCause};
ghost use Rattle.rp_disk.specs.Device.{Earlier, IsPossible, StaysInsideWhere, missed_by};
ghost use Rattle.rp_disk.specs.History.{held};
ghost use Rattle.rp_disk.specs.Made.{Past, history_told};
ghost use Rattle.rp_disk.specs.Runs.{Runs};
ghost use Rattle.rp_step.specs.Causes.{HasDiskCause, HasSourceCause};
ghost use Rattle.rp_step.specs.Found.{CanMake, Found, HasFile, IsFixed, LiesIn, calls_with, nothing_found, outside_of};
ghost use Rattle.rp_step.specs.Made.{MakesStep};
ghost use Rattle.rp_step.specs.Stocked.{CanWrite, IsStocked};

use crate::ApplyFault;
use crate::contents::{copy, tree, zero};
use crate::copies::{array, header};
use crate::fault::{of_disk, of_fill, of_tree};
use crate::paths::path;
use rp_base::{Failed, List, Plan, Text, Which};
use rp_copies::{close_header, write_mbr};
use rp_disk::Disk;
use rp_format::TreePlan;
use rp_io::Sources;
use rp_region::Blocks;
use rp_steps::Step;

/// Makes the calls of a step. The blocks hold both copies of the goal, and have room for a piece and for a tree.
pub fn make_step<D: Disk, S: Sources>(
    disk: &mut D,
    sources: &mut S,
    plan: &Plan,
    paths: &List<Text>,
    blocks: &mut Blocks,
    step: &Step,
) -> Result<(), ApplyFault>
    requires goal { CanWrite plan.now }
    requires stocked { IsStocked plan.now blocks.old }
    requires can { CanMake paths.now step.now }
    ensures stocked { IsStocked plan.now blocks.new }
    ensures earlier { Earlier (D.device disk.old) (D.device disk.new) }
    ensures told { S.told sources.new ≡ S.told sources.old }
    ensures made { (o : Option Past) → IsPossible o (D.device disk.new)
        → (found : Found) × MakesStep plan.now (outside_of (S.told sources.old) paths.now o) step.now found
        (D.device disk.old).calls (D.device disk.new).calls result }
    ensures disk_strays { (o : Option Past) → IsPossible o (D.device disk.new) → IfSome (history_told o (D.device disk.old).calls)
        (λ h. LiesIn plan.now (length (held h)) step.now → missed_by o (D.device disk.new).answers ≡ missed_by o (D.device disk.old).answers) }
    ensures source_strays { IfSome (S.told sources.old) (λ files. HasFile files paths.now step.now
        → S.strays sources.new ≡ S.strays sources.old) }
    ensures disk_cause { HasDiskCause (D.device disk.old).faults (D.device disk.new).faults result }
    ensures source_cause { HasSourceCause (S.faults sources.old) (S.faults sources.new) result }
{
    match *step {
        Step::Copy { file, at, len } => {
            of_fill(copy(disk, sources, path(paths, file), blocks, at, len))
        }
        Step::Tree {
            data_at,
            hash_at,
            blocks: count,
            salt,
            uuid,
            root,
        } => {
            let plan = TreePlan {
                data_at,
                hash_at,
                blocks: count,
                salt,
                uuid,
                root,
            };
            of_tree(tree(disk, blocks, &plan), root)
        }
        _ => of_disk(make_fixed(disk, plan, blocks, step)),
    }
}

// Makes the calls of a step that no source and no data row has a part in.
fn make_fixed<D: Disk>(
    disk: &mut D,
    plan: &Plan,
    blocks: &mut Blocks,
    step: &Step,
) -> Result<(), Failed>
    requires goal { CanWrite plan.now }
    requires stocked { IsStocked plan.now blocks.old }
    requires fixed { IsFixed step.now }
    ensures stocked { IsStocked plan.now blocks.new }
    ensures earlier { Earlier (D.device disk.old) (D.device disk.new) }
    ensures ran { Runs (D.device disk.old).calls (calls_with plan.now nothing_found step.now) (D.device disk.new).calls result }
    ensures inside { StaysInsideWhere (D.device disk.old) (D.device disk.new) (λ h. LiesIn plan.now (length (held h)) step.now) }
    ensures cause { HasCause (D.device disk.old).faults (D.device disk.new).faults result }
{
    match *step {
        Step::Grow { len } => disk.set_len(len),
        Step::Zero { at, len } => zero(disk, blocks, at, len),
        Step::ClosePrimary => close_header(disk, plan, Which::Primary),
        Step::ArrayPrimary => array(disk, plan, blocks, Which::Primary),
        Step::HeaderPrimary => header(disk, plan, blocks, Which::Primary),
        Step::CloseBackup => close_header(disk, plan, Which::Backup),
        Step::ArrayBackup => array(disk, plan, blocks, Which::Backup),
        Step::HeaderBackup => header(disk, plan, blocks, Which::Backup),
        Step::Mbr => write_mbr(disk, plan),
        Step::Sync => disk.sync(),
        Step::Copy { .. } | Step::Tree { .. } => unreachable!(),
    }
}

ghost use Rattle.std.specs.Prelude.{◌≡◌, ◌+◌, ◌++◌, ◌^◌, ◌≤◌, ◌<◌, ◌==◌, [], All, OnOk, find, flat_map, if◌then◌else◌, length};
ghost use Rattle.std.specs.Option.{option_copied};
ghost use Rattle.rp_base.specs.Plan.{noted_of};
ghost use Rattle.rp_steps.specs.Planned.{IsPlanned};
ghost use Rattle.rp_steps.specs.Steps.{byte_of_slot as byte_of_slot_of, contents_steps, copy_steps, is_new as is_new_of, new_rows, payload_steps, phase_of, rest_steps, synced, tree_steps, zero_steps};

use crate::Step;
use rp_base::{Change, GRAIN, List, Memory, Note, Plan, Role, Row, SECTOR};
use rp_verity::hash_blocks;

// The bytes that are wiped at each end of a long rest.
const MEBIBYTE: u64 = 1 << 20;

// The shown table has no row in the slot.
pub fn is_new(change: Change) -> bool
    ensures { result ≡ is_new_of change }
{
    matches!(change, Change::New)
}

// The source is copied to the row's beginning, where it has bytes.
#[tactic(auto, unfolding(crate::specs::Steps::copy_steps))]
fn push_copy(steps: &mut List<Step>, row: &Row, note: &Note) -> Result<(), Memory>
    requires { IsPlanned (row.now, note.now) }
    ensures { OnOk result (steps.new ≡ steps.old ++ copy_steps (row.now, note.now)) }
{
    let len = note.source.unwrap_or(0);
    match note.file {
        Some(file) if len != 0 => steps.push(Step::Copy {
            file,
            at: SECTOR * row.start,
            len,
        }),
        _ => Ok(()),
    }
}

// Zeros from a place on, where they are any.
#[tactic(auto, unfolding(crate::specs::Steps::zero_steps))]
fn push_zero(steps: &mut List<Step>, at: u64, len: u64) -> Result<(), Memory>
    ensures { OnOk result (steps.new ≡ steps.old ++ zero_steps at len) }
{
    if len == 0 {
        return Ok(());
    }
    steps.push(Step::Zero { at, len })
}

// The rest of a row is wiped: whole, but of more than 2 MiB of a plain row the first and the last one alone.
#[tactic(auto, unfolding(crate::specs::Steps::rest_steps, crate::specs::Steps::mebibyte))]
fn push_rest(steps: &mut List<Step>, role: Role, at: u64, len: u64) -> Result<(), Memory>
    requires { at + len < 2 ^ 64 }
    ensures { OnOk result (steps.new ≡ steps.old ++ rest_steps role at len) }
{
    match role {
        Role::Plain if len > 2 * MEBIBYTE => {
            steps.push(Step::Zero { at, len: MEBIBYTE })?;
            steps.push(Step::Zero {
                at: at + (len - MEBIBYTE),
                len: MEBIBYTE,
            })
        }
        _ => push_zero(steps, at, len),
    }
}

// The contents of a new row that holds no tree.
#[tactic(auto, unfolding(crate::specs::Steps::payload_steps))]
fn push_payload(steps: &mut List<Step>, row: &Row, note: &Note) -> Result<(), Memory>
    requires { IsPlanned (row.now, note.now) }
    ensures { OnOk result (steps.new ≡ steps.old ++ (if is_new_of note.now.change
        then payload_steps (row.now, note.now) note.now.role else [])) }
{
    if !is_new(note.change) {
        return Ok(());
    }
    if let Role::Hash { .. } = note.role {
        return Ok(());
    }
    let len = note.source.unwrap_or(0);
    push_copy(steps, row, note)?;
    push_rest(
        steps,
        note.role,
        SECTOR * row.start + len,
        SECTOR * row.size - len,
    )
}

// The row of a slot.
fn row_of_slot(rows: &[Row], slot: u16) -> Option<&Row>
    ensures { option_copied result ≡ find (λ row. row.slot == slot) rows.now }
{
    rows.iter().find(|row| row.slot == slot)
}

// The first byte of the row of a slot.
fn byte_of_slot(rows: &[Row], slot: u16) -> u64
    requires { All (λ row. row.start < 2 ^ 55) rows.now }
    ensures { result ≡ byte_of_slot_of rows.now slot }
{
    match row_of_slot(rows, slot) {
        Some(row) => SECTOR * row.start,
        None => 0,
    }
}

// The tree over the blocks of a new row's partner, and zeros behind it.
#[tactic(auto, unfolding(crate::specs::Steps::tree_steps))]
fn push_tree(steps: &mut List<Step>, plan: &Plan, row: &Row, note: &Note) -> Result<(), Memory>
    requires planned { IsPlanned (row.now, note.now) }
    requires starts { All (λ row. row.start < 2 ^ 55) plan.now.goal.rows }
    ensures { OnOk result (steps.new ≡ steps.old ++ (if is_new_of note.now.change
        then tree_steps plan.now.goal.rows row.now note.now.role else [])) }
{
    if !is_new(note.change) {
        return Ok(());
    }
    match note.role {
        Role::Hash {
            partner,
            blocks,
            salt,
            uuid,
            root,
        } => {
            let at = SECTOR * row.start;
            steps.push(Step::Tree {
                data_at: byte_of_slot(plan.goal.rows.as_slice(), partner),
                hash_at: at,
                blocks,
                salt,
                uuid,
                root,
            })?;
            let len = GRAIN * hash_blocks(blocks);
            push_zero(steps, at + len, SECTOR * row.size - len)
        }
        _ => Ok(()),
    }
}

// The contents of the new rows that hold no trees.
fn push_payloads(steps: &mut List<Step>, plan: &Plan) -> Result<(), Memory>
    requires planned { All IsPlanned (noted_of plan.now) }
    requires notes { length plan.now.notes ≡ length plan.now.goal.rows }
    ensures { OnOk result (steps.new ≡ steps.old ++ flat_map (λ noted. payload_steps noted noted.1.role) (new_rows plan.now)) }
{
    let notes = plan.notes.as_slice();
    for (place, row) in plan.goal.rows.as_slice().iter().enumerate() {
        push_payload(steps, row, &notes[place])?;
    }
    Ok(())
}

// The contents of the new rows that hold trees.
fn push_trees(steps: &mut List<Step>, plan: &Plan) -> Result<(), Memory>
    requires planned { All IsPlanned (noted_of plan.now) }
    requires notes { length plan.now.notes ≡ length plan.now.goal.rows }
    requires starts { All (λ row. row.start < 2 ^ 55) plan.now.goal.rows }
    ensures { OnOk result (steps.new ≡ steps.old ++ flat_map
        (λ noted. tree_steps plan.now.goal.rows noted.0 noted.1.role) (new_rows plan.now)) }
{
    let notes = plan.notes.as_slice();
    for (place, row) in plan.goal.rows.as_slice().iter().enumerate() {
        push_tree(steps, plan, row, &notes[place])?;
    }
    Ok(())
}

// The contents of all new rows, and a sync, where they are any.
pub fn push_contents(steps: &mut List<Step>, plan: &Plan) -> Result<(), Memory>
    requires planned { All IsPlanned (noted_of plan.now) }
    requires notes { length plan.now.notes ≡ length plan.now.goal.rows }
    requires starts { All (λ row. row.start < 2 ^ 55) plan.now.goal.rows }
    ensures { OnOk result (steps.new ≡ steps.old ++ synced (phase_of (contents_steps plan.now))) }
{
    let before = steps.len();
    push_payloads(steps, plan)?;
    push_trees(steps, plan)?;
    if steps.len() == before {
        return Ok(());
    }
    steps.push(Step::Sync)?;
    Ok(())
}

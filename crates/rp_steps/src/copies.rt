ghost use Rattle.std.specs.Prelude.{◌≡◌, ◌∷◌, ◌++◌, ◌||◌, [], OnOk, filter, flat_map, not};
ghost use Rattle.rp_steps.specs.Steps.{copy_order as copy_order_of, copy_phases, is_neither as is_neither_of, is_same as is_same_of, synced, writes_both as writes_both_of, written_copies};

use crate::Step;
use crate::same::same_table;
use rp_base::{List, Memory, Origin, Plan, Seen, Which};

// More steps.
pub fn extend(steps: &mut List<Step>, more: &[Step]) -> Result<(), Memory>
    ensures { OnOk result (steps.new ≡ steps.old ++ more.now) }
{
    for step in more {
        steps.push(*step)?;
    }
    Ok(())
}

// No copy is shown.
fn is_neither(origin: Origin) -> bool
    ensures { result ≡ is_neither_of origin }
{
    matches!(origin, Origin::Neither)
}

// Whether both copies are written.
#[tactic(auto, unfolding(crate::specs::Steps::writes_both))]
fn writes_both(plan: &Plan, seen: &Seen) -> bool
    ensures { result ≡ writes_both_of plan.now seen.now }
{
    !same_table(&plan.goal, &seen.shown) || plan.target != seen.sectors || is_neither(seen.origin)
}

// The place holds the exact copy of the shown table.
fn is_same(seen: &Seen, which: Which) -> bool
    ensures { result ≡ is_same_of seen.now which }
{
    match which {
        Which::Primary => seen.primary_same,
        Which::Backup => seen.backup_same,
    }
}

// The copy that isn't shown is written first.
fn copy_order(origin: Origin) -> (Which, Which)
    ensures { result.0 ∷ result.1 ∷ [] ≡ copy_order_of origin }
{
    match origin {
        Origin::Backup => (Which::Primary, Which::Backup),
        _ => (Which::Backup, Which::Primary),
    }
}

// A copy: its header is closed, its array is written, its header is opened.
fn push_copy(steps: &mut List<Step>, which: Which) -> Result<(), Memory>
    ensures { OnOk result (steps.new ≡ steps.old ++ synced (copy_phases which)) }
{
    let (close, array, header) = match which {
        Which::Primary => (Step::ClosePrimary, Step::ArrayPrimary, Step::HeaderPrimary),
        Which::Backup => (Step::CloseBackup, Step::ArrayBackup, Step::HeaderBackup),
    };
    extend(
        steps,
        &[close, Step::Sync, array, Step::Sync, header, Step::Sync],
    )
}

// A copy, where both are written or the place doesn't hold it.
fn push_unless_same(
    steps: &mut List<Step>,
    both: bool,
    seen: &Seen,
    which: Which,
) -> Result<(), Memory>
    ensures { OnOk result (steps.new ≡ steps.old ++ synced
        (flat_map copy_phases (filter (λ each. both || not (is_same_of seen.now each)) (which ∷ [])))) }
{
    if both || !is_same(seen, which) {
        return push_copy(steps, which);
    }
    Ok(())
}

// The copies that are written, in their order.
pub fn push_copies(steps: &mut List<Step>, plan: &Plan, seen: &Seen) -> Result<(), Memory>
    ensures { OnOk result (steps.new ≡ steps.old ++ synced (flat_map copy_phases (written_copies plan.now seen.now))) }
{
    let both = writes_both(plan, seen);
    let (first, second) = copy_order(seen.origin);
    push_unless_same(steps, both, seen, first)?;
    push_unless_same(steps, both, seen, second)?;
    Ok(())
}

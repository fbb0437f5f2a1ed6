ghost use Rattle.std.specs.Prelude.{◌≡◌, ◌≤◌, IfOk, IfSome, length};
ghost use Rattle.rp_base.specs.Answers.{Gives};
ghost use Rattle.rp_base.specs.Plan.{Fits};
ghost use Rattle.rp_defs.specs.WellFormed.{IsWellFormed};
ghost use Rattle.rp_plan.specs.Plannable.{IsPlannable};
ghost use Rattle.rp_reset.specs.Reset.{plan_to, plan_where, reset as reset_of, slots_out as slots_out_of, table_left, taken_out as taken_out_of};

use crate::mix::mix;
use crate::rows::{left_notes, rows_left, slots_out};
use rp_areas::assign;
use rp_base::{List, Memory, Plan, Seen, Table};
use rp_defs::Definition;
use rp_demand::Demand;
use rp_sizes::kinds;
use std::alloc::Global;

/// The plan that takes the rows of definitions with `FactoryReset=yes` out of the table, on the image's own length; none
/// where no such definition has a row. Or else it answers the demand of the least definition that has the type of an
/// earlier one and another `FactoryReset=`.
pub fn reset(alloc: Global, seen: &Seen, defs: &[Definition]) -> Result<Option<Plan>, Demand>
    requires seen { IsPlannable seen.now }
    requires defs { IsWellFormed defs.now }
    ensures reset { Gives Demand.Memory (reset_of seen.now defs.now) result }
    ensures fits { IfOk result (λ plan. IfSome plan (Fits seen.now)) }
{
    if let Some(demand) = mix(defs) {
        return Err(demand);
    }
    let kinds = kinds(alloc, defs)?;
    let matched = assign(alloc, &seen.shown, kinds.as_slice())?;
    let plan = plan_without(alloc, seen, matched.as_slice(), defs)?;
    Ok(plan)
}

// The plan without these rows, if there are any, by the places of the rows that definitions have.
fn plan_without(
    alloc: Global,
    seen: &Seen,
    matched: &[Option<u16>],
    defs: &[Definition],
) -> Result<Option<Plan>, Memory>
    requires rows { length seen.now.shown.rows ≤ 1024 }
    requires defs { length defs.now ≤ 256 }
    ensures { IfOk result (λ plan. plan ≡ plan_where (slots_out_of matched.now defs.now seen.now.shown.rows)
        (plan_to seen.now (table_left seen.now.shown matched.now defs.now))) }
{
    let rows = seen.shown.rows.as_slice();
    if slots_out(alloc, matched, defs, rows)?.is_empty() {
        return Ok(None);
    }
    let left = rows_left(alloc, matched, defs, rows)?;
    let notes = left_notes(alloc, left.as_slice())?;
    let goal = Table {
        sector: seen.shown.sector,
        entries: seen.shown.entries,
        disk: seen.shown.disk,
        first: seen.shown.first,
        last: seen.shown.last,
        rows: left,
    };
    Ok(Some(Plan {
        target: seen.sectors,
        goal,
        notes,
        dropped: List::new(alloc),
        threshold: 0,
    }))
}

/// The slots of the rows that a reset takes out of a table, rising.
pub fn taken_out(alloc: Global, table: &Table, defs: &[Definition]) -> Result<List<u16>, Memory>
    requires rows { length table.now.rows ≤ 1024 }
    requires defs { length defs.now ≤ 256 }
    ensures { IfOk result (λ slots. slots ≡ taken_out_of table.now defs.now) }
{
    let kinds = kinds(alloc, defs)?;
    let matched = assign(alloc, table, kinds.as_slice())?;
    slots_out(alloc, matched.as_slice(), defs, table.rows.as_slice())
}

//! What is printed with a factory reset.

ghost use Rattle.std.specs.Prelude.{◌≡◌, ◌≤◌, IfOk, false, length};
ghost use Rattle.rp_base.specs.Plan.{IsWellFormed as IsPlan};
ghost use Rattle.rp_reset_command.specs.Carrying.{IsFormed};
ghost use Rattle.rp_reset_command.specs.Reports.{renewal_report, report_with, reset_steps, together as together_of};
ghost use Rattle.rp_steps.specs.Steps.{steps as steps_for};
ghost use Rattle.rp_steps.specs.Writes.{writes as writes_in};

use crate::Renewal;
use rp_base::{Memory, Plan, Seen, Text};
use rp_defs::Definitions;
use rp_report::plan_text;
use rp_reset::taken_out;
use rp_steps::{steps_of, writes_of};
use std::alloc::Global;

/// How many steps there are, and how many writes they take; 2^64 - 1 stands for more.
#[derive(Clone, Copy, Debug, PartialEq, Eq)]
pub(crate) struct Counts {
    pub(crate) steps: u64,
    pub(crate) writes: u64,
}

/// Both together.
pub(crate) fn together(a: Counts, b: Counts) -> Counts
    ensures steps { result.steps ≡ together_of a.steps b.steps }
    ensures writes { result.writes ≡ together_of a.writes b.writes }
{
    Counts {
        steps: a.steps.saturating_add(b.steps),
        writes: a.writes.saturating_add(b.writes),
    }
}

/// The text of a plan behind a reset, with these numbers.
pub(crate) fn text_with(
    alloc: Global,
    json: bool,
    definitions: &Definitions,
    renewal: &Renewal,
    counts: Counts,
    applied: bool,
) -> Result<Text, Memory>
    requires formed { IsFormed renewal.now }
    requires list { length definitions.now.list ≤ 256 }
    ensures { IfOk result (λ text. text ≡ report_with json definitions.now renewal.now counts.steps counts.writes applied) }
{
    let slots = taken_out(alloc, &renewal.seen.shown, definitions.list.as_slice())?;
    let plan = &renewal.planned.plan;
    let Counts { steps, writes } = counts;
    plan_text(
        alloc,
        json,
        plan,
        definitions,
        steps,
        writes,
        applied,
        Some(slots.as_slice()),
    )
}

/// The text of what is planned, with the steps and writes of both plans.
pub(crate) fn planned_text(
    alloc: Global,
    json: bool,
    definitions: &Definitions,
    renewal: &Renewal,
) -> Result<Text, Memory>
    requires formed { IsFormed renewal.now }
    requires list { length definitions.now.list ≤ 256 }
    ensures { IfOk result (λ text. text ≡ renewal_report json definitions.now renewal.now false) }
{
    let before = reset_counts(alloc, renewal)?;
    let behind = counts_of(alloc, &renewal.planned.plan, &renewal.planned.seen)?;
    text_with(
        alloc,
        json,
        definitions,
        renewal,
        together(before, behind),
        false,
    )
}

// The steps and writes of the reset, if there is one.
fn reset_counts(alloc: Global, renewal: &Renewal) -> Result<Counts, Memory>
    requires { IsFormed renewal.now }
    ensures { IfOk result (λ counts. counts ≡ record {
      steps = length (reset_steps renewal.now);
      writes = writes_in
          (reset_steps renewal.now);
    }) }
{
    match &renewal.reset {
        Some(plan) => counts_of(alloc, plan, &renewal.seen),
        None => Ok(Counts {
            steps: 0,
            writes: 0,
        }),
    }
}

// Those of a plan.
fn counts_of(alloc: Global, plan: &Plan, seen: &Seen) -> Result<Counts, Memory>
    requires { IsPlan seen.now plan.now }
    ensures { IfOk result (λ counts. counts ≡ record {
      steps = length (steps_for plan.now seen.now);
      writes = writes_in
          (steps_for plan.now seen.now);
    }) }
{
    let steps = steps_of(alloc, plan, seen)?;
    Ok(Counts {
        steps: steps.len() as u64,
        writes: writes_of(steps.as_slice()),
    })
}

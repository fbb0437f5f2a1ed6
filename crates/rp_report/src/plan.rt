ghost use Rattle.std.specs.Prelude.{◌≡◌, ◌++◌, IfOk, OnOk, length, string_bytes, zip};
ghost use Rattle.std.specs.List.{flat_map};
ghost use Rattle.std.specs.Option.{option_copied};
ghost use Rattle.rp_base.specs.Plan.{noted_of};
ghost use Rattle.rp_report.specs.Plans.{applied_line, bounds_text, change_word as change_word_of, dropped_line, file_text, ignored_line, noted_line, owner_text, plan_bytes, reset_line, reset_text, rows_text, steps_line, target_line};
ghost use Rattle.rp_report.specs.Reports.{plan_report};

use crate::names::push_guid;
use crate::plan_json::plan_json_text;
use crate::tables::push_facts;
use rp_base::{Change, Memory, Note, Plan, Row, Table, Text};
use rp_defs::{Definition, Definitions};
use std::alloc::{AllocError, Global};

/// What `plan` prints of a plan for these definitions: a line for the whole, one for each row of the goal, one for each
/// definition that gets none, one for each slot in `reset`, and how many assignments were ignored, and how many steps and
/// writes it takes. `applied` tells that all was done. `reset` are the slots that a factory reset took out, where one was
/// asked for. With `json` the same as one object.
#[tactic(auto, unfolding(crate::specs::Reports::plan_report))]
pub fn plan_text(
    alloc: Global,
    json: bool,
    plan: &Plan,
    definitions: &Definitions,
    steps: u64,
    writes: u64,
    applied: bool,
    reset: Option<&[u16]>,
) -> Result<Text, Memory>
    requires { length plan.now.notes ≡ length plan.now.goal.rows }
    ensures { IfOk result (λ text. text ≡ plan_report json plan.now definitions.now steps writes applied (option_copied reset.entry)) }
{
    let text = if json {
        plan_json_text(alloc, plan, definitions, steps, writes, applied, reset)?
    } else {
        plan_lines(alloc, plan, definitions, steps, writes, applied, reset)?
    };
    Ok(Text::from_string(text))
}

#[tactic(auto, unfolding(crate::specs::Plans::plan_bytes))]
fn plan_lines(
    alloc: Global,
    plan: &Plan,
    definitions: &Definitions,
    steps: u64,
    writes: u64,
    applied: bool,
    reset: Option<&[u16]>,
) -> Result<String, AllocError>
    requires { length plan.now.notes ≡ length plan.now.goal.rows }
    ensures { IfOk result (λ text. string_bytes text ≡ plan_bytes plan.now definitions.now steps writes applied
        (option_copied reset.entry)) }
{
    let mut text = String::new(alloc);
    push_target(&mut text, plan.target, &plan.goal)?;
    push_rows(&mut text, plan, definitions.list.as_slice())?;
    push_reset(&mut text, reset)?;
    push_counts(&mut text, definitions.ignored, steps, writes, applied)?;
    Ok(text)
}

#[tactic(auto, unfolding(crate::specs::Plans::target_line))]
fn push_target(text: &mut String, target: u64, table: &Table) -> Result<(), AllocError>
    ensures { OnOk result (string_bytes text.new ≡ string_bytes text.old ++ target_line target table.now) }
{
    push_bounds(text, target, table)?;
    text.push_str(" disk ")?;
    push_guid(text, table.disk)?;
    text.push_str("\n")
}

#[tactic(auto, unfolding(crate::specs::Plans::bounds_text))]
fn push_bounds(text: &mut String, target: u64, table: &Table) -> Result<(), AllocError>
    ensures { OnOk result (string_bytes text.new ≡ string_bytes text.old ++ bounds_text target table.now) }
{
    let first = table.first;
    let last = table.last;
    write!(text, "plan target {target} usable {first}-{last}")
}

#[tactic(auto, unfolding(crate::specs::Plans::rows_text))]
fn push_rows(text: &mut String, plan: &Plan, list: &[Definition]) -> Result<(), AllocError>
    requires { length plan.now.notes ≡ length plan.now.goal.rows }
    ensures { OnOk result (string_bytes text.new ≡ string_bytes text.old ++ rows_text list.now plan.now) }
{
    push_noted(text, plan, list)?;
    push_dropped(text, plan.dropped.as_slice(), list)
}

fn push_noted(text: &mut String, plan: &Plan, list: &[Definition]) -> Result<(), AllocError>
    requires { length plan.now.notes ≡ length plan.now.goal.rows }
    ensures { OnOk result (string_bytes text.new ≡ string_bytes text.old ++ flat_map (noted_line list.now) (noted_of plan.now)) }
{
    push_noted_rows(text, plan.goal.rows.as_slice(), plan.notes.as_slice(), list)
}

fn push_noted_rows(
    text: &mut String,
    rows: &[Row],
    notes: &[Note],
    list: &[Definition],
) -> Result<(), AllocError>
    requires { length notes.now ≡ length rows.now }
    ensures { OnOk result (string_bytes text.new ≡ string_bytes text.old ++ flat_map (noted_line list.now) (zip rows.now notes.now)) }
{
    for i in 0..rows.len() {
        push_noted_row(text, &rows[i], &notes[i], list)?;
    }
    Ok(())
}

#[tactic(auto, unfolding(crate::specs::Plans::noted_line))]
fn push_noted_row(
    text: &mut String,
    row: &Row,
    note: &Note,
    list: &[Definition],
) -> Result<(), AllocError>
    ensures { OnOk result (string_bytes text.new ≡ string_bytes text.old ++ noted_line list.now (row.now, note.now)) }
{
    let slot = row.slot;
    let change = change_word(note.change);
    let owner = owner_of(list, note.file);
    write!(text, "{slot} {change} {owner} ")?;
    push_facts(text, row)
}

pub fn change_word(change: Change) -> &'static str
    ensures { result.now ≡ change_word_of change }
{
    match change {
        Change::New => "new",
        Change::Changed => "changed",
        Change::Same => "same",
    }
}

// The name of the file of a row's definition, or a hyphen for a foreign row.
fn owner_of(list: &[Definition], file: Option<u16>) -> &str
    ensures { result.now ≡ owner_text list.now file }
{
    match file {
        Some(place) => file_of(list, place),
        None => "-",
    }
}

// The name of the file of the definition at a place.
pub fn file_of(list: &[Definition], place: u16) -> &str
    ensures { result.now ≡ file_text list.now place }
{
    match list.get(usize::from(place)) {
        Some(definition) => definition.file.as_str(),
        None => "",
    }
}

fn push_dropped(text: &mut String, dropped: &[u16], list: &[Definition]) -> Result<(), AllocError>
    ensures { OnOk result (string_bytes text.new ≡ string_bytes text.old ++ flat_map (dropped_line list.now) dropped.now) }
{
    for &place in dropped {
        push_dropped_line(text, place, list)?;
    }
    Ok(())
}

fn push_dropped_line(text: &mut String, place: u16, list: &[Definition]) -> Result<(), AllocError>
    ensures { OnOk result (string_bytes text.new ≡ string_bytes text.old ++ dropped_line list.now place) }
{
    let file = file_of(list, place);
    write!(text, "dropped {file}\n")
}

fn push_reset(text: &mut String, reset: Option<&[u16]>) -> Result<(), AllocError>
    ensures { OnOk result (string_bytes text.new ≡ string_bytes text.old ++ reset_text (option_copied reset.entry)) }
{
    match reset {
        Some(slots) => push_reset_lines(text, slots),
        None => Ok(()),
    }
}

fn push_reset_lines(text: &mut String, slots: &[u16]) -> Result<(), AllocError>
    ensures { OnOk result (string_bytes text.new ≡ string_bytes text.old ++ flat_map reset_line slots.now) }
{
    for &slot in slots {
        write!(text, "reset {slot}\n")?;
    }
    Ok(())
}

fn push_counts(
    text: &mut String,
    ignored: u32,
    steps: u64,
    writes: u64,
    applied: bool,
) -> Result<(), AllocError>
    ensures { OnOk result (string_bytes text.new
        ≡ string_bytes text.old ++ (ignored_line ignored ++ steps_line steps writes ++ applied_line applied)) }
{
    write!(text, "ignored {ignored}\nsteps {steps} writes {writes}\n")?;
    text.push_str(applied_word(applied))
}

fn applied_word(applied: bool) -> &'static str
    ensures { result.now ≡ applied_line applied }
{
    if applied { "applied\n" } else { "" }
}

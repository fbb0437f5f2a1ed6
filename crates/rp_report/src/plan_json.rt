ghost use Rattle.std.specs.Prelude.{◌≡◌, IfOk, None, OnOk, codes, length, map, string_bytes, true, zip};
ghost use Rattle.std.specs.Option.{option_copied};
ghost use Rattle.rp_base.specs.Plan.{noted_of};
ghost use Rattle.rp_report.specs.Json.{integer};
ghost use Rattle.rp_report.specs.PlanJson.{files_data, noted_data, owner_data, plan_json, plan_members as members_of_plan, slots_data, with_applied};
ghost use Rattle.rp_report.specs.Plans.{file_text};
ghost use Rattle.serde_json.specs.Data.{array, boolean, object, put as with_member, string};
ghost use Rattle.serde_json.specs.View.{items_of, members_view, view};

use crate::json::{
    Members, put_bounds, put_guid, put_hex, put_kind, put_name, put_number, put_text,
};
use crate::plan::{change_word, file_of};
use rp_base::{Note, Plan, Row};
use rp_defs::{Definition, Definitions};
use serde_json::{Map, Value, put};
use std::alloc::{AllocError, Global};

/// The JSON form of `plan_text`: an object on one line, its keys in the order of their bytes.
pub fn plan_json_text(
    alloc: Global,
    plan: &Plan,
    definitions: &Definitions,
    steps: u64,
    writes: u64,
    applied: bool,
    reset: Option<&[u16]>,
) -> Result<String, AllocError>
    requires { length plan.now.notes ≡ length plan.now.goal.rows }
    ensures { IfOk result (λ text. string_bytes text ≡ plan_json plan.now definitions.now steps writes applied
        (option_copied reset.entry)) }
{
    let value = plan_value(alloc, plan, definitions, steps, writes, applied, reset)?;
    let mut text = value.to_string(alloc)?;
    text.push_str("\n")?;
    Ok(text)
}

fn plan_value(
    alloc: Global,
    plan: &Plan,
    definitions: &Definitions,
    steps: u64,
    writes: u64,
    applied: bool,
    reset: Option<&[u16]>,
) -> Result<Value, AllocError>
    requires { length plan.now.notes ≡ length plan.now.goal.rows }
    ensures { IfOk result (λ value. view value
        ≡ object (with_applied applied (members_of_plan plan.now definitions.now steps writes (option_copied reset.entry)))) }
{
    let members = plan_members(alloc, plan, definitions, steps, writes, reset)?;
    if applied {
        let members = marked(members, alloc)?;
        Ok(Value::Object(members))
    } else {
        Ok(Value::Object(members))
    }
}

// The members with one that tells that all was done.
fn marked(members: Members, alloc: Global) -> Result<Members, AllocError>
    ensures { IfOk result (λ marked. members_view marked.entries
        ≡ with_member (codes "applied") (boolean true) (members_view members.entries)) }
{
    let mut members = members;
    put(&mut members, alloc, "applied", Value::Bool(true))?;
    Ok(members)
}

fn plan_members(
    alloc: Global,
    plan: &Plan,
    definitions: &Definitions,
    steps: u64,
    writes: u64,
    reset: Option<&[u16]>,
) -> Result<Members, AllocError>
    requires { length plan.now.notes ≡ length plan.now.goal.rows }
    ensures { IfOk result (λ members. members_view members.entries
        ≡ members_of_plan plan.now definitions.now steps writes (option_copied reset.entry)) }
{
    let members = members_without_reset(alloc, plan, definitions, steps, writes)?;
    match reset {
        Some(slots) => {
            let mut members = members;
            put_slots(&mut members, alloc, "reset", slots)?;
            Ok(members)
        }
        None => Ok(members),
    }
}

fn members_without_reset(
    alloc: Global,
    plan: &Plan,
    definitions: &Definitions,
    steps: u64,
    writes: u64,
) -> Result<Members, AllocError>
    requires { length plan.now.notes ≡ length plan.now.goal.rows }
    ensures { IfOk result (λ members. members_view members.entries ≡ members_of_plan plan.now definitions.now steps writes None) }
{
    let list = definitions.list.as_slice();
    let mut members = Map::new(alloc);
    put_guid(&mut members, alloc, "disk", plan.goal.disk)?;
    put_files(
        &mut members,
        alloc,
        "dropped",
        list,
        plan.dropped.as_slice(),
    )?;
    put_number(
        &mut members,
        alloc,
        "ignored",
        u64::from(definitions.ignored),
    )?;
    put_rows(&mut members, alloc, "rows", list, plan)?;
    put_number(&mut members, alloc, "steps", steps)?;
    put_number(&mut members, alloc, "target", plan.target)?;
    put_bounds(
        &mut members,
        alloc,
        "usable",
        plan.goal.first,
        plan.goal.last,
    )?;
    put_number(&mut members, alloc, "writes", writes)?;
    Ok(members)
}

fn put_files(
    members: &mut Members,
    alloc: Global,
    key: &str,
    list: &[Definition],
    places: &[u16],
) -> Result<(), AllocError>
    ensures { OnOk result (members_view members.new.entries
        ≡ with_member key.now (files_data list.now places.now) (members_view members.old.entries)) }
{
    let values = file_values(alloc, list, places)?;
    put(members, alloc, key, Value::Array(values))
}

fn file_values(alloc: Global, list: &[Definition], places: &[u16]) -> Result<Vec<Value>, AllocError>
    ensures { IfOk result (λ values. map view values.items ≡ map (λ place. string (file_text list.now place)) places.now) }
{
    let mut values = Vec::new(alloc);
    for &place in places {
        let name = String::from_str(alloc, file_of(list, place))?;
        values.push(Value::String(name))?;
    }
    Ok(values)
}

fn put_slots(
    members: &mut Members,
    alloc: Global,
    key: &str,
    slots: &[u16],
) -> Result<(), AllocError>
    ensures { OnOk result (members_view members.new.entries
        ≡ with_member key.now (slots_data slots.now) (members_view members.old.entries)) }
{
    let values = slot_values(alloc, slots)?;
    put(members, alloc, key, Value::Array(values))
}

fn slot_values(alloc: Global, slots: &[u16]) -> Result<Vec<Value>, AllocError>
    ensures { IfOk result (λ values. map view values.items ≡ map integer slots.now) }
{
    let mut values = Vec::new(alloc);
    for &slot in slots {
        values.push(Value::from(u64::from(slot)))?;
    }
    Ok(values)
}

fn put_rows(
    members: &mut Members,
    alloc: Global,
    key: &str,
    list: &[Definition],
    plan: &Plan,
) -> Result<(), AllocError>
    requires { length plan.now.notes ≡ length plan.now.goal.rows }
    ensures { OnOk result (members_view members.new.entries
        ≡ with_member key.now (array (items_of (map (noted_data list.now) (noted_of plan.now)))) (members_view members.old.entries)) }
{
    let values = row_values(
        alloc,
        list,
        plan.goal.rows.as_slice(),
        plan.notes.as_slice(),
    )?;
    put(members, alloc, key, Value::Array(values))
}

fn row_values(
    alloc: Global,
    list: &[Definition],
    rows: &[Row],
    notes: &[Note],
) -> Result<Vec<Value>, AllocError>
    requires { length notes.now ≡ length rows.now }
    ensures { IfOk result (λ values. map view values.items ≡ map (noted_data list.now) (zip rows.now notes.now)) }
{
    let mut values = Vec::new(alloc);
    for i in 0..rows.len() {
        values.push(row_value(alloc, list, &rows[i], &notes[i])?)?;
    }
    Ok(values)
}

fn row_value(
    alloc: Global,
    list: &[Definition],
    row: &Row,
    note: &Note,
) -> Result<Value, AllocError>
    ensures { IfOk result (λ value. view value ≡ noted_data list.now (row.now, note.now)) }
{
    let mut members = Map::new(alloc);
    put_hex(&mut members, alloc, "attrs", row.attrs)?;
    put_text(&mut members, alloc, "change", change_word(note.change))?;
    put_owner(&mut members, alloc, "file", list, note.file)?;
    put_guid(&mut members, alloc, "id", row.id)?;
    put_name(&mut members, alloc, "name", &row.name)?;
    put_number(&mut members, alloc, "size", row.size)?;
    put_number(&mut members, alloc, "slot", u64::from(row.slot))?;
    put_number(&mut members, alloc, "start", row.start)?;
    put_kind(&mut members, alloc, "type", row.kind)?;
    Ok(Value::Object(members))
}

fn put_owner(
    members: &mut Members,
    alloc: Global,
    key: &str,
    list: &[Definition],
    file: Option<u16>,
) -> Result<(), AllocError>
    ensures { OnOk result (members_view members.new.entries
        ≡ with_member key.now (owner_data list.now file) (members_view members.old.entries)) }
{
    match file {
        Some(place) => put_text(members, alloc, key, file_of(list, place)),
        None => put(members, alloc, key, Value::Null),
    }
}

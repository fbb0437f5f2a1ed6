ghost use Rattle.std.specs.Prelude.{◌≡◌, IfOk, OnOk, map, string_bytes};
ghost use Rattle.std.specs.Option.{option_map_or};
ghost use Rattle.rp_verdict_text.specs.Reports.{integer, verdict_data, verdict_json, verdicts_data};
ghost use Rattle.serde_json.specs.Data.{null, put as with_member, string};
ghost use Rattle.serde_json.specs.View.{members_view, view};

use crate::lines::verdict_word;
use rp_verdict::{Verdict, Verdicts};
use serde_json::{Map, Value, put};
use std::alloc::{AllocError, Global};

/// The JSON form of `verdict_text`: an object on one line, its keys in the order of their bytes.
pub fn verdict_json_text(alloc: Global, verdicts: &Verdicts) -> Result<String, AllocError>
    ensures { IfOk result (λ text. string_bytes text ≡ verdict_json verdicts.now) }
{
    let value = verdicts_value(alloc, verdicts)?;
    let mut text = value.to_string(alloc)?;
    text.push_str("\n")?;
    Ok(text)
}

type Members = Map<String, Value>;

fn verdicts_value(alloc: Global, verdicts: &Verdicts) -> Result<Value, AllocError>
    ensures { IfOk result (λ value. view value ≡ verdicts_data verdicts.now) }
{
    let extra = slot_values(alloc, verdicts.extra.as_slice())?;
    let list = verdict_values(alloc, verdicts.list.as_slice())?;
    let mut members = Map::new(alloc);
    put(&mut members, alloc, "extra", Value::Array(extra))?;
    put(&mut members, alloc, "verdicts", Value::Array(list))?;
    Ok(Value::Object(members))
}

fn slot_values(alloc: Global, slots: &[u16]) -> Result<Vec<Value>, AllocError>
    ensures { IfOk result (λ values. map view values.items ≡ map integer slots.now) }
{
    let mut values = Vec::new(alloc);
    for slot in slots {
        values.push(Value::from(u64::from(*slot)))?;
    }
    Ok(values)
}

fn verdict_values(alloc: Global, list: &[Verdict]) -> Result<Vec<Value>, AllocError>
    ensures { IfOk result (λ values. map view values.items ≡ map verdict_data list.now) }
{
    let mut values = Vec::new(alloc);
    for verdict in list {
        values.push(verdict_value(alloc, verdict)?)?;
    }
    Ok(values)
}

fn verdict_value(alloc: Global, verdict: &Verdict) -> Result<Value, AllocError>
    ensures { IfOk result (λ value. view value ≡ verdict_data verdict.now) }
{
    let mut members = Map::new(alloc);
    put_text(&mut members, alloc, "designator", verdict.designator.name())?;
    put_slot(&mut members, alloc, "slot", verdict.slot)?;
    put_text(&mut members, alloc, "verdict", verdict_word(verdict.judged))?;
    Ok(Value::Object(members))
}

fn put_text(members: &mut Members, alloc: Global, key: &str, text: &str) -> Result<(), AllocError>
    ensures { OnOk result (members_view members.new.entries
        ≡ with_member key.now (string text.now) (members_view members.old.entries)) }
{
    let text = String::from_str(alloc, text)?;
    put(members, alloc, key, Value::String(text))
}

fn put_slot(
    members: &mut Members,
    alloc: Global,
    key: &str,
    slot: Option<u16>,
) -> Result<(), AllocError>
    ensures { OnOk result (members_view members.new.entries
        ≡ with_member key.now (option_map_or integer slot null) (members_view members.old.entries)) }
{
    match slot {
        Some(slot) => put(members, alloc, key, Value::from(u64::from(slot))),
        None => put(members, alloc, key, Value::Null),
    }
}

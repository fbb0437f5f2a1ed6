ghost use Rattle.std.specs.Prelude.{◌≡◌, ◌≢◌, IfOk, OnOk, map, string_bytes};
ghost use Rattle.std.specs.Int.{w64, to_be_bytes};
ghost use Rattle.hex.specs.Hex.{encode_lower};
ghost use Rattle.rp_report.specs.Json.{integer, row_data, seen_data, show_json};
ghost use Rattle.rp_report.specs.Names.{name_text};
ghost use Rattle.rp_report.specs.Tables.{kind_text};
ghost use Rattle.rp_types.specs.Guids.{guid_text};
ghost use Rattle.serde_json.specs.Data.{array, item, no_items, put as with_member, string};
ghost use Rattle.serde_json.specs.View.{items_of, members_view, view};

use crate::names::{push_guid, push_hex, push_kind, push_name};
use crate::tables::{mbr_word, origin_word, same_word};
use rp_base::{Guid, Origin, Row, Seen};
use serde_json::{Map, Value, json, put};
use std::alloc::{AllocError, Global};

/// The JSON form of `show_text`: an object on one line, its keys in the order of their bytes.
pub fn show_json_text(alloc: Global, seen: &Seen) -> Result<String, AllocError>
    requires { seen.now.origin ≢ Origin.Neither }
    ensures { IfOk result (λ text. string_bytes text ≡ show_json seen.now) }
{
    let value = seen_value(alloc, seen)?;
    let mut text = value.to_string(alloc)?;
    text.push_str("\n")?;
    Ok(text)
}

fn seen_value(alloc: Global, seen: &Seen) -> Result<Value, AllocError>
    requires { seen.now.origin ≢ Origin.Neither }
    ensures { IfOk result (λ value. view value ≡ seen_data seen.now) }
{
    let mut members = Map::new(alloc);
    put_text(&mut members, alloc, "backup", same_word(seen.backup_same))?;
    put_guid(&mut members, alloc, "disk", seen.shown.disk)?;
    put_text(&mut members, alloc, "mbr", mbr_word(seen.mbr))?;
    put_text(&mut members, alloc, "origin", origin_word(seen.origin))?;
    put_text(&mut members, alloc, "primary", same_word(seen.primary_same))?;
    put_rows(&mut members, alloc, "rows", seen.shown.rows.as_slice())?;
    put_number(&mut members, alloc, "sectors", seen.sectors)?;
    put_bounds(
        &mut members,
        alloc,
        "usable",
        seen.shown.first,
        seen.shown.last,
    )?;
    Ok(Value::Object(members))
}

fn row_values(alloc: Global, rows: &[Row]) -> Result<Vec<Value>, AllocError>
    ensures { IfOk result (λ values. map view values.items ≡ map row_data rows.now) }
{
    let mut values = Vec::new(alloc);
    for row in rows {
        values.push(row_value(alloc, row)?)?;
    }
    Ok(values)
}

fn row_value(alloc: Global, row: &Row) -> Result<Value, AllocError>
    ensures { IfOk result (λ value. view value ≡ row_data row.now) }
{
    let mut members = Map::new(alloc);
    put_hex(&mut members, alloc, "attrs", row.attrs)?;
    put_guid(&mut members, alloc, "id", row.id)?;
    put_name(&mut members, alloc, "name", &row.name)?;
    put_number(&mut members, alloc, "size", row.size)?;
    put_number(&mut members, alloc, "slot", u64::from(row.slot))?;
    put_number(&mut members, alloc, "start", row.start)?;
    put_kind(&mut members, alloc, "type", row.kind)?;
    Ok(Value::Object(members))
}

pub type Members = Map<String, Value>;

fn put_rows(members: &mut Members, alloc: Global, key: &str, rows: &[Row]) -> Result<(), AllocError>
    ensures { OnOk result (members_view members.new.entries
        ≡ with_member key.now (array (items_of (map row_data rows.now))) (members_view members.old.entries)) }
{
    let values = row_values(alloc, rows)?;
    put(members, alloc, key, Value::Array(values))
}

pub fn put_bounds(
    members: &mut Members,
    alloc: Global,
    key: &str,
    first: u64,
    last: u64,
) -> Result<(), AllocError>
    ensures { OnOk result (members_view members.new.entries
        ≡ with_member key.now (array (item (integer first) (item (integer last) no_items))) (members_view members.old.entries)) }
{
    let values = json!(in alloc; [first, last])?;
    put(members, alloc, key, values)
}

pub fn put_guid(
    members: &mut Members,
    alloc: Global,
    key: &str,
    guid: Guid,
) -> Result<(), AllocError>
    ensures { OnOk result (members_view members.new.entries
        ≡ with_member key.now (string (guid_text guid)) (members_view members.old.entries)) }
{
    let mut text = String::new(alloc);
    push_guid(&mut text, guid)?;
    put(members, alloc, key, Value::String(text))
}

pub fn put_kind(
    members: &mut Members,
    alloc: Global,
    key: &str,
    kind: Guid,
) -> Result<(), AllocError>
    ensures { OnOk result (members_view members.new.entries
        ≡ with_member key.now (string (kind_text kind)) (members_view members.old.entries)) }
{
    let mut text = String::new(alloc);
    push_kind(&mut text, kind)?;
    put(members, alloc, key, Value::String(text))
}

pub fn put_name(
    members: &mut Members,
    alloc: Global,
    key: &str,
    name: &[u16],
) -> Result<(), AllocError>
    ensures { OnOk result (members_view members.new.entries
        ≡ with_member key.now (string (name_text name.now)) (members_view members.old.entries)) }
{
    let mut text = String::new(alloc);
    push_name(&mut text, name)?;
    put(members, alloc, key, Value::String(text))
}

pub fn put_hex(
    members: &mut Members,
    alloc: Global,
    key: &str,
    number: u64,
) -> Result<(), AllocError>
    ensures { OnOk result (members_view members.new.entries
        ≡ with_member key.now (string (encode_lower (to_be_bytes w64 number))) (members_view members.old.entries)) }
{
    let mut text = String::new(alloc);
    push_hex(&mut text, &number.to_be_bytes())?;
    put(members, alloc, key, Value::String(text))
}

pub fn put_text(
    members: &mut Members,
    alloc: Global,
    key: &str,
    text: &str,
) -> Result<(), AllocError>
    ensures { OnOk result (members_view members.new.entries
        ≡ with_member key.now (string text.now) (members_view members.old.entries)) }
{
    let text = String::from_str(alloc, text)?;
    put(members, alloc, key, Value::String(text))
}

pub fn put_number(
    members: &mut Members,
    alloc: Global,
    key: &str,
    number: u64,
) -> Result<(), AllocError>
    ensures { OnOk result (members_view members.new.entries
        ≡ with_member key.now (integer number) (members_view members.old.entries)) }
{
    put(members, alloc, key, Value::from(number))
}

ghost use Rattle.std.specs.Prelude.{◌≡◌, ◌≢◌, ◌++◌, IfOk, OnOk, string_bytes};
ghost use Rattle.rp_report.specs.Reports.{show_report};
ghost use Rattle.rp_report.specs.Tables.{copies_line, facts_text, mbr_word as mbr_word_of, origin_text, row_line, same_text, show_bytes};
ghost use Rattle.rp_report.specs.Tables.{table_line, table_lines};

use crate::json::show_json_text;
use crate::names::{push_guid, push_hex, push_kind, push_name};
use rp_base::{Mbr, Memory, Origin, Row, Seen, Table, Text};
use std::alloc::{AllocError, Global};

/// What `show` prints of an image that shows a table: a line for the table, one for each row in slot order, and one
/// that tells how far the copies and the MBR are what would be written for it. With `json` the same as one object.
#[tactic(auto, unfolding(crate::specs::Reports::show_report))]
pub fn show_text(alloc: Global, json: bool, seen: &Seen) -> Result<Text, Memory>
    requires { seen.now.origin ≢ Origin.Neither }
    ensures { IfOk result (λ text. text ≡ show_report json seen.now) }
{
    let text = if json {
        show_json_text(alloc, seen)?
    } else {
        show_lines(alloc, seen)?
    };
    Ok(Text::from_string(text))
}

#[tactic(auto, unfolding(crate::specs::Tables::show_bytes))]
fn show_lines(alloc: Global, seen: &Seen) -> Result<String, AllocError>
    requires { seen.now.origin ≢ Origin.Neither }
    ensures { IfOk result (λ text. string_bytes text ≡ show_bytes seen.now) }
{
    let mut text = String::new(alloc);
    push_table(&mut text, seen.origin, seen.sectors, &seen.shown)?;
    push_copies(&mut text, seen)?;
    Ok(text)
}

fn push_copies(text: &mut String, seen: &Seen) -> Result<(), AllocError>
    ensures { OnOk result (string_bytes text.new ≡ string_bytes text.old ++ copies_line seen.now) }
{
    text.push_str("copies")?;
    push_word(text, " primary=", same_word(seen.primary_same))?;
    push_word(text, " backup=", same_word(seen.backup_same))?;
    push_word(text, " mbr=", mbr_word(seen.mbr))?;
    text.push_str("\n")
}

fn push_word(text: &mut String, what: &str, word: &str) -> Result<(), AllocError>
    ensures { OnOk result (string_bytes text.new ≡ string_bytes text.old ++ (what.now ++ word.now)) }
{
    text.push_str(what)?;
    text.push_str(word)
}

#[tactic(auto, unfolding(crate::specs::Tables::same_text))]
pub fn same_word(same: bool) -> &'static str
    ensures { result.now ≡ same_text same }
{
    if same { "same" } else { "differs" }
}

#[tactic(auto, unfolding(crate::specs::Tables::mbr_word))]
pub fn mbr_word(mbr: Mbr) -> &'static str
    ensures { result.now ≡ mbr_word_of mbr }
{
    match mbr {
        Mbr::Same => "same",
        Mbr::Differs => "differs",
        Mbr::Foreign => "foreign",
    }
}

fn push_table(
    text: &mut String,
    origin: Origin,
    sectors: u64,
    table: &Table,
) -> Result<(), AllocError>
    requires { origin ≢ Origin.Neither }
    ensures { OnOk result (string_bytes text.new ≡ string_bytes text.old ++ table_lines origin sectors table.now) }
{
    push_table_line(text, origin, sectors, table)?;
    for row in table.rows.as_slice() {
        push_row(text, row)?;
    }
    Ok(())
}

pub fn origin_word(origin: Origin) -> &'static str
    requires { origin ≢ Origin.Neither }
    ensures { result.now ≡ origin_text origin }
{
    match origin {
        Origin::Primary => "primary",
        Origin::Backup => "backup",
        Origin::Neither => unreachable!(),
    }
}

#[tactic(auto, unfolding(crate::specs::Tables::table_line))]
fn push_table_line(
    text: &mut String,
    origin: Origin,
    sectors: u64,
    table: &Table,
) -> Result<(), AllocError>
    requires { origin ≢ Origin.Neither }
    ensures { OnOk result (string_bytes text.new ≡ string_bytes text.old ++ table_line origin sectors table.now) }
{
    let word = origin_word(origin);
    let first = table.first;
    let last = table.last;
    write!(
        text,
        "table {word} sectors {sectors} usable {first}-{last} disk "
    )?;
    push_guid(text, table.disk)?;
    text.push_str("\n")
}

#[tactic(auto, unfolding(crate::specs::Tables::row_line))]
fn push_row(text: &mut String, row: &Row) -> Result<(), AllocError>
    ensures { OnOk result (string_bytes text.new ≡ string_bytes text.old ++ row_line row.now) }
{
    write!(text, "{} ", row.slot)?;
    push_facts(text, row)
}

// Appends a row behind its slot.
#[tactic(auto, unfolding(crate::specs::Tables::facts_text))]
pub fn push_facts(text: &mut String, row: &Row) -> Result<(), AllocError>
    ensures { OnOk result (string_bytes text.new ≡ string_bytes text.old ++ facts_text row.now) }
{
    push_kind(text, row.kind)?;
    write!(text, " start {} size {} id ", row.start, row.size)?;
    push_guid(text, row.id)?;
    text.push_str(" attrs ")?;
    push_hex(text, &row.attrs.to_be_bytes())?;
    text.push_str(" name \"")?;
    push_name(text, &row.name)?;
    text.push_str("\"\n")
}

ghost use Rattle.std.specs.Prelude.{◌≡◌, ◌++◌, IfOk, OnOk, string_bytes};
ghost use Rattle.std.specs.List.{flat_map};
ghost use Rattle.rp_verdict_text.specs.Reports.{extra_line, kind_name as name_of, slot_text, verdict_line, verdict_lines, verdict_report, verdict_word as word_of};

use crate::json::verdict_json_text;
use rp_base::{Memory, Text};
use rp_policy::{Judged, Kind};
use rp_verdict::{Verdict, Verdicts};
use std::alloc::{AllocError, Global};

/// What is printed of verdicts: a line for each designator, and one for each row that is left over. With `json` the same as
/// one object.
#[tactic(auto, unfolding(crate::specs::Reports::verdict_report))]
pub fn verdict_text(alloc: Global, json: bool, verdicts: &Verdicts) -> Result<Text, Memory>
    ensures { IfOk result (λ text. text ≡ verdict_report json verdicts.now) }
{
    let text = if json {
        verdict_json_text(alloc, verdicts)?
    } else {
        all_lines(alloc, verdicts)?
    };
    Ok(Text::from_string(text))
}

#[tactic(auto, unfolding(crate::specs::Reports::verdict_lines))]
fn all_lines(alloc: Global, verdicts: &Verdicts) -> Result<String, AllocError>
    ensures { IfOk result (λ text. string_bytes text ≡ verdict_lines verdicts.now) }
{
    let mut text = String::new(alloc);
    push_lines(&mut text, verdicts.list.as_slice())?;
    push_extra(&mut text, verdicts.extra.as_slice())?;
    Ok(text)
}

fn push_lines(text: &mut String, list: &[Verdict]) -> Result<(), AllocError>
    ensures { OnOk result (string_bytes text.new ≡ string_bytes text.old ++ flat_map verdict_line list.now) }
{
    for verdict in list {
        push_line(text, verdict)?;
    }
    Ok(())
}

#[tactic(auto, unfolding(crate::specs::Reports::verdict_line))]
fn push_line(text: &mut String, verdict: &Verdict) -> Result<(), AllocError>
    ensures { OnOk result (string_bytes text.new ≡ string_bytes text.old ++ verdict_line verdict.now) }
{
    text.push_str(verdict.designator.name())?;
    text.push_str(" ")?;
    push_slot(text, verdict.slot)?;
    text.push_str(" ")?;
    text.push_str(verdict_word(verdict.judged))?;
    text.push_str("\n")
}

fn push_slot(text: &mut String, slot: Option<u16>) -> Result<(), AllocError>
    ensures { OnOk result (string_bytes text.new ≡ string_bytes text.old ++ slot_text slot) }
{
    match slot {
        Some(slot) => write!(text, "{slot}"),
        None => text.push_str("-"),
    }
}

fn push_extra(text: &mut String, extra: &[u16]) -> Result<(), AllocError>
    ensures { OnOk result (string_bytes text.new ≡ string_bytes text.old ++ flat_map extra_line extra.now) }
{
    for slot in extra {
        push_extra_line(text, *slot)?;
    }
    Ok(())
}

#[tactic(auto, unfolding(crate::specs::Reports::extra_line))]
fn push_extra_line(text: &mut String, slot: u16) -> Result<(), AllocError>
    ensures { OnOk result (string_bytes text.new ≡ string_bytes text.old ++ extra_line slot) }
{
    write!(text, "extra {slot}\n")
}

/// What is said of a designator.
pub fn verdict_word(judged: Judged) -> &'static str
    ensures { result.now ≡ word_of judged }
{
    match judged {
        Judged::Absent => "absent",
        Judged::Ignored => "ignored",
        Judged::Use(kind) => kind_name(kind),
        Judged::Denied(_) => "",
    }
}

fn kind_name(kind: Kind) -> &'static str
    ensures { result.now ≡ name_of kind }
{
    match kind {
        Kind::Signed => "signed",
        Kind::Verity => "verity",
        Kind::Encrypted => "encrypted",
        Kind::Unprotected => "unprotected",
    }
}

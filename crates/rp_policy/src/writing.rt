ghost use Rattle.std.specs.Prelude.{◌≡◌, ◌++◌, ◌&&◌, true, Ok, IfOk, length, map, string_bytes};
ghost use Rattle.rp_policy.specs.Flags.{AreExpanded};
ghost use Rattle.rp_policy.specs.Reading.{policy_of};
ghost use Rattle.rp_policy.specs.Written.{default_text, entry_text, flags_text, listed_entries, listed_entry, names_set, policy_text, use_words};
ghost use Rattle.rp_policy.specs.Joining.{is_none, joined, led};

use crate::names::{ABSENT, DESIGNATORS, IGNORE, OPEN, STATES, USES};
use crate::{Flags, Policy};
use rp_base::{Memory, Text};
use rp_types::Designator;
use std::alloc::Global;

/// The one canonical text of a policy whose flags are in full. `parse` reads it back.
pub fn write(alloc: Global, policy: &Policy) -> Result<Text, Memory>
    requires { AreExpanded policy.now }
    ensures text { IfOk result (λ text. text ≡ policy_text policy.now) }
    ensures back { IfOk result (λ text. policy_of text ≡ Ok policy.now) }
{
    let mut text = String::new(alloc);
    push_policy(&mut text, policy)?;
    Ok(Text::from_string(text))
}

// The text of a policy.
fn push_policy(text: &mut String, policy: &Policy) -> Result<(), Memory>
    ensures text { IfOk result (λ _. string_bytes text.new ≡ string_bytes text.old ++ policy_text policy.now) }
    ensures size { IfOk result (λ _. length policy.now.listed ≡ 13) }
{
    if push_listed(text, policy)? {
        push_default(text, policy.default.0)?;
    } else if policy.default.0 != IGNORE {
        text.push(':')?;
        push_entry(text, "", policy.default.0)?;
    }
    Ok(())
}

// The entries of designators, with colons between them. It answers whether there is none.
fn push_listed(text: &mut String, policy: &Policy) -> Result<bool, Memory>
    ensures text { IfOk result (λ _. string_bytes text.new ≡ string_bytes text.old ++ joined 58 true (listed_entries policy.now)) }
    ensures none { IfOk result (λ none. none ≡ is_none (listed_entries policy.now)) }
    ensures size { IfOk result (λ _. length policy.now.listed ≡ 13) }
{
    let mut first = true;
    for (place, designator) in DESIGNATORS.iter().enumerate() {
        first = push_listed_one(text, first, *designator, policy.listed[place])?;
    }
    Ok(first)
}

// The entry of a designator, if it is listed.
fn push_listed_one(
    text: &mut String,
    first: bool,
    designator: Designator,
    flags: Option<Flags>,
) -> Result<bool, Memory>
    ensures text { IfOk result (λ _. string_bytes text.new ≡ string_bytes text.old ++ joined 58 first (listed_entry designator flags)) }
    ensures none { IfOk result (λ still. still ≡ (first && is_none (listed_entry designator flags))) }
{
    match flags {
        Some(flags) => {
            push_led(text, first, designator.name(), flags.0)?;
            Ok(false)
        }
        None => Ok(first),
    }
}

// An entry behind others, or the first.
fn push_led(text: &mut String, first: bool, name: &str, flags: u16) -> Result<(), Memory>
    ensures { IfOk result (λ _. string_bytes text.new ≡ string_bytes text.old ++ led 58 first (entry_text name.now flags)) }
{
    if !first {
        text.push(':')?;
    }
    push_entry(text, name, flags)
}

// The text of a policy that lists nothing.
fn push_default(text: &mut String, flags: u16) -> Result<(), Memory>
    ensures { IfOk result (λ _. string_bytes text.new ≡ string_bytes text.old ++ default_text flags) }
{
    if flags == OPEN {
        Ok(text.push_str("*")?)
    } else if flags == IGNORE {
        Ok(text.push_str("-")?)
    } else if flags == ABSENT {
        Ok(text.push_str("~")?)
    } else {
        push_entry(text, "", flags)
    }
}

// The text of an entry.
fn push_entry(text: &mut String, name: &str, flags: u16) -> Result<(), Memory>
    ensures { IfOk result (λ _. string_bytes text.new ≡ string_bytes text.old ++ entry_text name.now flags) }
{
    text.push_str(name)?;
    text.push('=')?;
    push_flags(text, Flags(flags))
}

/// Appends flags in their canonical form: their names, with plus signs between them.
pub fn push_flags(text: &mut String, flags: Flags) -> Result<(), Memory>
    ensures { IfOk result (λ _. string_bytes text.new ≡ string_bytes text.old ++ flags_text flags.0) }
{
    let first = push_uses(text, flags.0)?;
    push_names(text, first, &STATES, flags.0)?;
    Ok(())
}

// The words for the first six flags. It answers whether there is none.
fn push_uses(text: &mut String, flags: u16) -> Result<bool, Memory>
    ensures text { IfOk result (λ _. string_bytes text.new ≡ string_bytes text.old ++ joined 43 true (use_words flags)) }
    ensures none { IfOk result (λ none. none ≡ is_none (use_words flags)) }
{
    if flags & OPEN == OPEN {
        text.push_str("open")?;
        Ok(false)
    } else if flags & OPEN == IGNORE {
        text.push_str("ignore")?;
        Ok(false)
    } else {
        push_names(text, true, &USES, flags)
    }
}

// The names of those flags of a list that are set. It answers whether there is still none.
fn push_names(
    text: &mut String,
    none: bool,
    names: &[(&str, u16)],
    flags: u16,
) -> Result<bool, Memory>
    ensures text { IfOk result (λ _. string_bytes text.new
        ≡ string_bytes text.old ++ joined 43 none (names_set flags (map (λ e. (e.0.now, e.1)) names.now))) }
    ensures none { IfOk result (λ still. still ≡ (none && is_none (names_set flags (map (λ e. (e.0.now, e.1)) names.now)))) }
{
    let mut first = none;
    for (name, bits) in names {
        if flags & *bits != 0 {
            push_word(text, first, name)?;
            first = false;
        }
    }
    Ok(first)
}

// A word behind others, or the first.
fn push_word(text: &mut String, first: bool, word: &str) -> Result<(), Memory>
    ensures { IfOk result (λ _. string_bytes text.new ≡ string_bytes text.old ++ led 43 first word.now) }
{
    if !first {
        text.push('+')?;
    }
    text.push_str(word)?;
    Ok(())
}

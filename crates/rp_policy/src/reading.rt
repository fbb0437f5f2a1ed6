ghost use Rattle.std.specs.Prelude.{◌≡◌, ◌==◌, ◌≤◌, ◌+◌, ◌^◌, ◌<◌, length, replicate, None, Ok, Err, IfOk, take};
ghost use Rattle.std.specs.List.{slice_split};
ghost use Rattle.std.specs.Option.{option_map, option_map_or};
ghost use Rattle.rp_policy.specs.declared.policy.PolicyFault.{PolicyFault};
ghost use Rattle.rp_policy.specs.declared.policy.PolicyKind.TheVariants.{UnknownFlag};
ghost use Rattle.rp_policy.specs.Flags.{AreExpanded, expanded as expanded_of, without_both};
ghost use Rattle.rp_policy.specs.Reading.{bits_named, cut, default_alone, fault as fault_of, flags_in as flags_in_text, policy_of, policy_with, with_entries, with_entry, with_named};

use crate::names::{ABSENT, DEFAULT, IGNORE, OPEN, bits_named, place_of};
use crate::{Flags, Policy, PolicyFault, PolicyKind};

/// The most bytes of a text.
const LONGEST: usize = 4096;

// What entries set: for each designator, and last for the default.
type Entries = [Option<Flags>; 14];

/// The policy that a text is, or its first fault from the left.
pub fn parse(text: &str) -> Result<Policy, PolicyFault>
    ensures value { result ≡ policy_of text.now }
    ensures full { IfOk result AreExpanded }
{
    if text.len() > LONGEST {
        return Err(fault(LONGEST, PolicyKind::TooLong));
    }
    if text == "*" {
        return Ok(alone(OPEN));
    }
    if text == "-" || text.is_empty() {
        return Ok(alone(IGNORE));
    }
    if text == "~" {
        return Ok(alone(ABSENT));
    }
    Ok(whole(&entries_in(text)?))
}

// The policy that lists nothing.
fn alone(flags: u16) -> Policy
    ensures { result ≡ default_alone flags }
{
    Policy {
        default: Flags(flags),
        listed: [None; 13],
    }
}

// The policy that entries set.
fn whole(entries: &Entries) -> Policy
    ensures { Ok result ≡ policy_with (Ok entries.now) }
{
    let mut listed = [None; 13];
    listed.copy_from_slice(&entries[..DEFAULT]);
    Policy {
        default: entries[DEFAULT].unwrap_or(Flags(IGNORE)),
        listed,
    }
}

fn fault(at: usize, kind: PolicyKind) -> PolicyFault
    requires { at ≤ 4096 }
    ensures { result ≡ record { at = at; kind = kind } }
{
    PolicyFault {
        at: at as u32,
        kind,
    }
}

// What the entries of a text set.
fn entries_in(text: &str) -> Result<Entries, PolicyFault>
    requires { length text.now ≤ 4096 }
    ensures { result ≡ with_entries 0 (slice_split (λ byte. byte == 58) text.now) (replicate 14 None) }
{
    let mut entries = [None; 14];
    let mut at = 0;
    let mut rest = text;
    while let Some((entry, behind)) = at_colon(rest) {
        entries = with_entry(at, entry, entries)?;
        at += entry.len() + 1;
        rest = behind;
    }
    with_entry(at, rest, entries)
}

// What an entry that begins at a place sets besides.
fn with_entry(at: usize, text: &str, entries: Entries) -> Result<Entries, PolicyFault>
    requires { at + length text.now ≤ 4096 }
    ensures { result ≡ with_entry at text.now entries }
{
    let Some((name, flags)) = at_equals(text) else {
        return Err(fault(at, PolicyKind::NoEquals));
    };
    let Some(place) = place_of(name) else {
        return Err(fault(at, PolicyKind::UnknownDesignator));
    };
    if entries[place].is_some() {
        return Err(fault(at, PolicyKind::Repeated));
    }
    let flags = flags_in(at + name.len() + 1, flags)?;
    let mut more = entries;
    more[place] = Some(Flags(expanded(flags)));
    Ok(more)
}

// The flags of a text that begins at a place.
fn flags_in(at: usize, text: &str) -> Result<u16, PolicyFault>
    requires { at + length text.now ≤ 4096 }
    ensures { result ≡ flags_in_text at text.now }
{
    if text.is_empty() {
        Ok(0)
    } else {
        named_flags(at, text)
    }
}

// The flags whose names stand in a text with plus signs between them.
fn named_flags(at: usize, text: &str) -> Result<u16, PolicyFault>
    requires { at + length text.now ≤ 4096 }
    ensures { result ≡ with_named 0 at (slice_split (λ byte. byte == 43) text.now) }
{
    let mut flags = 0;
    let mut place = at;
    let mut rest = text;
    while let Some((name, behind)) = at_plus(rest) {
        flags |= flag(place, name)?;
        place += name.len() + 1;
        rest = behind;
    }
    Ok(flags | flag(place, rest)?)
}

// The bits of the flag whose name is at a place.
fn flag(at: usize, name: &str) -> Result<u16, PolicyFault>
    requires { at ≤ 4096 }
    ensures { result ≡ option_map_or Ok (bits_named name.now) (fault_of at UnknownFlag) }
{
    match bits_named(name) {
        Some(bits) => Ok(bits),
        None => Err(fault(at, PolicyKind::UnknownFlag)),
    }
}

// Flags in full: none of the first six stands for all, and both of a pair for neither.
fn expanded(flags: u16) -> u16
    ensures { result ≡ expanded_of flags }
{
    let some = if flags & OPEN == 0 {
        flags | OPEN
    } else {
        flags
    };
    without_both(768, without_both(192, some))
}

fn without_both(pair: u16, flags: u16) -> u16
    ensures { result ≡ without_both pair flags }
{
    if flags & pair == pair {
        flags ^ pair
    } else {
        flags
    }
}

// What stands before and behind the first colon, equals sign or plus sign.
fn at_colon(text: &str) -> Option<(&str, &str)>
    ensures { option_map (λ parts. (parts.0.now, parts.1.now)) result ≡ cut 58 text.now }
{
    text.split_once(':')
}

fn at_equals(text: &str) -> Option<(&str, &str)>
    ensures { option_map (λ parts. (parts.0.now, parts.1.now)) result ≡ cut 61 text.now }
{
    text.split_once('=')
}

fn at_plus(text: &str) -> Option<(&str, &str)>
    ensures { option_map (λ parts. (parts.0.now, parts.1.now)) result ≡ cut 43 text.now }
{
    text.split_once('+')
}

ghost use Rattle.std.specs.Prelude.{◌≡◌, ◌++◌, IfOk, Some, string_bytes};
ghost use Rattle.std.specs.List.{flat_map};
ghost use Rattle.rp_findings.specs.Policies.{beyond_line, flags_line, found_text, policy_report, switch_text as switch_of};
ghost use Rattle.rp_policy.specs.Flags.{AreExpanded};
ghost use Rattle.rp_policy.specs.Reading.{designators};

use rp_base::{Memory, Text};
use rp_policy::{Counter, DESIGNATORS, Found, Policy, flags_for, push_flags, write};
use rp_types::Designator;
use std::alloc::Global;

/// What is printed of a policy: its canonical text, and the flags of each designator.
#[tactic(auto, unfolding(crate::specs::Policies::policy_report))]
pub fn policy_text(alloc: Global, policy: &Policy) -> Result<Text, Memory>
    requires { AreExpanded policy.now }
    ensures { IfOk result (λ text. text ≡ policy_report policy.now) }
{
    let mut text = write(alloc, policy)?.into_string();
    text.push_str("\n")?;
    push_lines(&mut text, policy)?;
    Ok(Text::from_string(text))
}

// Appends the lines of designators.
fn push_lines(text: &mut String, policy: &Policy) -> Result<(), Memory>
    ensures { IfOk result (λ _. string_bytes text.new ≡ string_bytes text.old ++ flat_map (flags_line policy.now) designators) }
{
    for designator in &DESIGNATORS {
        push_line(text, policy, *designator)?;
    }
    Ok(())
}

#[tactic(auto, unfolding(crate::specs::Policies::flags_line))]
fn push_line(text: &mut String, policy: &Policy, designator: Designator) -> Result<(), Memory>
    ensures { IfOk result (λ _. string_bytes text.new ≡ string_bytes text.old ++ flags_line policy.now designator) }
{
    text.push_str(designator.name())?;
    text.push_str(" ")?;
    push_flags(text, flags_for(policy, designator))?;
    text.push_str("\n")?;
    Ok(())
}

/// What is printed of what one policy allows and another denies.
#[tactic(auto, unfolding(crate::specs::Policies::beyond_line))]
pub fn beyond_text(alloc: Global, counter: &Counter) -> Result<Text, Memory>
    ensures { IfOk result (λ text. text ≡ beyond_line counter.now) }
{
    let mut text = String::from_str(alloc, "beyond ")?;
    text.push_str(counter.designator.name())?;
    text.push_str(" ")?;
    push_found(&mut text, counter.found)?;
    text.push_str("\n")?;
    Ok(Text::from_string(text))
}

fn push_found(text: &mut String, found: Option<Found>) -> Result<(), Memory>
    ensures { IfOk result (λ _. string_bytes text.new ≡ string_bytes text.old ++ found_text found) }
{
    match found {
        Some(found) => push_facts(text, found),
        None => Ok(text.push_str("absent")?),
    }
}

fn push_facts(text: &mut String, found: Found) -> Result<(), Memory>
    ensures { IfOk result (λ _. string_bytes text.new ≡ string_bytes text.old ++ found_text (Some found)) }
{
    push_flags(text, found.kinds)?;
    text.push_str(" read-only-")?;
    text.push_str(switch_text(found.read_only))?;
    text.push_str(" growfs-")?;
    text.push_str(switch_text(found.growfs))?;
    Ok(())
}

fn switch_text(on: bool) -> &'static str
    ensures { result.now ≡ switch_of on }
{
    if on { "on" } else { "off" }
}

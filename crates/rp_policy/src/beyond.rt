ghost use Rattle.std.specs.Prelude.{◌≡◌, find, not, Some, None};
ghost use Rattle.std.specs.Option.{option_map};
ghost use Rattle.rp_policy.specs.Beyond.{all_found, counter_of, is_allowed, is_beyond, states_of};
ghost use Rattle.rp_policy.specs.Reading.{designators};

use crate::names::DESIGNATORS;
use crate::{Flags, Found, Judged, Policy, flags_for, judge};
use rp_types::Designator;

/// What may be found of a designator, that one policy allows and another denies.
#[derive(Clone, Copy, Debug, PartialEq, Eq)]
pub struct Counter {
    pub designator: Designator,
    /// `None` where nothing is found.
    pub found: Option<Found>,
}

/// None exactly where the second policy allows all that the first allows. Else the first that it doesn't: by designators in
/// order, nothing found before anything, then by the number of the kinds, not read-only before read-only, and what doesn't
/// grow before what does.
pub fn compare(a: &Policy, b: &Policy) -> Option<Counter>
    ensures { result ≡ counter_of designators a.now b.now }
{
    for designator in &DESIGNATORS {
        let designator = *designator;
        match first_beyond(flags_for(a, designator), flags_for(b, designator)) {
            Some(found) => return Some(Counter { designator, found }),
            None => {}
        }
    }
    None
}

// What is found first that flags allow and others deny.
fn first_beyond(a: Flags, b: Flags) -> Option<Option<Found>>
    ensures { result ≡ find (is_beyond a.0 b.0) all_found }
{
    if is_beyond(a, b, None) {
        return Some(None);
    }
    for kinds in 1..16 {
        match first_state(a, b, Flags(kinds)) {
            Some(found) => return Some(Some(found)),
            None => {}
        }
    }
    None
}

// The same among what has these kinds.
fn first_state(a: Flags, b: Flags, kinds: Flags) -> Option<Found>
    ensures { result ≡ find (λ found. is_beyond a.0 b.0 (Some found)) (states_of kinds.0) }
{
    let still = Found {
        kinds,
        read_only: false,
        growfs: false,
    };
    if is_beyond(a, b, Some(still)) {
        return Some(still);
    }
    let growing = Found {
        kinds,
        read_only: false,
        growfs: true,
    };
    if is_beyond(a, b, Some(growing)) {
        return Some(growing);
    }
    let still = Found {
        kinds,
        read_only: true,
        growfs: false,
    };
    if is_beyond(a, b, Some(still)) {
        return Some(still);
    }
    let growing = Found {
        kinds,
        read_only: true,
        growfs: true,
    };
    if is_beyond(a, b, Some(growing)) {
        return Some(growing);
    }
    None
}

#[tactic(auto, unfolding(crate::specs::Beyond::is_beyond))]
fn is_beyond(a: Flags, b: Flags, found: Option<Found>) -> bool
    ensures { result ≡ is_beyond a.0 b.0 found }
{
    !is_denied(judge(a, found)) && is_denied(judge(b, found))
}

fn is_denied(judged: Judged) -> bool
    ensures { result ≡ not (is_allowed judged) }
{
    match judged {
        Judged::Denied(_) => true,
        _ => false,
    }
}

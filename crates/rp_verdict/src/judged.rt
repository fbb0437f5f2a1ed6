//! What a policy says of what was found.

ghost use Rattle.std.specs.Prelude.{◌≡◌, ◌≢◌, IfOk, IfErr, IfSome, Option, map, option_map};
ghost use Rattle.rp_base.specs.Answers.{Gives};
ghost use Rattle.rp_policy.specs.Reading.{designators};
ghost use Rattle.rp_policy.specs.declared.judging.Found.{Found};
ghost use Rattle.rp_types.specs.declared.arch.Designator.{Designator};
ghost use Rattle.rp_verdict.specs.Verdicts.{AreVerdicts, IsOwn, denial_of, first_denial, listed, verdict_on, whole};

use crate::rows::{extra, row_of};
use crate::verdict::{DissectFault, Verdict, Verdicts};
use rp_base::{List, Memory, Row};
use rp_policy::{DESIGNATORS, Found, Judged, Policy, flags_for, judge};
use rp_types::{Arch, Designator};
use std::alloc::Global;

/// The verdicts on rows of which this was found, or the first denial.
pub fn verdicts_by(
    alloc: Global,
    policy: &Policy,
    rows: &[Row],
    arch: Arch,
    found: &[Option<Found>; 13],
) -> Result<Verdicts, DissectFault>
    ensures gives { (f : Designator → Option Found) → found.now ≡ map f designators
        → Gives DissectFault.Memory (whole arch rows.now (listed policy.now arch rows.now f)) result }
    ensures verdicts { IfOk result AreVerdicts }
    ensures own { IfErr result IsOwn }
    ensures disk { IfErr result (λ fault. fault ≢ DissectFault.Disk) }
{
    let Ok(list) = listed(alloc, policy, rows, arch, found) else {
        return Err(DissectFault::Memory);
    };
    if let Some(fault) = first_denial(list.as_slice()) {
        return Err(fault);
    }
    let Ok(extra) = extra(alloc, rows, arch) else {
        return Err(DissectFault::Memory);
    };
    Ok(Verdicts { list, extra })
}

// The verdicts on all designators, of which this was found.
fn listed(
    alloc: Global,
    policy: &Policy,
    rows: &[Row],
    arch: Arch,
    found: &[Option<Found>; 13],
) -> Result<List<Verdict>, Memory>
    ensures list { IfOk result (λ list. (f : Designator → Option Found) → found.now ≡ map f designators
        → list ≡ listed policy.now arch rows.now f) }
    ensures order { IfOk result (λ list. map (λ verdict. verdict.designator) list ≡ designators) }
{
    let mut list = List::new(alloc);
    for (place, designator) in DESIGNATORS.iter().enumerate() {
        list.push(verdict_on(policy, rows, arch, *designator, found[place]))?;
    }
    Ok(list)
}

fn verdict_on(
    policy: &Policy,
    rows: &[Row],
    arch: Arch,
    designator: Designator,
    found: Option<Found>,
) -> Verdict
    ensures { result ≡ verdict_on policy.now arch rows.now designator found }
{
    Verdict {
        designator,
        slot: slot_of(row_of(rows, arch, designator)),
        judged: judge(flags_for(policy, designator), found),
    }
}

fn slot_of(row: Option<Row>) -> Option<u16>
    ensures { result ≡ option_map (λ row. row.slot) row }
{
    row.map(|row| row.slot)
}

// The first denial.
fn first_denial(list: &[Verdict]) -> Option<DissectFault>
    ensures value { result ≡ first_denial list.now }
    ensures own { IfSome result IsOwn }
    ensures disk { IfSome result (λ fault. fault ≢ DissectFault.Disk) }
{
    for verdict in list {
        if let Some(fault) = denial_of(verdict) {
            return Some(fault);
        }
    }
    None
}

fn denial_of(verdict: &Verdict) -> Option<DissectFault>
    ensures value { result ≡ denial_of verdict.now }
    ensures own { IfSome result IsOwn }
    ensures disk { IfSome result (λ fault. fault ≢ DissectFault.Disk) }
{
    match verdict.judged {
        Judged::Denied(rule) => Some(DissectFault::Denied {
            designator: verdict.designator,
            rule,
        }),
        _ => None,
    }
}

ghost use Rattle.rp_outcome.specs.Output.{output};
ghost use Rattle.rp_policy.specs.declared.beyond.Counter.{Counter};
ghost use Rattle.rp_policy_command.specs.Commands.{Against, Compares, PrintsPolicy, Told};

use rp_base::Memory;
use rp_denial::refuse_policy;
use rp_findings::{beyond_text, policy_text};
use rp_io::Sink;
use rp_outcome::{Refusal, differ, finish, refuse};
use rp_policy::{Counter, Policy, parse};
use std::alloc::Global;

/// Prints the canonical text of a policy and the flags of each designator, and answers the exit status.
pub fn policy<K: Sink>(alloc: Global, text: &str, out: &mut K) -> u8
    ensures { PrintsPolicy text.now (output K.told K.faults out.old) (output K.told K.faults out.new) result }
{
    let policy = match parse(text) {
        Ok(policy) => policy,
        Err(fault) => return refuse_policy(out, fault),
    };
    match policy_text(alloc, &policy) {
        Ok(text) => finish(out, text.as_str()),
        Err(Memory) => refuse(out, &Refusal::memory()),
    }
}

/// Prints whether a policy allows what another denies, and the first such state, and answers the exit status.
pub fn compare<K: Sink>(alloc: Global, text: &str, against: &str, out: &mut K) -> u8
    ensures { Compares text.now against.now (output K.told K.faults out.old) (output K.told K.faults out.new) result }
{
    match parse(text) {
        Ok(policy) => compare_with(alloc, &policy, against, out),
        Err(fault) => refuse_policy(out, fault),
    }
}

fn compare_with<K: Sink>(alloc: Global, policy: &Policy, against: &str, out: &mut K) -> u8
    ensures { Against policy.now against.now (output K.told K.faults out.old) (output K.told K.faults out.new) result }
{
    match parse(against) {
        Ok(against) => tell(alloc, rp_policy::compare(policy, &against), out),
        Err(fault) => refuse_policy(out, fault),
    }
}

// Prints what a comparison found.
fn tell<K: Sink>(alloc: Global, counter: Option<Counter>, out: &mut K) -> u8
    ensures { Told (output K.told K.faults out.old) (output K.told K.faults out.new) result counter }
{
    match counter {
        None => finish(out, "within\n"),
        Some(counter) => match beyond_text(alloc, &counter) {
            Ok(text) => differ(out, &[text.as_str()]),
            Err(Memory) => refuse(out, &Refusal::memory()),
        },
    }
}

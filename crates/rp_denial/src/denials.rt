ghost use Rattle.std.specs.Prelude.{◌≡◌};
ghost use Rattle.rp_denial.specs.Denials.{Denies, kind_word as word_of, policy_refusal, rule_name as name_of};
ghost use Rattle.rp_outcome.specs.Output.{Refuses, output};

use itoa::Buffer;
use rp_io::Sink;
use rp_outcome::print_pieces;
use rp_policy::{PolicyFault, PolicyKind, Rule};
use rp_types::Designator;

/// The policy's text is none, or the policy denies a partition.
pub const POLICY: u8 = 6;

/// Ends a command whose policy is none: prints the line of its first fault and answers `POLICY`, also where the sink fails.
pub fn refuse_policy<K: Sink>(out: &mut K, fault: PolicyFault) -> u8
    ensures { Refuses (output K.told K.faults out.old) (output K.told K.faults out.new) (policy_refusal fault) result }
{
    let mut buffer = Buffer::new();
    let at = buffer.format(u64::from(fault.at));
    let _ = print_pieces(
        out,
        &[
            "error 6",
            " policy",
            " ",
            at,
            " ",
            kind_word(fault.kind),
            "\n",
        ],
    );
    POLICY
}

fn kind_word(kind: PolicyKind) -> &'static str
    ensures { result.now ≡ word_of kind }
{
    match kind {
        PolicyKind::TooLong => "TooLong",
        PolicyKind::NoEquals => "NoEquals",
        PolicyKind::UnknownDesignator => "UnknownDesignator",
        PolicyKind::Repeated => "Repeated",
        PolicyKind::UnknownFlag => "UnknownFlag",
    }
}

/// Ends a command whose policy denies a partition: prints the denial and answers `POLICY`, also where the sink fails.
pub fn deny<K: Sink>(out: &mut K, designator: Designator, rule: Rule) -> u8
    ensures { Denies (output K.told K.faults out.old) (output K.told K.faults out.new) designator rule result }
{
    let _ = print_pieces(
        out,
        &["denied ", designator.name(), " ", rule_name(rule), "\n"],
    );
    POLICY
}

fn rule_name(rule: Rule) -> &'static str
    ensures { result.now ≡ name_of rule }
{
    match rule {
        Rule::Absence => "absence",
        Rule::Protection => "protection",
        Rule::ReadOnly => "read-only",
        Rule::GrowFs => "growfs",
    }
}

//! Laws of policies.

ghost use Rattle.std.specs.Prelude.{◌≡◌, true, false, Option, Some, None, Ok, length};
ghost use Rattle.rp_types.specs.declared.arch.Designator.{Designator};
ghost use Rattle.rp_policy.specs.declared.judging.Found.{Found};
ghost use Rattle.rp_policy.specs.declared.policy.Policy.{Policy};
ghost use Rattle.rp_policy.specs.declared.beyond.Counter.{Counter};
ghost use Rattle.rp_policy.specs.Beyond.{IsFound, allows, counter_of};
ghost use Rattle.rp_policy.specs.Judging.{flags_of};
ghost use Rattle.rp_policy.specs.Flags.{AreExpanded};
ghost use Rattle.rp_policy.specs.Reading.{designators, policy_of};
ghost use Rattle.rp_policy.specs.Written.{policy_text};

/// Where a comparison gives no counter, the second policy allows all that may be found of a designator and that the first
/// allows. A counter may be found, is allowed by the first policy and denied by the second.
pub fn a_counter_is_between_the_policies()
    ensures none { (a b : Policy) (d : Designator) (found : Option Found) → counter_of designators a b ≡ None → IsFound found
        → allows (flags_of a d).0 found ≡ true → allows (flags_of b d).0 found ≡ true }
    ensures some { (a b : Policy) (c : Counter) → counter_of designators a b ≡ Some c
        → IsFound c.found × (allows (flags_of a c.designator).0 c.found ≡ true) × (allows (flags_of b c.designator).0 c.found ≡ false) }
{}

/// The canonical text of a policy whose flags are in full is read as the policy.
pub fn texts_are_read_back()
    ensures { (policy : Policy) → length policy.listed ≡ 13 → AreExpanded policy → policy_of (policy_text policy) ≡ Ok policy }
{}

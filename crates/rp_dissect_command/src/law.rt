//! What `dissect` promises, by its exit status.

ghost use Rattle.std.specs.Prelude.{ℕ, Bool, List};
ghost use Rattle.rp_dissect_command.specs.Dissects.{Dissects};
ghost use Rattle.rp_dissect_command.specs.Statuses.{DissectByStatus};
ghost use Rattle.rp_outcome.specs.Device.{Device};
ghost use Rattle.rp_outcome.specs.Output.{Output};
ghost use Rattle.rp_policy.specs.Reading.{policy_of};
ghost use Rattle.rp_types.specs.declared.arch.Arch.{Arch};

/// What is known of the policy's text, the image, the disk and the sink at each status.
pub fn dissect_by_status()
    ensures { (text : List ℕ) (arch : Arch) (sector : ℕ) (json : Bool) (disk later : Device) (out after : Output) (status : ℕ)
        → Dissects text arch sector json disk later out after status
        → DissectByStatus (policy_of text) arch sector json disk later out after status }
{}

//! What `policy` and `compare` promise, by their exit statuses.

ghost use Rattle.std.specs.Prelude.{ℕ, List};
ghost use Rattle.rp_outcome.specs.Output.{Output};
ghost use Rattle.rp_policy.specs.Reading.{policy_of};
ghost use Rattle.rp_policy_command.specs.Commands.{Compares, PrintsPolicy};
ghost use Rattle.rp_policy_command.specs.Statuses.{CompareByStatus, PolicyByStatus};

/// What is known of a policy's text and of the sink at each status.
pub fn policy_by_status()
    ensures { (text : List ℕ) (out after : Output) (status : ℕ)
        → PrintsPolicy text out after status → PolicyByStatus (policy_of text) out after status }
{}

/// What is known of two policies' texts and of the sink at each status.
pub fn compare_by_status()
    ensures { (text against : List ℕ) (out after : Output) (status : ℕ)
        → Compares text against out after status → CompareByStatus (policy_of text) (policy_of against) out after status }
{}

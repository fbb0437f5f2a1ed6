//! What `make` promises, by its exit status.

ghost use Rattle.std.specs.Prelude.{ℕ, ◌≤◌, ◌≢◌};
ghost use Rattle.rp_make_command.specs.Ends.{MakeEnds};
ghost use Rattle.rp_make_command.specs.Makes.{Makes};
ghost use Rattle.rp_outcome.specs.Device.{Device};
ghost use Rattle.rp_outcome.specs.Output.{Output};
ghost use Rattle.rp_outcome.specs.Statuses as exit;

/// What is known of disk and sink at each status.
pub fn make_ends()
    ensures { (number : ℕ) (disk later : Device) (out after : Output) (status : ℕ)
        → Makes number disk later out after status → MakeEnds disk later out after status }
{}

/// Folders and sources that are made never fail: of numbers of at most 100 no run ends with their status.
pub fn make_never_fails_in_memory()
    ensures { (number : ℕ) (disk later : Device) (out after : Output) (status : ℕ) → number ≤ 100
        → Makes number disk later out after status → status ≢ exit.files }
{}

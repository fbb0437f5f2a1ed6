//! What `make` promises of a number of at most 100.

ghost use Rattle.std.specs.Prelude.{ℕ, ◌≡◌, ◌≤◌};
ghost use Rattle.rp_apply_command.specs.Ends.{AtEachMoment};
ghost use Rattle.rp_base.specs.Faults.{Rose};
ghost use Rattle.rp_disk.specs.Device.{CanHave};
ghost use Rattle.rp_disk.specs.History.{held};
ghost use Rattle.rp_disk.specs.Made.{Past, history_of};
ghost use Rattle.rp_disk.specs.Runs.{MadeFirst};
ghost use Rattle.rp_make_command.specs.Makes.{Makes};
ghost use Rattle.rp_make_promise.specs.Complete.{AnswersImage, HasReason};
ghost use Rattle.rp_make_promise.specs.Leaves.{IsLeftInMaking, LeavesGoal, make_calls};
ghost use Rattle.rp_make_promise.specs.Promise.{MakePromise};
ghost use Rattle.rp_make_promise.specs.Told.{TellsSummary};
ghost use Rattle.rp_outcome.specs.Device.{Device};
ghost use Rattle.rp_outcome.specs.Output.{Output};
ghost use Rattle.rp_outcome.specs.Statuses as exit;

/// Where it is done on a disk that can have a past, the text is the summary of the number: it has two rows more, the root hash is
/// that of its source, and as many writes are told as were made.
pub fn make_tells_its_summary()
    ensures { (number : ℕ) (disk later : Device) (out after : Output) (status : ℕ) → number ≤ 100
        → Makes number disk later out after status → (past : Past) → CanHave past later → status ≡ exit.done
        → TellsSummary number disk later out after }
{}

/// What becomes of an image on a disk that can have a past. At every status the calls since the start are the first of those that make
/// it: a sync, the growth of an image that may be grown, and those of the plan, which is the goal of the grown image by the definitions
/// of the number. A stop at any moment leaves what could have been left at the start, the growth, or no table or the goal. Where it is
/// done, all of them were made, and a stop leaves nothing but the goal with the contents of its rows.
pub fn make_leaves_the_goal()
    ensures calls { (number : ℕ) (disk later : Device) (out after : Output) (status : ℕ)
        → Makes number disk later out after status → (past : Past) → CanHave past later
        → MadeFirst disk.calls (make_calls number (held (history_of past disk.calls))) later.calls }
    ensures moments { (number : ℕ) (disk later : Device) (out after : Output) (status : ℕ)
        → Makes number disk later out after status → (past : Past) → CanHave past later
        → AtEachMoment past disk later (IsLeftInMaking number (held (history_of past disk.calls))) }
    ensures done { (number : ℕ) (disk later : Device) (out after : Output) (status : ℕ)
        → Makes number disk later out after status → (past : Past) → CanHave past later → status ≡ exit.done
        → LeavesGoal number disk later past }
{}

/// Where the disk can have a past, each status but 0, 4, 5 and 10 comes with a call of disk or sink that failed: 7 and 9. No other
/// comes: the definitions of a number are there, and so is its source, which doesn't change; and the image that was made differs in
/// nothing from what is planned for it again. So `make` is complete: where no call fails, an image that may not be grown is refused
/// with the status of its refusal, and one for which nothing can be planned with that of the demand; any other is made, but for want of
/// memory.
pub fn make_is_complete()
    ensures reasons { (number : ℕ) (disk later : Device) (out after : Output) (status : ℕ) → number ≤ 100
        → Makes number disk later out after status → (past : Past) → CanHave past later
        → HasReason disk later out after status }
    ensures answers { (number : ℕ) (disk later : Device) (out after : Output) (status : ℕ) → number ≤ 100
        → Makes number disk later out after status → (past : Past) → CanHave past later
        → ¬ Rose disk.faults later.faults → ¬ Rose out.faults after.faults
        → AnswersImage number status (held (history_of past disk.calls)) }
{}

/// All of this, as one record.
pub fn make_keeps_its_promise()
    ensures { (number : ℕ) (disk later : Device) (out after : Output) (status : ℕ) → number ≤ 100
        → Makes number disk later out after status → MakePromise number disk later out after status }
{}

//! What `plan` and `apply` with a factory reset promise.

ghost use Rattle.std.specs.Prelude.{◌≡◌, ◌≤◌, ◌%◌, ◌^◌, ℕ, Bool, List, false, true};
ghost use Rattle.rp_base.specs.Geometry.{IsSector};
ghost use Rattle.rp_io.specs.Files.{Tree};
ghost use Rattle.rp_io.specs.declared.stored.Stored.{Stored};
ghost use Rattle.rp_outcome.specs.Device.{Device, IsOnlyRead};
ghost use Rattle.rp_outcome.specs.Output.{Output};
ghost use Rattle.rp_outcome.specs.Store.{Store};
ghost use Rattle.rp_planned.specs.declared.request.Request.{Request as Asked};
ghost use Rattle.rp_reset_command.specs.Applies.{AppliesReset};
ghost use Rattle.rp_reset_command.specs.Plans.{PlansReset};
ghost use Rattle.rp_reset_promise.specs.Causes.{HasResetCauses};
ghost use Rattle.rp_reset_promise.specs.Ends.{ResetEnds};
ghost use Rattle.rp_reset_promise.specs.Told.{AnswersReset};

/// What becomes of the image at each status, and what a stop at any moment of the run leaves.
pub fn apply_reset_ends()
    ensures { (request : Asked) (json : Bool) (dirs : List (List ℕ)) (folders read : Store Tree) (disk later : Device)
        (sources drained : Store (List Stored)) (out after : Output) (status : ℕ)
        → IsSector request.sector → request.size % 4096 ≡ 0 → request.size ≤ 2 ^ 44
        → AppliesReset request json dirs folders read disk later sources drained out after status
        → ResetEnds request json dirs folders disk later sources out after status }
{}

/// `plan` reads the disk alone.
pub fn plan_reset_reads_alone()
    ensures { (request : Asked) (json : Bool) (dirs : List (List ℕ)) (folders read : Store Tree) (disk later : Device)
        (sources drained : Store (List Stored)) (out after : Output) (status : ℕ)
        → PlansReset request json dirs folders read disk later sources drained out after status → IsOnlyRead disk later }
{}

/// A failure of an object has its status and comes only where it was counted, and none is passed over where the command is done.
pub fn resets_have_causes()
    ensures plan { (request : Asked) (json : Bool) (dirs : List (List ℕ)) (folders read : Store Tree) (disk later : Device)
        (sources drained : Store (List Stored)) (out after : Output) (status : ℕ)
        → PlansReset request json dirs folders read disk later sources drained out after status
        → HasResetCauses folders read disk later sources drained out after status }
    ensures apply { (request : Asked) (json : Bool) (dirs : List (List ℕ)) (folders read : Store Tree) (disk later : Device)
        (sources drained : Store (List Stored)) (out after : Output) (status : ℕ)
        → AppliesReset request json dirs folders read disk later sources drained out after status
        → HasResetCauses folders read disk later sources drained out after status }
{}

/// What is printed where folders and sources tell, of each past that the disk can have: at 3, 4 and 5 the line of the first refusal of
/// what they tell, which has that status; at 0 and 9 the text of what is planned by them, whole or in part.
pub fn resets_answer_as_told()
    ensures plan { (request : Asked) (json : Bool) (dirs : List (List ℕ)) (folders read : Store Tree) (disk later : Device)
        (sources drained : Store (List Stored)) (out after : Output) (status : ℕ)
        → PlansReset request json dirs folders read disk later sources drained out after status
        → AnswersReset request json dirs folders disk later sources out after status false }
    ensures apply { (request : Asked) (json : Bool) (dirs : List (List ℕ)) (folders read : Store Tree) (disk later : Device)
        (sources drained : Store (List Stored)) (out after : Output) (status : ℕ)
        → AppliesReset request json dirs folders read disk later sources drained out after status
        → AnswersReset request json dirs folders disk later sources out after status true }
{}

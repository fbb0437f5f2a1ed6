//! What `apply` promises of an image, by its exit status.

ghost use Rattle.std.specs.Prelude.{◌≡◌, ◌≤◌, ◌%◌, ◌^◌, ◌*◌, ℕ, Bool, List, [], ◌∷◌, Some, Ok, IsErrAnd, length};
ghost use Rattle.rp_apply.specs.Commits.{HavePlannedRoots};
ghost use Rattle.rp_base.specs.Geometry.{IsSector};
ghost use Rattle.rp_defs.specs.WellFormed.{IsWellFormed};
ghost use Rattle.rp_defs.specs.declared.definition.Definition.{Definition};
ghost use Rattle.rp_defs.specs.declared.definition.Definitions.{Definitions};
ghost use Rattle.rp_disk.specs.Device.{CanHave};
ghost use Rattle.rp_disk.specs.History.{held};
ghost use Rattle.rp_disk.specs.Made.{Past, history_of};
ghost use Rattle.rp_disk.specs.Runs.{MadeFirst};
ghost use Rattle.rp_disk.specs.declared.call.Call.{Call};
ghost use Rattle.rp_idle.specs.Idle.{IsIdle};
ghost use Rattle.rp_io.specs.Files.{Tree};
ghost use Rattle.rp_io.specs.declared.stored.Stored.{Stored};
ghost use Rattle.rp_outcome.specs.Device.{Device};
ghost use Rattle.rp_outcome.specs.Output.{Output, Prints};
ghost use Rattle.rp_outcome.specs.Refusals.{line_of};
ghost use Rattle.rp_outcome.specs.Statuses as exit;
ghost use Rattle.rp_outcome.specs.Store.{Store};
ghost use Rattle.rp_plan_command.specs.Statuses.{IsRefused, WhereTold, told_plan};
ghost use Rattle.rp_planned.specs.Planning.{planned_of};
ghost use Rattle.rp_planned.specs.declared.planned.Planned.{Planned};
ghost use Rattle.rp_planned.specs.declared.request.Request.{Request as Asked};
ghost use Rattle.rp_reading.specs.Reading.{definitions_in};
ghost use Rattle.rp_apply_command.specs.Applies.{Applies};
ghost use Rattle.rp_apply_command.specs.Complete.{AnswersAsTold, HasReason, NoneFailed};
ghost use Rattle.rp_apply_command.specs.Ends.{Ends, Given, TellsUnchanged};

/// What becomes of the image at each status, and what a stop at any moment of the run leaves.
pub fn apply_ends()
    ensures { (request : Asked) (json : Bool) (dirs : List (List ℕ)) (folders read : Store Tree) (disk later : Device)
        (sources drained : Store (List Stored)) (out after : Output) (status : ℕ)
        → IsSector request.sector → request.size % 4096 ≡ 0 → request.size ≤ 2 ^ 44
        → Applies request json dirs folders read disk later sources drained out after status
        → Ends request json dirs folders disk later sources out after status }
{}

/// A second run: on an idle image that isn't to grow, where the folders tell, no call is made but the sync, at every status.
/// Where it is done, it tells no steps, no writes and each row as the same.
pub fn apply_on_an_idle_image()
    ensures calls { (request : Asked) (json : Bool) (dirs : List (List ℕ)) (folders read : Store Tree) (disk later : Device)
        (sources drained : Store (List Stored)) (out after : Output) (status : ℕ)
        → IsSector request.sector → request.size % 4096 ≡ 0 → request.size ≤ 2 ^ 44
        → Applies request json dirs folders read disk later sources drained out after status
        → (past : Past) (tree : Tree) (definitions : Definitions) → CanHave past later → folders.told ≡ Some tree
        → definitions_in request.arch tree dirs ≡ Ok definitions
        → IsIdle request.sector (held (history_of past disk.calls)) definitions.list request.seed
        → request.size ≤ length (held (history_of past disk.calls)) → MadeFirst disk.calls (Call.Sync ∷ []) later.calls }
    ensures text { (request : Asked) (json : Bool) (dirs : List (List ℕ)) (folders read : Store Tree) (disk later : Device)
        (sources drained : Store (List Stored)) (out after : Output) (status : ℕ)
        → IsSector request.sector → request.size % 4096 ≡ 0 → request.size ≤ 2 ^ 44
        → Applies request json dirs folders read disk later sources drained out after status
        → (past : Past) (tree : Tree) (definitions : Definitions) → CanHave past later → folders.told ≡ Some tree
        → definitions_in request.arch tree dirs ≡ Ok definitions
        → IsIdle request.sector (held (history_of past disk.calls)) definitions.list request.seed
        → request.size ≤ length (held (history_of past disk.calls)) → status ≡ exit.done → TellsUnchanged json definitions out after }
{}

/// What is refused, and how: at 3, 4 and 5, where folders and sources tell, the first refusal of what they tell and of each past that
/// the disk can have has that status, and its line was printed. It is that of `plan`.
pub fn apply_refuses_as_plan()
    ensures { (request : Asked) (json : Bool) (dirs : List (List ℕ)) (folders read : Store Tree) (disk later : Device)
        (sources drained : Store (List Stored)) (out after : Output) (status : ℕ)
        → Applies request json dirs folders read disk later sources drained out after status → IsRefused status
        → WhereTold folders disk later sources (λ tree image files. IsErrAnd (told_plan request dirs tree image files)
        (λ refusal. (refusal.status ≡ status) × Prints out after (line_of refusal))) }
{}

/// What is planned for an image and sources has the root hash of each pair's source, so that none of them is found changed.
pub fn plans_have_their_roots()
    ensures { (request : Asked) (list : List Definition) (image : List ℕ) (files : List Stored) (planned : Planned)
        → IsSector request.sector → request.size % 4096 ≡ 0 → request.size ≤ 2 ^ 44 → IsWellFormed list
        → planned_of request list image files ≡ Ok planned → HavePlannedRoots planned.plan (Given list files) }
{}

/// Where sources tell, and the disk can have a past, each status but 0, 3, 4, 5 and 10 comes with a call that failed, and 11 doesn't
/// come. So `apply` is complete: where the folders tell too and no call fails, it is done exactly where what is told and that past give
/// a plan, and else has the status of the first refusal, but for want of memory.
pub fn apply_is_complete()
    ensures reasons { (request : Asked) (json : Bool) (dirs : List (List ℕ)) (folders read : Store Tree) (disk later : Device)
        (sources drained : Store (List Stored)) (out after : Output) (status : ℕ)
        → Applies request json dirs folders read disk later sources drained out after status
        → (past : Past) (files : List Stored) → CanHave past later → sources.told ≡ Some files
        → HasReason folders read disk later sources drained out after status }
    ensures answers { (request : Asked) (json : Bool) (dirs : List (List ℕ)) (folders read : Store Tree) (disk later : Device)
        (sources drained : Store (List Stored)) (out after : Output) (status : ℕ)
        → IsSector request.sector → request.size % 4096 ≡ 0 → request.size ≤ 2 ^ 44
        → Applies request json dirs folders read disk later sources drained out after status
        → NoneFailed folders read disk later sources drained out after
        → WhereTold folders disk later sources (λ tree image files. AnswersAsTold status (told_plan request dirs tree image files)) }
{}

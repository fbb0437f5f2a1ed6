//! What a second run does, as the contract of a function that does nothing.

ghost use Rattle.std.specs.Prelude.{◌≡◌, ◌≤◌, ◌%◌, ◌^◌, ℕ, Bool, List, Some};
ghost use Rattle.rp_apply_command.specs.Applies.{Applies};
ghost use Rattle.rp_apply_command.specs.Ends.{IsBehind};
ghost use Rattle.rp_base.specs.Geometry.{IsSector};
ghost use Rattle.rp_disk.specs.Device.{CanHave};
ghost use Rattle.rp_disk.specs.Made.{Past};
ghost use Rattle.rp_io.specs.Files.{Tree};
ghost use Rattle.rp_io.specs.declared.stored.Stored.{Stored};
ghost use Rattle.rp_outcome.specs.Device.{Device};
ghost use Rattle.rp_outcome.specs.Output.{Output};
ghost use Rattle.rp_outcome.specs.Store.{Store};
ghost use Rattle.rp_planned.specs.declared.request.Request.{Request as Asked};
ghost use Rattle.rp_twice.specs.Twice.{LeavesNothingToDo};

/// Where the folders tell, and a run ends with 0, or with 9 since its text couldn't be printed: it told what it planned, and if that
/// dropped no definition, then, of each past that the disk can have, each image that a stop may leave now is idle, and a second run on
/// it by the same words, with the same definition files, makes no changing call but its sync, whatever its status.
pub fn a_second_run_makes_no_call()
    ensures { (request : Asked) (json : Bool) (dirs : List (List ℕ)) (folders read : Store Tree) (disk later : Device)
        (sources drained : Store (List Stored)) (out after : Output) (status : ℕ)
        → IsSector request.sector → request.size % 4096 ≡ 0 → request.size ≤ 2 ^ 44
        → Applies request json dirs folders read disk later sources drained out after status → IsBehind status
        → (past : Past) (tree : Tree) → CanHave past later → folders.told ≡ Some tree
        → LeavesNothingToDo request json dirs tree later out after status past }
{}

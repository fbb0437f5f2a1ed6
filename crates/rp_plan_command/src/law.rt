//! What `plan` promises, by its exit status.

ghost use Rattle.std.specs.Prelude.{ℕ, Bool, List};
ghost use Rattle.rp_io.specs.Files.{Tree};
ghost use Rattle.rp_io.specs.declared.stored.Stored.{Stored};
ghost use Rattle.rp_outcome.specs.Device.{Device};
ghost use Rattle.rp_outcome.specs.Output.{Output};
ghost use Rattle.rp_outcome.specs.Store.{Store};
ghost use Rattle.rp_plan_command.specs.Plans.{Plans};
ghost use Rattle.rp_plan_command.specs.Statuses.{ByStatus};
ghost use Rattle.rp_planned.specs.declared.request.Request.{Request as Asked};

/// What is known of folders, image, sources and sink at each status.
pub fn plan_by_status()
    ensures { (request : Asked) (json : Bool) (dirs : List (List ℕ)) (folders read : Store Tree) (disk later : Device)
        (sources drained : Store (List Stored)) (out after : Output) (status : ℕ)
        → Plans request json dirs folders read disk later sources drained out after status
        → ByStatus request json dirs folders read disk later sources drained out after status }
{}

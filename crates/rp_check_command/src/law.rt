//! What `check` promises, by its exit status.

ghost use Rattle.std.specs.Prelude.{ℕ, List};
ghost use Rattle.rp_base.specs.declared.guid.Guid.{Guid as Seed};
ghost use Rattle.rp_check_command.specs.Checks.{Checks};
ghost use Rattle.rp_check_command.specs.Statuses.{CheckByStatus};
ghost use Rattle.rp_io.specs.Files.{Tree};
ghost use Rattle.rp_io.specs.declared.stored.Stored.{Stored};
ghost use Rattle.rp_outcome.specs.Device.{Device};
ghost use Rattle.rp_outcome.specs.Output.{Output};
ghost use Rattle.rp_outcome.specs.Store.{Store};
ghost use Rattle.rp_types.specs.declared.arch.Arch.{Arch};

/// What is known of folders, image, sources and sink at each status.
pub fn check_by_status()
    ensures { (seed : Seed) (arch : Arch) (sector : ℕ) (dirs : List (List ℕ)) (folders read : Store Tree) (disk later : Device)
        (sources drained : Store (List Stored)) (out after : Output) (status : ℕ)
        → Checks seed arch sector dirs folders read disk later sources drained out after status
        → CheckByStatus seed arch sector dirs folders read disk later sources drained out after status }
{}

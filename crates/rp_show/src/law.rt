//! What `show` promises, by its exit status.

ghost use Rattle.std.specs.Prelude.{ℕ, Bool};
ghost use Rattle.rp_outcome.specs.Output.{Output};
ghost use Rattle.rp_outcome.specs.Device.{Device};
ghost use Rattle.rp_show.specs.Shows.{ByStatus, Shows};

/// What is known of the image, the disk and the sink at each status.
pub fn show_by_status()
    ensures { (sector : ℕ) (json : Bool) (disk later : Device) (out after : Output) (status : ℕ)
        → Shows sector json disk later out after status → ByStatus sector json disk later out after status }
{}

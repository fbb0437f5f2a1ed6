ghost use Rattle.std.specs.Prelude.{◌≡◌, ◌++◌, ℕ, List, Option, IfSome, OnOk, OnErr};
ghost use Rattle.rp_base.specs.Faults.{HasCause};
ghost use Rattle.rp_io.specs.Sink.{TookPart};

use rp_base::Failed;

/// Where output goes.
pub trait Sink {
    /// The bytes that it has taken; nothing where it doesn't tell, as a real output.
    ghost told: { Self → Option (List ℕ) };

    /// How many of its calls have failed.
    ghost faults: { Self → ℕ };

    /// How many of its calls have failed.
    fn faults(&self) -> u64
        ensures { result ≡ faults self.now };

    /// Appends all bytes, or at `Failed` a first part of them.
    fn write(&mut self, bytes: &[u8]) -> Result<(), Failed>
        ensures done { IfSome (told self.old) (λ taken. OnOk result (told self.new ≡ Some (taken ++ bytes.now))) }
        ensures failed { IfSome (told self.old) (λ taken. OnErr result (TookPart taken bytes.now (told self.new))) }
        ensures cause { HasCause (faults self.old) (faults self.new) result };
}

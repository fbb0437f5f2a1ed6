ghost use Rattle.std.specs.Prelude.{◌≡◌, ◌+◌, ℕ, List, Option, Some, IfSome, IfOk, OnOk, is_none, length, option_map};
ghost use Rattle.rp_base.specs.Faults.{HasCause, CountsStray};
ghost use Rattle.rp_io.specs.declared.stored.Stored.{Stored as File};
ghost use Rattle.rp_io.specs.Files.{content, passes, Reads};

use rp_base::Failed;

/// Where the contents of new partitions come from. Places and lengths are in bytes.
pub trait Sources {
    /// Its files; nothing where it doesn't tell, as the host's.
    ghost told: { Self → Option (List File) };

    /// How many of its calls have failed.
    ghost faults: { Self → ℕ };

    /// How many of its calls named a path that isn't there or passed a file's end, where it tells.
    ghost strays: { Self → ℕ };

    /// How many of its calls have failed.
    fn faults(&self) -> u64
        ensures { result ≡ faults self.now };

    /// How many bytes a file has. A path that isn't there is a fault.
    fn len(&mut self, path: &str) -> Result<u64, Failed>
        ensures told { told self.new ≡ told self.old }
        ensures len { IfSome (told self.old) (λ files. IfOk result (λ len. option_map length (content files path.now) ≡ Some len)) }
        ensures strays { IfSome (told self.old) (λ files. CountsStray (is_none (content files path.now)) (strays self.old)
            (strays self.new)) }
        ensures cause { HasCause (faults self.old) (faults self.new) result };

    /// Fills the buffer with the bytes from `at` on. A path that isn't there and a range past the end are faults.
    fn read(&mut self, path: &str, at: u64, buf: &mut [u8]) -> Result<(), Failed>
        ensures told { told self.new ≡ told self.old }
        ensures bytes { IfSome (told self.old) (λ files. OnOk result (Reads (content files path.now) at (length buf.old) buf.new)) }
        ensures strays { IfSome (told self.old) (λ files. CountsStray (passes (content files path.now) (at + length buf.old))
            (strays self.old) (strays self.new)) }
        ensures cause { HasCause (faults self.old) (faults self.new) result };
}

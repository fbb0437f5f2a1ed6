ghost use Rattle.std.specs.Prelude.{◌≡◌, ℕ, Option, Some, IfSome, IfOk, is_none, option_map};
ghost use Rattle.rp_base.specs.Faults.{CountsStray};
ghost use Rattle.rp_io.specs.Faults.{HasIoCause};
ghost use Rattle.rp_io.specs.Files.{Tree, IsListing, IsWithin, content, limited};

use crate::IoFault;
use rp_base::{List, Text};
use std::alloc::Global;

/// What a file holds, where it isn't too long.
#[derive(Debug, Drop)]
pub enum Content {
    /// All its bytes.
    Whole(List<u8>),
    /// It has more bytes than the limit.
    More,
}

/// Folders with files. The file NAME of the folder D has the path `D/NAME`.
pub trait Folders {
    /// The files and folders that are there; nothing where it doesn't tell, as the host's.
    ghost told: { Self → Option Tree };

    /// How many of its calls have failed.
    ghost faults: { Self → ℕ };

    /// How many of its calls read a path that isn't there, where it tells.
    ghost strays: { Self → ℕ };

    /// How many of its calls have failed.
    fn faults(&self) -> u64
        ensures { result ≡ faults self.now };

    /// The names of the files in a folder, without subfolders, in any order. `None` where the folder isn't there.
    fn list(&mut self, alloc: Global, dir: &str) -> Result<Option<List<Text>>, IoFault>
        ensures told { told self.new ≡ told self.old }
        ensures names { IfSome (told self.old) (λ tree. IfOk result (IsListing tree dir.now)) }
        ensures strays { IfSome (told self.old) (λ _. strays self.new ≡ strays self.old) }
        ensures cause { HasIoCause (faults self.old) (faults self.new) result };

    /// The bytes of a file, or `More` where they are more than `limit`: no `Whole` holds more, whether the folders tell
    /// or not. A path that isn't there is a fault.
    fn read(&mut self, alloc: Global, path: &str, limit: u64) -> Result<Content, IoFault>
        ensures told { told self.new ≡ told self.old }
        ensures bytes { IfSome (told self.old) (λ tree. IfOk result
            (λ held. option_map (limited limit) (content tree.files path.now) ≡ Some held)) }
        ensures within { IfOk result (IsWithin limit) }
        ensures strays { IfSome (told self.old) (λ tree. CountsStray (is_none (content tree.files path.now)) (strays self.old)
            (strays self.new)) }
        ensures cause { HasIoCause (faults self.old) (faults self.new) result };
}

//! Folders in memory that fail no call but one that strays.

ghost use Rattle.std.specs.Prelude.{◌≡◌, [], Some};
ghost use Rattle.rp_io.specs.MemFolders.{failures, listed, stray_calls, tree};

use rp_base::{List, Text};
use rp_io::{Content, Folders, IoFault, MemFolders, Stored};
use std::alloc::Global;

/// Folders in memory. A call fails only where it reads a path that isn't there.
#[derive(Drop)]
pub struct MadeFolders {
    folders: MemFolders,
    ghost unlisted: { listed folders ≡ [] },
    ghost strayed: { stray_calls folders ≡ 0 → failures folders ≡ 0 },
}

impl MadeFolders {
    ghost use Rattle.rp_make_input.specs.MadeFolders.{failures_of, strays_of, tree_of};

    /// These folders and files; of two files with the same path the first counts.
    pub fn new(alloc: Global, dirs: List<Text>, files: List<Stored>) -> Self
        ensures tree { tree_of result ≡ record { folders = dirs; files = files } }
        ensures faults { failures_of result ≡ 0 }
        ensures strays { strays_of result ≡ 0 }
    {
        MadeFolders {
            folders: MemFolders::new(dirs, files, List::new(alloc)),
        }
    }

    /// No call has failed where none has strayed.
    pub fn is_sound(&self)
        ensures { strays_of self.now ≡ 0 → failures_of self.now ≡ 0 }
    {}
}

impl Folders for MadeFolders {
    ghost use Rattle.std.specs.Prelude.{Some};
    ghost use Rattle.rp_make_input.specs.MadeFolders.{failures_of, strays_of, tree_of};

    ghost told = { λ made. Some (tree_of made) };

    ghost faults = { failures_of };

    ghost strays = { strays_of };

    fn faults(&self) -> u64 {
        self.folders.faults()
    }

    fn list(&mut self, alloc: Global, dir: &str) -> Result<Option<List<Text>>, IoFault> {
        self.folders.list(alloc, dir)
    }

    fn read(&mut self, alloc: Global, path: &str, limit: u64) -> Result<Content, IoFault> {
        self.folders.read(alloc, path, limit)
    }
}

//! Sources in memory that fail no call but one that strays.

ghost use Rattle.std.specs.Prelude.{◌≡◌, [], Some};
ghost use Rattle.rp_io.specs.MemSources.{failures, listed, stray_calls};

use rp_base::{Failed, List};
use rp_io::{MemSources, Sources, Stored};
use std::alloc::Global;

/// Sources in memory. A call fails only where it names a path that isn't there, or passes a file's end.
#[derive(Drop)]
pub struct MadeSources {
    sources: MemSources,
    ghost unlisted: { listed sources ≡ [] },
    ghost strayed: { stray_calls sources ≡ 0 → failures sources ≡ 0 },
}

impl MadeSources {
    ghost use Rattle.rp_make_input.specs.MadeSources.{failures_of, files_in, strays_of};

    /// These files; of two with the same path the first counts.
    pub fn new(alloc: Global, files: List<Stored>) -> Self
        ensures files { files_in result ≡ files }
        ensures faults { failures_of result ≡ 0 }
        ensures strays { strays_of result ≡ 0 }
    {
        MadeSources {
            sources: MemSources::new(files, List::new(alloc)),
        }
    }

    /// No call has failed where none has strayed.
    pub fn is_sound(&self)
        ensures { strays_of self.now ≡ 0 → failures_of self.now ≡ 0 }
    {}
}

impl Sources for MadeSources {
    ghost use Rattle.std.specs.Prelude.{Some};
    ghost use Rattle.rp_make_input.specs.MadeSources.{failures_of, files_in, strays_of};

    ghost told = { λ made. Some (files_in made) };

    ghost faults = { failures_of };

    ghost strays = { strays_of };

    fn faults(&self) -> u64 {
        self.sources.faults()
    }

    fn len(&mut self, path: &str) -> Result<u64, Failed> {
        self.sources.len(path)
    }

    fn read(&mut self, path: &str, at: u64, buf: &mut [u8]) -> Result<(), Failed> {
        self.sources.read(path, at, buf)
    }
}

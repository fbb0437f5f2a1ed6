ghost use Rattle.std.specs.Prelude.{◌≡◌, ◌+◌, Some, IfOk, IfSome, IfNone, OnOk, is_none, true, length, option_map};
ghost use Rattle.rp_base.specs.Faults.{HasCause, CountsStray};
ghost use Rattle.rp_io.specs.Files.{content, passes, Reads};

use crate::calls::is_listed;
use crate::stored::bytes_at;
use crate::{Sources, Stored};
use rp_base::{Failed, List};

/// Sources in memory.
#[derive(Drop)]
pub struct MemSources {
    files: List<Stored>,
    fail: List<u64>,
    made: u64,
    faults: u64,
    strays: u64,
}

impl MemSources {
    ghost use Rattle.rp_io.specs.MemSources.{files_of, listed, made, failures, stray_calls};

    /// These files; of two with the same path the first counts. The calls with the numbers in `fail`, from 1, fail. It
    /// takes no memory.
    pub fn new(files: List<Stored>, fail: List<u64>) -> Self
        ensures files { files_of result ≡ files }
        ensures listed { listed result ≡ fail }
        ensures made { made result ≡ 0 }
        ensures faults { failures result ≡ 0 }
        ensures strays { stray_calls result ≡ 0 }
    {
        MemSources {
            files,
            fail,
            made: 0,
            faults: 0,
            strays: 0,
        }
    }
}

impl Sources for MemSources {
    ghost use Rattle.rp_io.specs.MemSources.{files_of, failures, stray_calls, FailsExactly};

    ghost told = { λ sources. Some (files_of sources) };

    ghost faults = { failures };

    ghost strays = { stray_calls };

    fn faults(&self) -> u64 {
        self.faults
    }

    fn len(&mut self, path: &str) -> Result<u64, Failed>
        ensures told { files_of self.new ≡ files_of self.old }
        ensures len { IfOk result (λ len. option_map length (content (files_of self.old) path.now) ≡ Some len) }
        ensures strays { CountsStray (is_none (content (files_of self.old) path.now)) (stray_calls self.old) (stray_calls self.new) }
        ensures cause { HasCause (failures self.old) (failures self.new) result }
        ensures exact { FailsExactly self.old self.new (is_none (content (files_of self.old) path.now)) result }
    {
        let listed = is_listed(&mut self.made, &self.fail);
        let Some(bytes) = bytes_at(self.files.as_slice(), path) else {
            self.strays = self.strays.saturating_add(1);
            self.faults = self.faults.saturating_add(1);
            return Err(Failed);
        };
        if listed {
            self.faults = self.faults.saturating_add(1);
            return Err(Failed);
        }
        Ok(bytes.len() as u64)
    }

    fn read(&mut self, path: &str, at: u64, buf: &mut [u8]) -> Result<(), Failed>
        ensures told { files_of self.new ≡ files_of self.old }
        ensures bytes { OnOk result (Reads (content (files_of self.old) path.now) at (length buf.old) buf.new) }
        ensures strays { CountsStray (passes (content (files_of self.old) path.now) (at + length buf.old)) (stray_calls self.old)
            (stray_calls self.new) }
        ensures cause { HasCause (failures self.old) (failures self.new) result }
        ensures exact { FailsExactly self.old self.new (passes (content (files_of self.old) path.now) (at + length buf.old)) result }
    {
        let listed = is_listed(&mut self.made, &self.fail);
        let Some(range) = range_at(self.files.as_slice(), path, at, buf.len()) else {
            self.strays = self.strays.saturating_add(1);
            self.faults = self.faults.saturating_add(1);
            return Err(Failed);
        };
        if listed {
            self.faults = self.faults.saturating_add(1);
            return Err(Failed);
        }
        buf.copy_from_slice(range);
        Ok(())
    }
}

// The bytes of a file in a range, if the file is there and has the range.
fn range_at<'a>(files: &'a [Stored], path: &str, at: u64, size: usize) -> Option<&'a [u8]>
    ensures found { IfSome result (λ range. Reads (content files.now path.now) at size range.now) }
    ensures missing { IfNone result (passes (content files.now path.now) (at + size) ≡ true) }
    ensures size { IfSome result (λ range. length range.now ≡ size) }
{
    let bytes = bytes_at(files, path)?;
    let start = usize::try_from(at).ok()?;
    let end = start.checked_add(size)?;
    bytes.get(start..end)
}

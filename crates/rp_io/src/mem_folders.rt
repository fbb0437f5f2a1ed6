ghost use Rattle.std.specs.Prelude.{◌≡◌, false, Some, IfOk, is_none, option_map};
ghost use Rattle.rp_base.specs.Faults.{CountsStray};
ghost use Rattle.rp_io.specs.Faults.{HasIoCause};
ghost use Rattle.rp_io.specs.Files.{Tree, IsListing, IsWithin, content, limited};

use crate::calls::is_listed;
use crate::stored::{bytes_at, has_text, names_in_folder};
use crate::{Content, Folders, IoFault, Stored};
use rp_base::{List, Memory, Text};
use std::alloc::Global;

/// Folders in memory.
#[derive(Drop)]
pub struct MemFolders {
    dirs: List<Text>,
    files: List<Stored>,
    fail: List<u64>,
    made: u64,
    faults: u64,
    strays: u64,
}

impl MemFolders {
    ghost use Rattle.rp_io.specs.MemFolders.{tree, listed, made, failures, stray_calls};

    /// These folders and files; of two files with the same path the first counts. A folder is there exactly where it
    /// is in `dirs`. The calls with the numbers in `fail`, from 1, fail. It takes no memory.
    pub fn new(dirs: List<Text>, files: List<Stored>, fail: List<u64>) -> Self
        ensures tree { tree result ≡ record { folders = dirs; files = files } }
        ensures listed { listed result ≡ fail }
        ensures made { made result ≡ 0 }
        ensures faults { failures result ≡ 0 }
        ensures strays { stray_calls result ≡ 0 }
    {
        MemFolders {
            dirs,
            files,
            fail,
            made: 0,
            faults: 0,
            strays: 0,
        }
    }
}

impl Folders for MemFolders {
    ghost use Rattle.rp_io.specs.MemFolders.{tree, failures, stray_calls, FailsExactly};

    ghost told = { λ folders. Some (tree folders) };

    ghost faults = { failures };

    ghost strays = { stray_calls };

    fn faults(&self) -> u64 {
        self.faults
    }

    fn list(&mut self, alloc: Global, dir: &str) -> Result<Option<List<Text>>, IoFault>
        ensures told { tree self.new ≡ tree self.old }
        ensures names { IfOk result (IsListing (tree self.old) dir.now) }
        ensures strays { stray_calls self.new ≡ stray_calls self.old }
        ensures cause { HasIoCause (failures self.old) (failures self.new) result }
        ensures exact { FailsExactly self.old self.new false result }
    {
        if is_listed(&mut self.made, &self.fail) {
            self.faults = self.faults.saturating_add(1);
            return Err(IoFault::Failed);
        }
        if !has_text(self.dirs.as_slice(), dir) {
            return Ok(None);
        }
        let names = names_in_folder(alloc, dir, self.files.as_slice())?;
        Ok(Some(names))
    }

    fn read(&mut self, alloc: Global, path: &str, limit: u64) -> Result<Content, IoFault>
        ensures told { tree self.new ≡ tree self.old }
        ensures bytes { IfOk result (λ held. option_map (limited limit) (content (tree self.old).files path.now) ≡ Some held) }
        ensures within { IfOk result (IsWithin limit) }
        ensures strays { CountsStray (is_none (content (tree self.old).files path.now)) (stray_calls self.old) (stray_calls self.new) }
        ensures cause { HasIoCause (failures self.old) (failures self.new) result }
        ensures exact { FailsExactly self.old self.new (is_none (content (tree self.old).files path.now)) result }
    {
        let listed = is_listed(&mut self.made, &self.fail);
        let Some(bytes) = bytes_at(self.files.as_slice(), path) else {
            self.strays = self.strays.saturating_add(1);
            self.faults = self.faults.saturating_add(1);
            return Err(IoFault::Failed);
        };
        if listed {
            self.faults = self.faults.saturating_add(1);
            return Err(IoFault::Failed);
        }
        let held = limited_to(alloc, limit, bytes)?;
        Ok(held)
    }
}

// A copy of the bytes, if they are no more than the limit.
fn limited_to(alloc: Global, limit: u64, bytes: &[u8]) -> Result<Content, Memory>
    ensures { IfOk result (λ held. held ≡ limited limit bytes.now) }
{
    if bytes.len() as u64 > limit {
        return Ok(Content::More);
    }
    Ok(Content::Whole(List::from_vec(bytes.to_vec(alloc)?)))
}

#[cfg(test)]
mod tests {
    use super::*;
    use std::test::Fail;

    fn stored(alloc: Global, path: &str, bytes: &[u8]) -> Result<Stored, Memory> {
        Ok(Stored {
            path: Text::from_str(alloc, path)?,
            bytes: List::from_vec(bytes.to_vec(alloc)?),
        })
    }

    #[test]
    fn lists_and_reads(rt: HostRuntime) -> Result<(), Fail> {
        let mut dirs = List::new(rt.alloc());
        dirs.push(Text::from_str(rt.alloc(), "/d")?)?;
        let mut files = List::new(rt.alloc());
        files.push(stored(rt.alloc(), "/d/a", b"one")?)?;
        files.push(stored(rt.alloc(), "/d/a", b"other")?)?;
        files.push(stored(rt.alloc(), "/d/sub/b", b"")?)?;
        files.push(stored(rt.alloc(), "/e/c", b"")?)?;
        let mut fail = List::new(rt.alloc());
        fail.push(4)?;
        let mut folders = MemFolders::new(dirs, files, fail);
        let names = folders.list(rt.alloc(), "/d")?.ok_or("there")?;
        assert_eq!(rt; names.len(), 1);
        assert!(rt; has_text(names.as_slice(), "a"));
        assert!(rt; folders.list(rt.alloc(), "/e")?.is_none());
        match folders.read(rt.alloc(), "/d/a", 3)? {
            Content::Whole(bytes) => assert_eq!(rt; bytes.as_slice(), b"one".as_slice()),
            Content::More => assert!(rt; false),
        }
        assert!(rt; folders.list(rt.alloc(), "/d").is_err());
        assert!(rt; matches!(folders.read(rt.alloc(), "/d/a", 2)?, Content::More));
        assert!(rt; folders.read(rt.alloc(), "/d/c", 9).is_err());
        assert_eq!(rt; folders.faults(), 2);
        Ok(())
    }
}

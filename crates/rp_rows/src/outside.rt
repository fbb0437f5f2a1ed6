//! Folders and sources in memory, words, and the calls of objects that fail.

use rp_base::{List, Text};
use rp_io::{MemFolders, MemSources, Stored};
use std::alloc::Global;
use std::test::Fail;

/// A folder `d` of these files, each a path and a text. This call fails, or none where it is 0.
pub fn folder(
    alloc: Global,
    files: &[(&'static str, String)],
    fail: u64,
) -> Result<MemFolders, Fail> {
    let mut stored = List::new(alloc);
    for (path, text) in files {
        stored.push(Stored {
            path: Text::from_str(alloc, path)?,
            bytes: List::from_vec(text.as_bytes().to_vec(alloc)?),
        })?;
    }
    let mut there = List::new(alloc);
    there.push(Text::from_str(alloc, "d")?)?;
    Ok(MemFolders::new(there, stored, call(alloc, fail)?))
}

/// A source `s.raw` of so many zero bytes. This call fails, or none where it is 0.
pub fn source(alloc: Global, len: usize, fail: u64) -> Result<MemSources, Fail> {
    let mut stored = List::new(alloc);
    stored.push(Stored {
        path: Text::from_str(alloc, "s.raw")?,
        bytes: List::from_vec(vec![in alloc; 0u8; len]?),
    })?;
    Ok(MemSources::new(stored, call(alloc, fail)?))
}

/// The words of a text, cut at spaces.
pub fn words(alloc: Global, text: &str) -> Result<Vec<String>, Fail> {
    let mut words = Vec::new(alloc);
    for word in text.split(' ') {
        words.push(String::from_str(alloc, word)?)?;
    }
    Ok(words)
}

/// The list of one number of a call that fails, or of none where it is 0.
pub fn call(alloc: Global, number: u64) -> Result<List<u64>, Fail> {
    let mut list = List::new(alloc);
    if number != 0 {
        list.push(number)?;
    }
    Ok(list)
}

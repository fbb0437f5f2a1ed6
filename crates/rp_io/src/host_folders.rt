ghost use Rattle.std.specs.Prelude.{◌≡◌, ◌++◌, ◌+◌, ◌^◌, ◌<◌, None, IfOk, IfSome, map, string_bytes};
ghost use Rattle.rp_io.specs.Faults.{HasIoCause};
ghost use Rattle.rp_io.specs.Files.{IsWithin, limited};
ghost use Rattle.rp_io.specs.Host as host;
ghost use Rattle.rp_io.specs.HostFolders.{Adds};

use crate::answers::{check_count, is_entry, is_listed, is_readable, listing_text, opened};
use crate::{Content, Folders, IoFault};
use rp_base::{List, Memory, Text};
use std::alloc::{AllocError, Global};
use std::fs::File;
use std::io;
use std::io::{ErrorKind, Read};
use std::rt::Files;

/// Folders of the host. They tell nothing.
///
/// A file is whatever isn't a folder, through symbolic links; a link to nothing is no file. Faults are a name that isn't
/// UTF-8, a folder of more than 65,536 names, and the read of a pipe or a socket, which may wait for another process. A
/// folder of drop-ins (its path ends in `.conf.d`) with a longer name than the host allows isn't there.
#[derive(Drop)]
pub struct HostFolders<'a, R: Files> {
    rt: &'a R,
    faults: u64,
}

/// Reads of a listing: each but the last gives a name, two of them may be `.` and `..`.
const MOST_READS: usize = 65_536 + 3;

/// Room for the names of one read. The host refuses a read without room for the next name.
const LISTING_BYTES: usize = 4096;

impl<'a, R: Files> HostFolders<'a, R> {
    ghost use Rattle.rp_io.specs.HostFolders.{failures};

    /// The folders of this runtime.
    pub fn new(rt: &'a R) -> HostFolders<'a, R>
        ensures { failures result ≡ 0 }
    {
        HostFolders { rt, faults: 0 }
    }
}

impl<R: Files> Folders for HostFolders<'_, R> {
    ghost use Rattle.rp_io.specs.HostFolders.{failures};

    ghost told = { λ _. None };

    ghost faults = { failures };

    ghost strays = { λ _. 0 };

    fn faults(&self) -> u64 {
        self.faults
    }

    fn list(&mut self, alloc: Global, dir: &str) -> Result<Option<List<Text>>, IoFault> {
        counted(&mut self.faults, list_folder(self.rt, alloc, dir))
    }

    fn read(&mut self, alloc: Global, path: &str, limit: u64) -> Result<Content, IoFault> {
        counted(&mut self.faults, read_file(self.rt, alloc, path, limit))
    }
}

// Counts an answer that is a failure.
fn counted<T>(faults: &mut u64, answer: Result<T, IoFault>) -> Result<T, IoFault>
    ensures answer { result ≡ answer }
    ensures cause { HasIoCause faults.old faults.new result }
{
    if matches!(&answer, Err(IoFault::Failed)) {
        *faults = faults.saturating_add(1);
    }
    answer
}

fn list_folder<R: Files>(rt: &R, alloc: Global, dir: &str) -> Result<Option<List<Text>>, IoFault> {
    let folder = joined(alloc, dir, "/")?;
    let Some(mut names) = opened(dir, rt.open_dir(folder.as_str()))? else {
        return Ok(None);
    };
    let listing = read_listing(alloc, &mut names)?;
    let names = names_in(alloc, &listing)?;
    Ok(Some(files_among(rt, alloc, folder.as_str(), names.as_slice())?))
}

// All that is left of a folder's names.
pub(crate) fn read_listing<D: Read>(alloc: Global, folder: &mut D) -> Result<Vec<u8>, IoFault>
    ensures { IfOk result (λ listing. IfSome (D.remaining folder.old) (λ left. listing.items ≡ left)) }
{
    let mut listing = Vec::new(alloc);
    for _ in 0..MOST_READS {
        if read_more(folder, &mut listing)? {
            return Ok(listing);
        }
    }
    Err(IoFault::Failed)
}

// Appends what one read gives, and says whether it found the end. An interrupted read gives nothing.
fn read_more<D: Read>(folder: &mut D, listing: &mut Vec<u8>) -> Result<bool, IoFault>
    ensures { IfOk result (λ is_end. Adds (D.remaining folder.old) (D.remaining folder.new) listing.old.items listing.new.items is_end) }
{
    let mut buf = [0; LISTING_BYTES];
    match folder.read(&mut buf) {
        Ok(0) => Ok(true),
        Ok(count) => {
            listing.extend_from_slice(&buf[..count])?;
            Ok(false)
        }
        Err(error) if error.kind() == ErrorKind::Interrupted => Ok(false),
        Err(error) => Err(error.into()),
    }
}

// The names in a listing, `.` and `..` left out.
pub(crate) fn names_in(alloc: Global, listing: &[u8]) -> Result<Vec<&str>, IoFault>
    ensures { IfOk result (λ names. map (λ name. name.now) names.items ≡ host.entries listing.now) }
{
    let names = entries(alloc, listing_text(listing)?)?;
    check_count(names.len())?;
    Ok(names)
}

fn entries(alloc: Global, listing: &str) -> Result<Vec<&str>, AllocError>
    ensures { IfOk result (λ names. map (λ name. name.now) names.items ≡ host.entries listing.now) }
{
    listing
        .split('\0')
        .filter(|name| is_entry(name))
        .collect(alloc)
}

// Those of a folder's names that are files. The folder's path ends in a slash.
fn files_among<R: Files>(
    rt: &R,
    alloc: Global,
    folder: &str,
    names: &[&str],
) -> Result<List<Text>, IoFault> {
    let mut files = List::new(alloc);
    for name in names {
        if is_listed(rt.metadata(joined(alloc, folder, name)?.as_str()))? {
            files.push(Text::from_str(alloc, name)?)?;
        }
    }
    Ok(files)
}

fn joined(alloc: Global, front: &str, back: &str) -> Result<String, Memory>
    ensures { IfOk result (λ text. string_bytes text ≡ front.now ++ back.now) }
{
    let mut text = String::from_str(alloc, front)?;
    text.push_str(back)?;
    Ok(text)
}

fn read_file<R: Files>(rt: &R, alloc: Global, path: &str, limit: u64) -> Result<Content, IoFault>
    ensures { IfOk result (IsWithin limit) }
{
    if !is_readable(rt.metadata(path))? {
        return Err(IoFault::Failed);
    }
    read_limited(alloc, File::open(rt, path)?, limit)
}

// The bytes that are left of a file. It reads no more than one byte past the limit.
fn read_limited<F: Read + Drop>(alloc: Global, file: F, limit: u64) -> Result<Content, IoFault>
    ensures within { IfOk result (IsWithin limit) }
    ensures bytes { limit + 1 < 2 ^ 64 → IfSome (F.remaining file) (λ left. IfOk result (λ held. held ≡ limited limit left)) }
{
    let mut bytes = Vec::new(alloc);
    file.take(limit.saturating_add(1)).read_to_end(&mut bytes)?;
    Ok(held(limit, bytes))
}

// The bytes, if they are no more than the limit.
fn held(limit: u64, bytes: Vec<u8>) -> Content
    ensures within { IsWithin limit result }
    ensures held { result ≡ limited limit bytes.items }
{
    if bytes.len() as u64 > limit {
        return Content::More;
    }
    Content::Whole(List::from_vec(bytes))
}

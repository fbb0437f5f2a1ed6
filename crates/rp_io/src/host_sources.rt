ghost use Rattle.std.specs.Prelude.{◌≡◌, Ok, Some, None, IfSome, IsSomeAnd, IfOk, OnOk, length};
ghost use Rattle.rp_base.specs.Faults.{HasCause};
ghost use Rattle.rp_io.specs.Files.{Reads};
ghost use Rattle.rp_io.specs.HostSources.{PlacesRest};

use crate::Sources;
use crate::answers::check_source;
use arrayvec::ArrayString;
use rp_base::Failed;
use std::fs::File;
use std::io;
use std::io::{ErrorKind, Read, Seek, SeekFrom};
use std::rt::Files;

/// Files and devices of the host. They tell nothing.
///
/// A path is opened by the first call for it, and stays the same file until a call names another path. A folder, a pipe, a
/// socket and a path of more than 4,096 bytes are faults.
#[derive(Drop)]
pub struct HostSources<'a, R: Files> {
    rt: &'a R,
    // the file of the last call that found one
    last: Option<Source<R::File>>,
    faults: u64,
}

/// Bytes of a path: Linux takes none that is longer.
const LONGEST_PATH: usize = 4096;

/// An open file and its path.
#[derive(Drop)]
struct Source<F> {
    path: ArrayString<LONGEST_PATH>,
    file: F,
}

impl<'a, R: Files> HostSources<'a, R> {
    ghost use Rattle.rp_io.specs.HostSources.{failures};

    /// The files of this runtime.
    pub fn new(rt: &'a R) -> HostSources<'a, R>
        ensures { failures result ≡ 0 }
    {
        HostSources {
            rt,
            last: None,
            faults: 0,
        }
    }
}

impl<R: Files> Sources for HostSources<'_, R> {
    ghost use Rattle.rp_io.specs.HostSources.{failures};

    ghost told = { λ _. None };

    ghost faults = { failures };

    ghost strays = { λ _. 0 };

    fn faults(&self) -> u64 {
        self.faults
    }

    fn len(&mut self, path: &str) -> Result<u64, Failed> {
        counted(&mut self.faults, len_of(self.rt, &mut self.last, path))
    }

    fn read(&mut self, path: &str, at: u64, buf: &mut [u8]) -> Result<(), Failed> {
        counted(
            &mut self.faults,
            read_of(self.rt, &mut self.last, path, at, buf),
        )
    }
}

// Counts an answer that is an error.
fn counted<T>(faults: &mut u64, answer: io::Result<T>) -> Result<T, Failed>
    ensures { HasCause faults.old faults.new result }
{
    match answer {
        Ok(value) => Ok(value),
        Err(_) => {
            *faults = faults.saturating_add(1);
            Err(Failed)
        }
    }
}

fn len_of<R: Files>(rt: &R, last: &mut Option<Source<R::File>>, path: &str) -> io::Result<u64>
    ensures same { IfSome last.old (λ source. source.path.bytes ≡ path.now → IfSome (R.File.stream_position source.file) (λ _.
        IfSome (R.File.stream_bytes source.file) (λ bytes. IfOk result (λ len. len ≡ length bytes)))) }
    ensures kept { OnOk result (IsSomeAnd last.new (λ source. source.path.bytes ≡ path.now)) }
{
    let mut source = source_at(rt, last.take(), path)?;
    let len = end_of(&mut source.file);
    *last = Some(source);
    len
}

fn read_of<R: Files>(
    rt: &R,
    last: &mut Option<Source<R::File>>,
    path: &str,
    at: u64,
    buf: &mut [u8],
) -> io::Result<()>
    ensures same { IfSome last.old (λ source. source.path.bytes ≡ path.now
        → PlacesRest R.File.stream_position R.File.stream_bytes R.File.remaining
        → IfSome (R.File.stream_position source.file)
        (λ _. IfSome (R.File.stream_bytes source.file) (λ bytes. OnOk result (Reads (Some bytes) at (length buf.old) buf.new)))) }
    ensures kept { OnOk result (IsSomeAnd last.new (λ source. source.path.bytes ≡ path.now)) }
{
    let mut source = source_at(rt, last.take(), path)?;
    let read = read_at(&mut source.file, at, buf);
    *last = Some(source);
    read
}

// The file at a path: that of the last call, if it has this path.
fn source_at<R: Files>(
    rt: &R,
    last: Option<Source<R::File>>,
    path: &str,
) -> io::Result<Source<R::File>>
    ensures same { IfSome last (λ source. source.path.bytes ≡ path.now → result ≡ Ok source) }
    ensures path { IfOk result (λ source. source.path.bytes ≡ path.now) }
{
    if let Some(source) = last {
        if source.path.as_str() == path {
            return Ok(source);
        }
    }
    check_source(rt.metadata(path))?;
    let Ok(kept) = ArrayString::from(path) else {
        return Err(ErrorKind::InvalidFilename.into());
    };
    Ok(Source {
        path: kept,
        file: File::open(rt, path)?,
    })
}

// The length of a file: by its end and not by its metadata, which give none of a block device.
fn end_of<F: Seek>(file: &mut F) -> io::Result<u64>
    ensures { IfSome (F.stream_position file.old) (λ _. IfSome (F.stream_bytes file.old)
        (λ bytes. IfOk result (λ len. len ≡ length bytes))) }
{
    file.seek(SeekFrom::End(0))
}

// Fills the buffer from an offset on. Where it is empty, no read would find that the offset is past the end.
fn read_at<F: Read + Seek>(file: &mut F, at: u64, buf: &mut [u8]) -> io::Result<()>
    ensures { PlacesRest F.stream_position F.stream_bytes F.remaining
        → IfSome (F.stream_position file.old) (λ _. IfSome (F.stream_bytes file.old)
        (λ bytes. OnOk result (Reads (Some bytes) at (length buf.old) buf.new))) }
{
    if buf.is_empty() && at > file.seek(SeekFrom::End(0))? {
        return Err(ErrorKind::UnexpectedEof.into());
    }
    file.seek(SeekFrom::Start(at))?;
    file.read_exact(buf)
}

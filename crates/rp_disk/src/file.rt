ghost use Rattle.std.specs.Prelude.{◌≡◌, ◌↔◌, ◌+◌, ◌≤◌, Some, Ok, length, IsErr, IfOk, IsOk, IfSome, OnOk, true, false};
ghost use Rattle.std.specs.Io.KnownBytes.{Appends, Keeps};
ghost use Rattle.rp_base.specs.Faults.{HasCause, Rose};
ghost use Rattle.rp_base.specs.Image.{bytes_at};
ghost use Rattle.rp_disk.specs.Files.{ReadsAhead};

use crate::log::{Log, Note};
use crate::{Call, Disk};
use rp_base::Failed;
use std::fs::{OpenFile, OpenOptions};
use std::io::{self, ErrorKind, Read, Seek, SeekFrom, Write};
use std::rt::Files;

/// A file or block device as a disk. It notes what it was asked and what it answered.
#[derive(Drop)]
pub struct FileDisk<F> {
    // none where it couldn't be opened
    file: Option<F>,
    // whether it was opened for writing too
    writable: bool,
    faults: u64,
    // the calls that reached the file, and what it answered
    log: Log,
}

impl<F: Read + Write + Seek + OpenFile> FileDisk<F> {
    ghost use Rattle.rp_disk.specs.FileDisk.{IsToRead, fresh};

    /// The disk on a path. It never refuses: where the path can't be opened for reading and writing, each call fails.
    pub fn open<R: Files<File = F>>(rt: &R, path: &str) -> FileDisk<F>
        ensures { ⟦<FileDisk<F> as Disk>⟧.device result ≡ fresh }
    {
        FileDisk {
            file: OpenOptions::new()
                .read(true)
                .write(true)
                .open(rt, path)
                .ok(),
            writable: true,
            faults: 0,
            log: Log::new(),
        }
    }

    /// The disk on a path, for reading alone: each write, sync and change of length fails, and nothing reaches the file.
    /// It never refuses: where the path can't be opened for reading, each call fails.
    pub fn open_to_read<R: Files<File = F>>(rt: &R, path: &str) -> FileDisk<F>
        ensures to_read { IsToRead result }
        ensures device { ⟦<FileDisk<F> as Disk>⟧.device result ≡ fresh }
    {
        FileDisk {
            file: OpenOptions::new().read(true).open(rt, path).ok(),
            writable: false,
            faults: 0,
            log: Log::new(),
        }
    }
}

// The length in bytes, found by seeking to the end, which a block device answers too.
fn measure<F: Seek>(file: &mut F) -> io::Result<u64>
    ensures end { IfSome (F.stream_position file.old) (λ _. IfSome (F.stream_bytes file.old) (λ all. IfOk result (λ n. n ≡ length all))) }
    ensures bytes { Keeps (F.stream_bytes file.old) (F.stream_bytes file.new) }
{
    file.seek(SeekFrom::End(0))
}

// Seeks to a range, where it lies within the file.
fn seek_within<F: Seek>(file: &mut F, at: u64, count: usize) -> io::Result<()>
    ensures inside { IfSome (F.stream_position file.old)
        (λ _. IfSome (F.stream_bytes file.old) (λ all. OnOk result (at + count ≤ length all))) }
    ensures placed { IfSome (F.stream_position file.old) (λ _. OnOk result (F.stream_position file.new ≡ Some at)) }
    ensures bytes { Keeps (F.stream_bytes file.old) (F.stream_bytes file.new) }
{
    let end = file.seek(SeekFrom::End(0))?;
    if at > end || count as u64 > end - at {
        return Err(ErrorKind::InvalidInput.into());
    }
    file.seek(SeekFrom::Start(at))?;
    Ok(())
}

// Fills the buffer from an offset on.
fn read_at<F: Read + Seek>(file: &mut F, at: u64, buf: &mut [u8]) -> io::Result<()>
    ensures bytes { ReadsAhead F.stream_bytes F.stream_position F.remaining
        → IfSome (F.stream_position file.old) (λ _. IfSome (F.stream_bytes file.old)
        (λ all. OnOk result (buf.new ≡ bytes_at all at (length buf.old)))) }
{
    seek_within(file, at, buf.len())?;
    file.read_exact(buf)
}

// Writes all the bytes from an offset on, where they lie within the file.
fn write_at<F: Write + Seek>(file: &mut F, at: u64, bytes: &[u8]) -> io::Result<()> {
    seek_within(file, at, bytes.len())?;
    write_whole(file, bytes)
}

// Writes all the bytes where the file stands.
fn write_whole<F: Write>(file: &mut F, bytes: &[u8]) -> io::Result<()>
    ensures { OnOk result (Appends (F.contents file.old) (F.contents file.new) bytes.now) }
{
    file.write_all(bytes)
}

// Counts a call that failed.
fn fault(faults: &mut u64) -> Failed
    ensures rose { Rose faults.old faults.new }
    ensures later { faults.old ≤ faults.new }
{
    *faults = faults.saturating_add(1);
    Failed
}

// The answer of a call, which counts where it is an error.
fn counted<T: Drop>(faults: &mut u64, answer: io::Result<T>) -> Result<T, Failed>
    ensures cause { HasCause faults.old faults.new result }
    ensures same { IsOk result ↔ IsOk answer }
    ensures value { IfOk result (λ value. answer ≡ Ok value) }
{
    match answer {
        Ok(value) => Ok(value),
        Err(_) => {
            *faults = faults.saturating_add(1);
            Err(Failed)
        }
    }
}

impl<F: Read + Write + Seek + OpenFile> FileDisk<F> {
    ghost use Rattle.rp_disk.specs.Device.{NotesLength, NotesRead, NotesWrite};
    ghost use Rattle.rp_disk.specs.FileDisk.{IsMissing, IsToRead, SameOpening, device_of};
    ghost use Rattle.rp_disk.specs.Made.{Makes};

    // The length, noted.
    fn ask_len(&mut self) -> Result<u64, Failed>
        ensures missing { IsMissing self.old → IsErr result }
        ensures stays { SameOpening self.old self.new }
        ensures calls { (device_of self.new).calls ≡ (device_of self.old).calls }
        ensures noted { NotesLength (device_of self.old) (device_of self.new) result }
        ensures cause { HasCause (device_of self.old).faults (device_of self.new).faults result }
    {
        let Some(file) = &mut self.file else {
            return Err(fault(&mut self.faults));
        };
        let answer = measure(file);
        if let Ok(len) = &answer {
            self.log = self.log.then(&Note::Len(*len));
        }
        counted(&mut self.faults, answer)
    }

    // The read, noted.
    fn ask_read(&mut self, at: u64, buf: &mut [u8]) -> Result<(), Failed>
        ensures missing { IsMissing self.old → IsErr result }
        ensures stays { SameOpening self.old self.new }
        ensures calls { (device_of self.new).calls ≡ (device_of self.old).calls }
        ensures noted { NotesRead (device_of self.old) (device_of self.new) at buf.new result }
        ensures cause { HasCause (device_of self.old).faults (device_of self.new).faults result }
    {
        let Some(file) = &mut self.file else {
            self.log = self.log.then(&Note::Missed(at, buf.len()));
            return Err(fault(&mut self.faults));
        };
        let answer = read_at(file, at, buf);
        self.log = self.log.then(&Note::Read(at, buf, answer.is_ok()));
        counted(&mut self.faults, answer)
    }

    // The write, noted.
    fn ask_write(&mut self, at: u64, bytes: &[u8]) -> Result<(), Failed>
        ensures missing { IsMissing self.old → IsErr result }
        ensures to_read { IsToRead self.old → IsErr result × ((device_of self.new).calls ≡ (device_of self.old).calls) }
        ensures stays { SameOpening self.old self.new }
        ensures calls { Makes (device_of self.old).calls (Call.Write at bytes.now) (device_of self.new).calls result }
        ensures noted { NotesWrite (device_of self.old) (device_of self.new) (at + length bytes.now) result }
        ensures cause { HasCause (device_of self.old).faults (device_of self.new).faults result }
    {
        if !self.writable {
            self.log = self.log.then(&Note::Missed(at, bytes.len()));
            return Err(fault(&mut self.faults));
        }
        let Some(file) = &mut self.file else {
            self.log = self.log.then(&Note::Missed(at, bytes.len()));
            return Err(fault(&mut self.faults));
        };
        let answer = write_at(file, at, bytes);
        self.log = self.log.then(&Note::Write(at, bytes, answer.is_ok()));
        counted(&mut self.faults, answer)
    }

    // The sync, noted.
    fn ask_sync(&mut self) -> Result<(), Failed>
        ensures missing { IsMissing self.old → IsErr result }
        ensures to_read { IsToRead self.old → IsErr result × ((device_of self.new).calls ≡ (device_of self.old).calls) }
        ensures stays { SameOpening self.old self.new }
        ensures calls { Makes (device_of self.old).calls Call.Sync (device_of self.new).calls result }
        ensures answers { (device_of self.new).answers ≡ (device_of self.old).answers }
        ensures cause { HasCause (device_of self.old).faults (device_of self.new).faults result }
    {
        if !self.writable {
            return Err(fault(&mut self.faults));
        }
        let Some(file) = &self.file else {
            return Err(fault(&mut self.faults));
        };
        let answer = file.sync_all();
        self.log = self.log.then(&Note::Sync(answer.is_ok()));
        counted(&mut self.faults, answer)
    }

    // The change of length, noted.
    fn ask_set_len(&mut self, len: u64) -> Result<(), Failed>
        ensures missing { IsMissing self.old → IsErr result }
        ensures to_read { IsToRead self.old → IsErr result × ((device_of self.new).calls ≡ (device_of self.old).calls) }
        ensures stays { SameOpening self.old self.new }
        ensures calls { Makes (device_of self.old).calls (Call.SetLen len) (device_of self.new).calls result }
        ensures answers { (device_of self.new).answers ≡ (device_of self.old).answers }
        ensures cause { HasCause (device_of self.old).faults (device_of self.new).faults result }
    {
        if !self.writable {
            return Err(fault(&mut self.faults));
        }
        let Some(file) = &self.file else {
            return Err(fault(&mut self.faults));
        };
        let answer = file.set_len(len);
        self.log = self.log.then(&Note::SetLen(len, answer.is_ok()));
        counted(&mut self.faults, answer)
    }
}

impl<F: Read + Write + Seek + OpenFile> Disk for FileDisk<F> {
    ghost use Rattle.rp_disk.specs.Device.{Earlier, Known, NotesLength, NotesRead, NotesWrite, missed};
    ghost use Rattle.rp_disk.specs.FileDisk.{IsMissing, IsToRead, SameOpening, device_of};
    ghost use Rattle.rp_disk.specs.History.{held};
    ghost use Rattle.rp_disk.specs.Made.{Makes, Past, history_of};

    ghost device = { device_of };

    fn faults(&self) -> u64 {
        self.faults
    }

    fn len(&mut self) -> Result<u64, Failed>
        ensures missing { IsMissing self.old → IsErr result }
        ensures stays { SameOpening self.old self.new }
        ensures calls { (device_of self.new).calls ≡ (device_of self.old).calls }
        ensures noted { NotesLength (device_of self.old) (device_of self.new) result }
        ensures earlier { Earlier (device_of self.old) (device_of self.new) }
        ensures len { Known (device_of self.old) (device_of self.new) (λ h. IfOk result (λ n. n ≡ length (held h))) }
        ensures inside { (past : Past) → missed past (device_of self.new).answers ≡ missed past (device_of self.old).answers }
        ensures cause { HasCause (device_of self.old).faults (device_of self.new).faults result }
    {
        self.ask_len()
    }

    fn read(&mut self, at: u64, buf: &mut [u8]) -> Result<(), Failed>
        ensures missing { IsMissing self.old → IsErr result }
        ensures stays { SameOpening self.old self.new }
        ensures calls { (device_of self.new).calls ≡ (device_of self.old).calls }
        ensures noted { NotesRead (device_of self.old) (device_of self.new) at buf.new result }
        ensures earlier { Earlier (device_of self.old) (device_of self.new) }
        ensures range { Known (device_of self.old) (device_of self.new)
            (λ h. OnOk result (at + length buf.old ≤ length (held h))) }
        ensures bytes { Known (device_of self.old) (device_of self.new)
            (λ h. OnOk result (buf.new ≡ bytes_at (held h) at (length buf.old))) }
        ensures inside { (past : Past) → at + length buf.old ≤ length (held (history_of past (device_of self.old).calls))
            → missed past (device_of self.new).answers ≡ missed past (device_of self.old).answers }
        ensures cause { HasCause (device_of self.old).faults (device_of self.new).faults result }
    {
        self.ask_read(at, buf)
    }

    fn write(&mut self, at: u64, bytes: &[u8]) -> Result<(), Failed>
        ensures missing { IsMissing self.old → IsErr result }
        ensures to_read { IsToRead self.old → IsErr result × ((device_of self.new).calls ≡ (device_of self.old).calls) }
        ensures stays { SameOpening self.old self.new }
        ensures calls { Makes (device_of self.old).calls (Call.Write at bytes.now) (device_of self.new).calls result }
        ensures noted { NotesWrite (device_of self.old) (device_of self.new) (at + length bytes.now) result }
        ensures earlier { Earlier (device_of self.old) (device_of self.new) }
        ensures range { Known (device_of self.old) (device_of self.new)
            (λ h. OnOk result (at + length bytes.now ≤ length (held h))) }
        ensures inside { (past : Past) → at + length bytes.now ≤ length (held (history_of past (device_of self.old).calls))
            → missed past (device_of self.new).answers ≡ missed past (device_of self.old).answers }
        ensures cause { HasCause (device_of self.old).faults (device_of self.new).faults result }
    {
        self.ask_write(at, bytes)
    }

    fn sync(&mut self) -> Result<(), Failed>
        ensures missing { IsMissing self.old → IsErr result }
        ensures to_read { IsToRead self.old → IsErr result × ((device_of self.new).calls ≡ (device_of self.old).calls) }
        ensures stays { SameOpening self.old self.new }
        ensures calls { Makes (device_of self.old).calls Call.Sync (device_of self.new).calls result }
        ensures answers { (device_of self.new).answers ≡ (device_of self.old).answers }
        ensures earlier { Earlier (device_of self.old) (device_of self.new) }
        ensures cause { HasCause (device_of self.old).faults (device_of self.new).faults result }
    {
        self.ask_sync()
    }

    fn set_len(&mut self, len: u64) -> Result<(), Failed>
        ensures missing { IsMissing self.old → IsErr result }
        ensures to_read { IsToRead self.old → IsErr result × ((device_of self.new).calls ≡ (device_of self.old).calls) }
        ensures stays { SameOpening self.old self.new }
        ensures calls { Makes (device_of self.old).calls (Call.SetLen len) (device_of self.new).calls result }
        ensures answers { (device_of self.new).answers ≡ (device_of self.old).answers }
        ensures earlier { Earlier (device_of self.old) (device_of self.new) }
        ensures cause { HasCause (device_of self.old).faults (device_of self.new).faults result }
    {
        self.ask_set_len(len)
    }
}

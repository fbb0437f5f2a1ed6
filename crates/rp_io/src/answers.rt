//! What is made of the host's answers. No call is made here, so all of it is proved.
ghost use Rattle.std.specs.Prelude.{◌≡◌, is_ok, nat_le, IfErr, MatchResult, true, false};
ghost use Rattle.std.specs.IoError.{error_kind};
ghost use Rattle.std.specs.Str.{is_utf8};
ghost use Rattle.rp_io.specs.Host as host;

use crate::IoFault;
use std::fs::Metadata;
use std::io;
use std::io::ErrorKind;
use std::os::unix::fs::MetadataExt;

/// Names that a folder may have, those of its subfolders too.
const MOST_NAMES: usize = 65_536;

// The bits of a mode that say what a file is, and what they are.
const TYPE_BITS: u32 = 0o170_000;

const FOLDER: u32 = 0o040_000;

const PIPE: u32 = 0o010_000;

const SOCKET: u32 = 0o140_000;

// An error is a failure, but want of memory.
pub(crate) fn fault_at(kind: ErrorKind) -> IoFault
    ensures { result ≡ host.fault_at kind }
{
    match kind {
        ErrorKind::OutOfMemory => IoFault::Memory,
        _ => IoFault::Failed,
    }
}

fn type_bits(metadata: &Metadata) -> u32
    ensures { result ≡ host.type_bits metadata.now }
{
    metadata.mode() & TYPE_BITS
}

fn is_folder(metadata: &Metadata) -> bool
    ensures { result ≡ host.is_folder metadata.now }
{
    type_bits(metadata) == FOLDER
}

// Whether a reader may have to wait for another process.
fn may_wait(metadata: &Metadata) -> bool
    ensures { result ≡ host.may_wait metadata.now }
{
    let bits = type_bits(metadata);
    bits == PIPE || bits == SOCKET
}

/// Whether a name is listed: whatever isn't a folder is, and a link to nothing isn't.
pub(crate) fn is_listed(answer: io::Result<Metadata>) -> Result<bool, IoFault>
    ensures { result ≡ host.listed answer }
{
    match answer {
        Ok(metadata) => Ok(!is_folder(&metadata)),
        Err(error) => listed_at(error.kind()),
    }
}

fn listed_at(kind: ErrorKind) -> Result<bool, IoFault>
    ensures { result ≡ host.listed_at kind }
{
    match kind {
        ErrorKind::NotFound => Ok(false),
        kind => Err(fault_at(kind)),
    }
}

/// The folder that was opened. There is none where it is missing, and where it is one of drop-ins with a longer name than
/// the host allows. Any other error is a fault.
pub(crate) fn opened<D>(dir: &str, answer: io::Result<D>) -> Result<Option<D>, IoFault>
    ensures { result ≡ host.opened (host.is_drop_in_folder dir.now) answer }
{
    let is_drop_in = dir.ends_with(".conf.d");
    match answer {
        Ok(folder) => Ok(Some(folder)),
        Err(error) => not_opened(is_drop_in, error.kind()),
    }
}

fn not_opened<D>(is_drop_in: bool, kind: ErrorKind) -> Result<Option<D>, IoFault>
    ensures { result ≡ host.not_opened is_drop_in kind }
{
    match kind {
        ErrorKind::NotFound => Ok(None),
        ErrorKind::InvalidFilename if is_drop_in => Ok(None),
        kind => Err(fault_at(kind)),
    }
}

/// Whether a file can be read without waiting for another process.
pub(crate) fn is_readable(answer: io::Result<Metadata>) -> Result<bool, IoFault>
    ensures { result ≡ host.readable answer }
{
    match answer {
        Ok(metadata) => Ok(!may_wait(&metadata)),
        Err(error) => Err(fault_at(error.kind())),
    }
}

/// An error where a path is no source: a folder, a pipe, a socket, or nothing.
pub(crate) fn check_source(answer: io::Result<Metadata>) -> io::Result<()>
    ensures { is_ok result ≡ host.is_source answer }
{
    let metadata = answer?;
    if is_folder(&metadata) || may_wait(&metadata) {
        return Err(ErrorKind::InvalidInput.into());
    }
    Ok(())
}

/// The text of a listing. A name that isn't UTF-8 is a fault.
pub(crate) fn listing_text(listing: &[u8]) -> Result<&str, IoFault>
    ensures { MatchResult result (λ text. (is_utf8 listing.now ≡ true) × (text.now ≡ listing.now))
        (λ fault. (is_utf8 listing.now ≡ false) × (fault ≡ IoFault.Failed)) }
{
    match std::str::from_utf8(listing) {
        Ok(text) => Ok(text),
        Err(_) => Err(IoFault::Failed),
    }
}

/// Whether a name of a listing is one of the folder's, and not `.` or `..`.
pub(crate) fn is_entry(name: &str) -> bool
    ensures { result ≡ host.is_entry name.now }
{
    !name.is_empty() && !(name == "." || name == "..")
}

/// A fault where a folder has more than 65,536 names.
pub(crate) fn check_count(count: usize) -> Result<(), IoFault>
    ensures few { is_ok result ≡ nat_le count 65536 }
    ensures fault { IfErr result (λ fault. fault ≡ IoFault.Failed) }
{
    if count > MOST_NAMES {
        return Err(IoFault::Failed);
    }
    Ok(())
}

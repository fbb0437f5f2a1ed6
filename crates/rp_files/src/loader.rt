ghost use Rattle.std.specs.Prelude.{◌≡◌, nat_lt, not, map, is_ok, IfSome, IfOk, IfErr};
ghost use Rattle.rp_files.specs.Pieces.{pieces, count_of, ArePieces};
ghost use Rattle.rp_files.specs.Faults.{HasLoadCause, Loads};
ghost use Rattle.rp_files.specs.Found.{group_of};

use crate::found::{Group, groups};
use crate::reader::with_group;
use crate::{LoadFault, Piece};
use rp_base::{List, Text};
use rp_io::Folders;
use std::alloc::Global;

/// Names that may win.
const MOST_NAMES: usize = 256;

/// The pieces of these folders, in byte order of the names of main files, each followed by its drop-ins.
///
/// `dirs` are the paths of the folders. Of one name in several of them the folder given first wins, and an empty file
/// masks its name. All folders are listed before any file is read: more than 256 names that win, empty files among them,
/// are `TooMany`; then the first file of more than 65,536 bytes is `TooBig`. Whether the folders tell or not, there are at
/// most 256 pieces of at most 65,536 bytes each.
pub fn load<F: Folders>(
    alloc: Global,
    folders: &mut F,
    dirs: &[Text],
) -> Result<List<Piece>, LoadFault>
    ensures told { F.told folders.new ≡ F.told folders.old }
    ensures pieces { IfSome (F.told folders.old) (λ tree. Loads (λ found. found) (pieces tree dirs.now) result) }
    ensures within { IfOk result ArePieces }
    ensures strays { IfSome (F.told folders.old) (λ _. F.strays folders.new ≡ F.strays folders.old) }
    ensures cause { HasLoadCause (F.faults folders.old) (F.faults folders.new) result }
{
    let groups = groups(alloc, folders, dirs)?;
    check_count(groups.as_slice())?;
    let mut found = List::new(alloc);
    for group in &groups {
        found = with_group(alloc, folders, found, group)?;
    }
    Ok(found)
}

// A fault where more names win than may.
fn check_count(groups: &[Group]) -> Result<(), LoadFault>
    ensures few { is_ok result ≡ not (nat_lt 256 (count_of (map group_of groups.now))) }
    ensures fault { IfErr result (λ fault. fault ≡ LoadFault.TooMany) }
{
    if has_too_many(groups) {
        return Err(LoadFault::TooMany);
    }
    Ok(())
}

// Whether more names win than may.
fn has_too_many(groups: &[Group]) -> bool
    ensures { result ≡ nat_lt 256 (count_of (map group_of groups.now)) }
{
    let mut left = MOST_NAMES;
    for group in groups {
        let names = group.parts.len();
        if names >= left {
            return true;
        }
        left -= names + 1;
    }
    false
}

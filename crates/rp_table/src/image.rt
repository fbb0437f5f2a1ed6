//! What is read of an image.

ghost use Rattle.std.specs.Prelude.{◌≡◌, ◌≢◌, ◌⊎◌, ◌≤◌, ◌+◌, ◌*◌, ◌/◌, ◌%◌, ◌==◌, ◌&&◌, nat_le, IfOk, IfErr, Err, length};
ghost use Rattle.rp_base.specs.Answers.{Gives};
ghost use Rattle.rp_base.specs.Faults.{Rose};
ghost use Rattle.rp_base.specs.Geometry.{IsSector, least_sectors as least_sectors_of};
ghost use Rattle.rp_base.specs.Image.{bytes_at};
ghost use Rattle.rp_disk.specs.Device.{Earlier, Known, StaysInside, StaysInsideWhere};
ghost use Rattle.rp_disk.specs.History.{held};
ghost use Rattle.rp_gpt.specs.Shown.{accepted, entries_or_least};
ghost use Rattle.rp_gpt.specs.Accepted.{IsSeen};
ghost use Rattle.rp_table.specs.Pieces.{IsDisk, IsSized, AreSized, IsPlaceOf, ArePieces};

use crate::judge::judged;
use crate::pieces::{Pieces, Place};
use rp_base::{
    List, Origin, SECTOR, Seen, Which, copy_bytes, copy_place, header_place, least_sectors,
};
use rp_disk::Disk;
use rp_gpt::{Empty, TableFault, entries_of};
use std::alloc::Global;

/// The most bytes of an image.
const GREATEST_LEN: u64 = 1 << 44;

/// The least and the greatest number of entries of a table.
const LEAST_ENTRIES: u16 = 128;

const GREATEST_ENTRIES: u16 = 1024;

/// What is seen of the image on a disk with sectors of 512 bytes, or the first fault, as by `read_at`.
pub fn read<D: Disk>(alloc: Global, disk: &mut D, empty: Empty) -> Result<Seen, TableFault>
    ensures earlier { Earlier (D.device disk.old) (D.device disk.new) }
    ensures calls { (D.device disk.new).calls ≡ (D.device disk.old).calls }
    ensures inside { StaysInside (D.device disk.old) (D.device disk.new) }
    ensures answer { Known (D.device disk.old) (D.device disk.new)
        (λ h. (result ≡ Err TableFault.Disk) ⊎ Gives TableFault.Memory (accepted 512 (held h) empty) result) }
    ensures len { Known (D.device disk.old) (D.device disk.new)
        (λ h. IfOk result (λ seen. length (held h) ≡ 512 * seen.sectors)) }
    ensures fault { result ≡ Err TableFault.Disk → Rose (D.device disk.old).faults (D.device disk.new).faults }
    ensures kept { (result ≡ Err TableFault.Disk) ⊎ ((D.device disk.new).faults ≡ (D.device disk.old).faults) }
    ensures seen { IfOk result (λ seen. IsSeen 512 seen) }
    ensures origin { empty ≡ Empty.Refuse → IfOk result (λ seen. seen.origin ≢ Origin.Neither) }
{
    read_at(alloc, disk, empty, 512)
}

/// What is seen of the image on a disk with sectors of 512 or 4,096 bytes, or the first fault. It makes no changing call
/// and no stray one, and takes memory for the places of both copies and for the rows of the table.
#[tactic(auto, using(rp_disk::proofs::Noting::earlier_then))]
pub fn read_at<D: Disk>(
    alloc: Global,
    disk: &mut D,
    empty: Empty,
    sector: u32,
) -> Result<Seen, TableFault>
    requires { IsSector sector }
    ensures earlier { Earlier (D.device disk.old) (D.device disk.new) }
    ensures calls { (D.device disk.new).calls ≡ (D.device disk.old).calls }
    ensures inside { StaysInside (D.device disk.old) (D.device disk.new) }
    ensures answer { Known (D.device disk.old) (D.device disk.new)
        (λ h. (result ≡ Err TableFault.Disk) ⊎ Gives TableFault.Memory (accepted sector (held h) empty) result) }
    ensures len { Known (D.device disk.old) (D.device disk.new)
        (λ h. IfOk result (λ seen. length (held h) ≡ 512 * seen.sectors)) }
    ensures fault { result ≡ Err TableFault.Disk → Rose (D.device disk.old).faults (D.device disk.new).faults }
    ensures kept { (result ≡ Err TableFault.Disk) ⊎ ((D.device disk.new).faults ≡ (D.device disk.old).faults) }
    ensures seen { IfOk result (λ seen. IsSeen sector seen) }
    ensures origin { empty ≡ Empty.Refuse → IfOk result (λ seen. seen.origin ≢ Origin.Neither) }
{
    let Ok(len) = disk.len() else {
        return Err(TableFault::Disk);
    };
    if len > GREATEST_LEN {
        return Err(TableFault::TooLong { len });
    }
    if !has_room(len, sector) {
        return Err(TableFault::TooShort { len });
    }
    let pieces = read_pieces(alloc, disk, sector, len / u64::from(sector))?;
    judged(alloc, &pieces, empty)
}

/// Whether this many bytes are whole sectors, and no fewer than a table needs.
fn has_room(len: u64, sector: u32) -> bool
    requires { IsSector sector }
    ensures { result ≡ (len % sector == 0 && nat_le (least_sectors_of sector 128) (len / sector)) }
{
    let size = u64::from(sector);
    len % size == 0 && least_sectors(sector, LEAST_ENTRIES) <= len / size
}

/// The pieces of an image of this many sectors.
#[tactic(auto, using(rp_disk::proofs::Noting::earlier_then))]
fn read_pieces<D: Disk>(
    alloc: Global,
    disk: &mut D,
    sector: u32,
    sectors: u64,
) -> Result<Pieces, TableFault>
    requires { IsDisk sector sectors }
    ensures earlier { Earlier (D.device disk.old) (D.device disk.new) }
    ensures calls { (D.device disk.new).calls ≡ (D.device disk.old).calls }
    ensures inside { StaysInsideWhere (D.device disk.old) (D.device disk.new) (λ h. length (held h) ≡ sector * sectors) }
    ensures pieces { Known (D.device disk.old) (D.device disk.new)
        (λ h. IfOk result (λ pieces. length (held h) ≡ sector * sectors → ArePieces (held h) pieces)) }
    ensures sized { IfOk result (λ pieces. AreSized pieces × (pieces.sector ≡ sector) × (pieces.sectors ≡ sectors)) }
    ensures fault { result ≡ Err TableFault.Disk → Rose (D.device disk.old).faults (D.device disk.new).faults }
    ensures either { IfErr result (λ fault. (fault ≡ TableFault.Disk) ⊎ (fault ≡ TableFault.Memory)) }
    ensures kept { (result ≡ Err TableFault.Disk) ⊎ ((D.device disk.new).faults ≡ (D.device disk.old).faults) }
{
    let first = read_range(alloc, disk, 0, SECTOR as usize)?;
    let primary = read_place(alloc, disk, Which::Primary, sector, sectors)?;
    let backup = read_place(alloc, disk, Which::Backup, sector, sectors)?;
    Ok(Pieces {
        sector,
        sectors,
        first,
        primary,
        backup,
    })
}

/// A copy's place, of as many entries as its header says.
#[tactic(auto, using(rp_disk::proofs::Noting::earlier_then))]
fn read_place<D: Disk>(
    alloc: Global,
    disk: &mut D,
    which: Which,
    sector: u32,
    sectors: u64,
) -> Result<Place, TableFault>
    requires { IsDisk sector sectors }
    ensures earlier { Earlier (D.device disk.old) (D.device disk.new) }
    ensures calls { (D.device disk.new).calls ≡ (D.device disk.old).calls }
    ensures inside { StaysInsideWhere (D.device disk.old) (D.device disk.new) (λ h. length (held h) ≡ sector * sectors) }
    ensures place { Known (D.device disk.old) (D.device disk.new)
        (λ h. IfOk result (λ place. length (held h) ≡ sector * sectors → IsPlaceOf sector (held h) which place)) }
    ensures sized { IfOk result (λ place. IsSized sector sectors place) }
    ensures fault { result ≡ Err TableFault.Disk → Rose (D.device disk.old).faults (D.device disk.new).faults }
    ensures either { IfErr result (λ fault. (fault ≡ TableFault.Disk) ⊎ (fault ≡ TableFault.Memory)) }
    ensures kept { (result ≡ Err TableFault.Disk) ⊎ ((D.device disk.new).faults ≡ (D.device disk.old).faults) }
{
    let size = u64::from(sector);
    let at = size * header_place(which, sectors);
    let header = read_range(alloc, disk, at, sector as usize)?;
    let entries = entries_or_least(sector, sectors, entries_of(header.as_slice()));
    let at = size * copy_place(which, sector, entries, sectors);
    let bytes = read_range(alloc, disk, at, copy_bytes(entries, sector))?;
    Ok(Place { entries, bytes })
}

/// The number of entries that a header says, or the least where a copy may not have so many.
fn entries_or_least(sector: u32, sectors: u64, entries: u32) -> u16
    requires { IsSector sector }
    ensures { result ≡ entries_or_least sector sectors entries }
{
    if entries < u32::from(LEAST_ENTRIES) || entries > u32::from(GREATEST_ENTRIES) {
        return LEAST_ENTRIES;
    }
    let entries = entries as u16;
    if least_sectors(sector, entries) <= sectors {
        entries
    } else {
        LEAST_ENTRIES
    }
}

/// So many bytes of a disk from an offset on.
fn read_range<D: Disk>(
    alloc: Global,
    disk: &mut D,
    at: u64,
    count: usize,
) -> Result<List<u8>, TableFault>
    ensures earlier { Earlier (D.device disk.old) (D.device disk.new) }
    ensures calls { (D.device disk.new).calls ≡ (D.device disk.old).calls }
    ensures inside { StaysInsideWhere (D.device disk.old) (D.device disk.new) (λ h. at + count ≤ length (held h)) }
    ensures bytes { Known (D.device disk.old) (D.device disk.new)
        (λ h. IfOk result (λ bytes. bytes ≡ bytes_at (held h) at count)) }
    ensures len { IfOk result (λ bytes. length bytes ≡ count) }
    ensures fault { result ≡ Err TableFault.Disk → Rose (D.device disk.old).faults (D.device disk.new).faults }
    ensures either { IfErr result (λ fault. (fault ≡ TableFault.Disk) ⊎ (fault ≡ TableFault.Memory)) }
    ensures kept { (result ≡ Err TableFault.Disk) ⊎ ((D.device disk.new).faults ≡ (D.device disk.old).faults) }
{
    let Ok(mut bytes) = vec![in alloc; 0; count] else {
        return Err(TableFault::Memory);
    };
    match disk.read(at, bytes.as_mut_slice()) {
        Ok(()) => Ok(List::from_vec(bytes)),
        Err(_) => Err(TableFault::Disk),
    }
}

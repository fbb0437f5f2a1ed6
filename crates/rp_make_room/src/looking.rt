ghost use Rattle.std.specs.Prelude.{◌≡◌};
ghost use Rattle.rp_make_room.specs.Room.{Looks, is_few as is_few_of, is_looked_at as is_looked_at_of, judged as judged_of, refusal_of, room_for, room_in};
ghost use Rattle.rp_reading.specs.Stages.{refused};

use crate::LENGTH;
use rp_base::{Failed, SECTOR, Seen, least_sectors};
use rp_disk::Disk;
use rp_gpt::{Empty, TableFault};
use rp_table::read;
use std::alloc::Global;

/// The least number of entries of a table.
const ENTRIES: u16 = 128;

/// The fewest sectors of an image without a table that may be given one.
const FEWEST: u64 = 2082;

/// Why an image isn't used for what is made.
#[derive(Debug, Drop)]
pub enum NoRoom {
    /// It has more bytes than `LENGTH`.
    Length { len: u64 },
    /// It isn't accepted, or couldn't be read.
    Image(TableFault),
}

/// The length of the image on a disk, where it may be grown: it isn't longer than `LENGTH`, and shows no table, as far as it
/// has room for one. The disk is read alone.
pub fn look<D: Disk>(alloc: Global, disk: &mut D) -> Result<u64, NoRoom>
    ensures { Looks room_in
        (D.device disk.old) (D.device disk.new)
        (refused refusal_of result) }
{
    match disk.len() {
        Ok(len) => look_at(alloc, disk, len),
        Err(Failed) => Err(NoRoom::Image(TableFault::Disk)),
    }
}

// The same, of an image of so many bytes.
fn look_at<D: Disk>(alloc: Global, disk: &mut D, len: u64) -> Result<u64, NoRoom>
    ensures { Looks (room_for len)
        (D.device disk.old) (D.device disk.new)
        (refused refusal_of result) }
{
    if len > LENGTH {
        return Err(NoRoom::Length { len });
    }
    if !is_looked_at(len) {
        return Ok(len);
    }
    judged(len, read(alloc, disk, Empty::Require))
}

// What is said of the image by what was seen of it.
fn judged(len: u64, seen: Result<Seen, TableFault>) -> Result<u64, NoRoom>
    ensures { refused refusal_of result ≡ judged_of len seen }
{
    match seen {
        Ok(_) => Ok(len),
        Err(TableFault::TooShort { len: found }) if is_few(found) => Ok(len),
        Err(fault) => Err(NoRoom::Image(fault)),
    }
}

// Whether an image of so many bytes has whole sectors, and no fewer than a table needs.
fn is_looked_at(len: u64) -> bool
    ensures { result ≡ is_looked_at_of len }
{
    len % SECTOR == 0 && least_sectors(512, ENTRIES) <= len / SECTOR
}

// Whether an image of so many bytes has too few sectors to be given a table.
fn is_few(len: u64) -> bool
    ensures { result ≡ is_few_of len }
{
    len / SECTOR < FEWEST
}

//! The parts of a copy's place, and the checksum of bytes.

ghost use Rattle.std.specs.Prelude.{◌≡◌, ◌+◌, ◌*◌, ◌≤◌, ◌<◌, None, find, length};
ghost use Rattle.std.specs.List.{range_with_len};
ghost use Rattle.rp_base.specs.Geometry.{IsSector};
ghost use Rattle.rp_crc.specs.Crc.{crc};
ghost use Rattle.rp_gpt.specs.Fields.{entry_count};
ghost use Rattle.rp_gpt.specs.Copy.{header_of, array_of, is_place as is_place_of, least_entries as least_entries_of, chosen_entries as chosen_entries_of, other as other_of};

use crate::layout::{LEAST_ENTRIES, MOST_ENTRIES, header};
use crate::numbers::u32_at;
use rp_base::{Which, copy_bytes};
use rp_crc::Crc;

/// The other copy.
pub fn other(which: Which) -> Which
    ensures { result ≡ other_of which }
{
    match which {
        Which::Primary => Which::Backup,
        Which::Backup => Which::Primary,
    }
}

/// The header's sector and the array's sectors of a copy's place, where a sector has so many bytes.
#[tactic(auto, unfolding(crate::specs::Copy::header_of, crate::specs::Copy::array_of))]
pub fn parts(bytes: &[u8], which: Which, sector: u32) -> (&[u8], &[u8])
    requires { sector ≤ length bytes.now }
    ensures header { result.0.now ≡ header_of sector bytes.now which }
    ensures header_len { length result.0.now ≡ sector }
    ensures array { result.1.now ≡ array_of sector bytes.now which }
    ensures array_len { length result.1.now + sector ≡ length bytes.now }
{
    let sector = sector as usize;
    match which {
        Which::Primary => bytes.split_at(sector),
        Which::Backup => {
            let (array, header) = bytes.split_at(bytes.len() - sector);
            (header, array)
        }
    }
}

/// The number of entries that a header has, whatever it is (offset 80).
pub fn entries_of(header: &[u8]) -> u32
    requires { 92 ≤ length header.now }
    ensures { result ≡ entry_count header.now }
{
    u32_at(header, header::ENTRY_COUNT)
}

/// The number of entries with which a place of so many bytes is read: the header's where the place is one of so many,
/// else the least of those whose place is as long.
pub fn chosen_entries(bytes: usize, header: &[u8], sector: u32) -> u16
    requires sector { IsSector sector }
    requires header { 92 ≤ length header.now }
    ensures { result ≡ chosen_entries_of sector bytes header.now }
{
    let count = entries_of(header);
    if count <= u32::from(MOST_ENTRIES) && is_place(bytes, count as u16, sector) {
        count as u16
    } else {
        least_entries(bytes, sector)
    }
}

/// Whether so many bytes are a place of so many entries, which a table may have.
fn is_place(bytes: usize, entries: u16, sector: u32) -> bool
    requires { IsSector sector }
    ensures { result ≡ is_place_of sector bytes entries }
{
    LEAST_ENTRIES <= entries && entries <= MOST_ENTRIES && bytes == copy_bytes(entries, sector)
}

/// The least number of entries whose place has so many bytes.
fn least_entries(bytes: usize, sector: u32) -> u16
    requires { IsSector sector }
    ensures { result ≡ least_entries_of sector bytes }
{
    for entries in LEAST_ENTRIES..MOST_ENTRIES + 1 {
        if is_place(bytes, entries, sector) {
            return entries;
        }
    }
    LEAST_ENTRIES
}

/// The CRC-32 of some bytes.
pub fn crc_of(bytes: &[u8]) -> u32
    ensures { result ≡ crc bytes.now }
{
    let mut crc = Crc::new();
    crc.update(bytes);
    crc.value()
}

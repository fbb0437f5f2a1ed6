//! Whether bytes are a table's exact copy.

ghost use Rattle.std.specs.Prelude.{◌≡◌, ◌*◌, ◌^◌, ◌≤◌, ◌<◌, ◌↔◌, IsTrue, length, replicate, take};
ghost use Rattle.rp_base.specs.Geometry.{array_sectors, copy_bytes, least_sectors};
ghost use Rattle.rp_base.specs.Table.{IsWritable};
ghost use Rattle.rp_gpt.specs.Copy.{header_bytes, signed_fields as signed_fields_of, table_entries, table_array, exact};

use crate::encode::{entry_at, signed_fields};
use crate::layout::ENTRY;
use crate::places::{crc_of, parts};
use rp_base::{Table, Which};

/// Whether the bytes of a place, `copy_bytes` for the table's entries and sectors, are the exact copy of the table on a
/// disk of so many sectors.
pub fn is_exact(table: &Table, which: Which, sectors: u64, bytes: &[u8]) -> bool
    requires place { length bytes.now ≡ copy_bytes table.now.entries table.now.sector }
    requires writable { IsWritable table.now }
    requires room { least_sectors table.now.sector table.now.entries ≤ sectors }
    requires most { sectors ≤ 2 ^ 35 }
    ensures { IsTrue result ↔ (bytes.now ≡ exact table.now which sectors) }
{
    let (header, array) = parts(bytes, which, table.sector);
    let entries = &array[..ENTRY * table.entries as usize];
    is_array(table, array) && is_header(table, which, sectors, crc_of(entries), header)
}

/// Whether sectors are those of the table's array.
fn is_array(table: &Table, array: &[u8]) -> bool
    requires length { length array.now ≡ table.now.sector * array_sectors table.now.sector table.now.entries }
    requires writable { IsWritable table.now }
    ensures { IsTrue result ↔ (array.now ≡ table_array table.now) }
{
    let (entries, rest) = array.split_at(ENTRY * table.entries as usize);
    is_entries(table, entries) && is_zero(rest)
}

/// Whether a sector is the header of the exact copy.
fn is_header(table: &Table, which: Which, sectors: u64, entries_crc: u32, header: &[u8]) -> bool
    requires length { length header.now ≡ table.now.sector }
    requires writable { IsWritable table.now }
    requires room { least_sectors table.now.sector table.now.entries ≤ sectors }
    ensures { IsTrue result ↔ (header.now ≡ header_bytes table.now which sectors entries_crc) }
{
    let fields = signed_fields(table, which, sectors, entries_crc);
    let (front, rest) = header.split_at(fields.len());
    is_same(front, &fields) && is_zero(rest)
}

/// Whether two ranges of bytes are equal.
fn is_same(a: &[u8], b: &[u8]) -> bool
    ensures { IsTrue result ↔ (a.now ≡ b.now) }
{
    a == b
}

/// Whether all bytes are zeros.
fn is_zero(bytes: &[u8]) -> bool
    ensures { IsTrue result ↔ (bytes.now ≡ replicate (length bytes.now) 0) }
{
    bytes.iter().all(|byte| *byte == 0)
}

/// Whether entries are those of the table.
fn is_entries(table: &Table, entries: &[u8]) -> bool
    requires length { length entries.now ≡ 128 * table.now.entries }
    requires writable { IsWritable table.now }
    ensures { IsTrue result ↔ (entries.now ≡ table_entries table.now) }
{
    let mut next = 0;
    for slot in 0..table.entries {
        let at = ENTRY * slot as usize;
        let (entry, after) = entry_at(table, next, slot);
        if !is_same(&entries[at..at + ENTRY], &entry) {
            return false;
        }
        next = after;
    }
    true
}

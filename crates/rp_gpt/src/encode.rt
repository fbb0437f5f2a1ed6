//! A table to the bytes of its exact copy.

ghost use Rattle.std.specs.Prelude.{◌≡◌, ◌+◌, ◌*◌, ◌-◌, ◌/◌, ◌^◌, ◌≤◌, ◌<◌, ◌==◌, All, AllPairs, IfSome, find, length, replicate, take};
ghost use Rattle.std.specs.Option.{option_copied};
ghost use Rattle.rp_base.specs.Geometry.{IsSector, array_sectors, copy_bytes, least_sectors, sector_units as sector_units_of};
ghost use Rattle.rp_base.specs.Table.{IsWhole, IsWritable, RowFits, TableFits};
ghost use Rattle.rp_crc.specs.Crc.{crc};
ghost use Rattle.rp_gpt.specs.Copy.{ReadsBack, header_fields as header_fields_of, signed_fields as signed_fields_of, count_below, header_bytes, row_bytes as row_bytes_of, slot_bytes, table_entries, table_array, exact};

use crate::layout::{EFI_PART, ENTRY, ENTRY_SIZE, HEADER_SIZE_1, REVISION_1, entry, header};
use crate::numbers::{put_bytes, put_guid, put_u32, put_u64, put_units};
use crate::places::{crc_of, other};
use rp_base::{Row, Table, Which, array_place, header_place, sector_units};

/// The entry of a row.
fn row_bytes(row: &Row, sector: u32) -> [u8; 128]
    requires sector { IsSector sector }
    requires sized { sector_units_of sector ≤ row.now.start + row.now.size }
    requires fits { row.now.start + row.now.size ≤ 2 ^ 35 }
    ensures value { result ≡ row_bytes_of sector row.now }
    ensures fits { RowFits row.now }
{
    let units = sector_units(sector);
    let mut bytes = [0; 128];
    put_guid(&mut bytes, entry::TYPE, row.kind);
    put_guid(&mut bytes, entry::UNIQUE, row.id);
    put_u64(&mut bytes, entry::FIRST_LBA, row.start / units);
    put_u64(
        &mut bytes,
        entry::LAST_LBA,
        (row.start + row.size) / units - 1,
    );
    put_u64(&mut bytes, entry::ATTRIBUTES, row.attrs);
    put_units(&mut bytes, entry::NAME, &row.name);
    bytes
}

/// The sector of the first usable unit.
fn first_lba(first: u64, sector: u32) -> u64
    requires { IsSector sector }
    ensures value { result ≡ first / sector_units_of sector }
    ensures fits { first < 2 ^ 64 }
{
    first / sector_units(sector)
}

/// The sector of the last usable unit, behind which a sector begins.
#[tactic(auto, using(crate::proofs::Sectors::last_sector))]
fn last_lba(last: u64, sector: u32) -> u64
    requires sector { IsSector sector }
    requires whole { IsWhole sector (last + 1) }
    ensures value { result ≡ (last + 1) / sector_units_of sector - 1 }
    ensures fits { last < 2 ^ 64 }
{
    last / sector_units(sector)
}

/// The fields of a header that holds these checksums.
fn header_fields(
    table: &Table,
    which: Which,
    sectors: u64,
    entries_crc: u32,
    own_crc: u32,
) -> [u8; 92]
    requires writable { IsWritable table.now }
    requires room { least_sectors table.now.sector table.now.entries ≤ sectors }
    ensures value { result ≡ header_fields_of table.now which sectors entries_crc own_crc }
    ensures disk { length table.now.disk.0 ≡ 16 }
    ensures first { table.now.first < 2 ^ 64 }
    ensures last { table.now.last < 2 ^ 64 }
{
    let mut bytes = [0; 92];
    put_u64(&mut bytes, header::SIGNATURE, EFI_PART);
    put_u32(&mut bytes, header::REVISION, REVISION_1);
    put_u32(&mut bytes, header::HEADER_SIZE, HEADER_SIZE_1);
    put_u32(&mut bytes, header::HEADER_CRC, own_crc);
    put_u32(&mut bytes, header::RESERVED, 0);
    put_u64(&mut bytes, header::MY_LBA, header_place(which, sectors));
    put_u64(
        &mut bytes,
        header::ALTERNATE_LBA,
        header_place(other(which), sectors),
    );
    put_u64(
        &mut bytes,
        header::FIRST_USABLE_LBA,
        first_lba(table.first, table.sector),
    );
    put_u64(
        &mut bytes,
        header::LAST_USABLE_LBA,
        last_lba(table.last, table.sector),
    );
    put_guid(&mut bytes, header::DISK_GUID, table.disk);
    put_u64(
        &mut bytes,
        header::ARRAY_LBA,
        array_place(which, table.sector, table.entries, sectors),
    );
    put_u32(&mut bytes, header::ENTRY_COUNT, u32::from(table.entries));
    put_u32(&mut bytes, header::ENTRY_SIZE, ENTRY_SIZE);
    put_u32(&mut bytes, header::ARRAY_CRC, entries_crc);
    bytes
}

/// The fields of a header with their own checksum.
#[tactic(auto, unfolding(crate::specs::Copy::signed_fields))]
pub fn signed_fields(table: &Table, which: Which, sectors: u64, entries_crc: u32) -> [u8; 92]
    requires writable { IsWritable table.now }
    requires room { least_sectors table.now.sector table.now.entries ≤ sectors }
    ensures value { result ≡ signed_fields_of table.now which sectors entries_crc }
    ensures disk { length table.now.disk.0 ≡ 16 }
    ensures first { table.now.first < 2 ^ 64 }
    ensures last { table.now.last < 2 ^ 64 }
{
    let unsigned = header_fields(table, which, sectors, entries_crc, 0);
    header_fields(table, which, sectors, entries_crc, crc_of(&unsigned))
}

/// The header's sector.
#[tactic(auto, unfolding(crate::specs::Copy::header_bytes))]
fn write_header(table: &Table, which: Which, sectors: u64, entries_crc: u32, out: &mut [u8])
    requires length { length out.old ≡ table.now.sector }
    requires writable { IsWritable table.now }
    requires room { least_sectors table.now.sector table.now.entries ≤ sectors }
    ensures value { out.new ≡ header_bytes table.now which sectors entries_crc }
    ensures disk { length table.now.disk.0 ≡ 16 }
    ensures first { table.now.first < 2 ^ 64 }
    ensures last { table.now.last < 2 ^ 64 }
{
    let fields = signed_fields(table, which, sectors, entries_crc);
    let (front, rest) = out.split_at_mut(fields.len());
    front.copy_from_slice(&fields);
    rest.fill(0);
}

/// The entry of a slot, and how many rows are of lower slots than the next, where so many are of lower slots than this.
#[tactic(auto, unfolding(crate::specs::Copy::slot_bytes))]
pub fn entry_at(table: &Table, next: usize, slot: u16) -> ([u8; 128], usize)
    requires writable { IsWritable table.now }
    requires next { next ≡ count_below table.now.rows slot }
    ensures len { length result.0 ≡ 128 }
    ensures entry { result.0 ≡ slot_bytes table.now.sector table.now.rows slot }
    ensures next { result.1 ≡ count_below table.now.rows (slot + 1) }
    ensures fits { IfSome (find (λ row. row.slot == slot) table.now.rows) RowFits }
{
    let rows = table.rows.as_slice();
    if next < rows.len() && rows[next].slot == slot {
        (row_bytes(&rows[next], table.sector), next + 1)
    } else {
        ([0; ENTRY], next)
    }
}

/// The entries of a table.
fn write_entries(table: &Table, out: &mut [u8])
    requires length { length out.old ≡ 128 * table.now.entries }
    requires writable { IsWritable table.now }
    ensures value { out.new ≡ table_entries table.now }
    ensures fits { All RowFits table.now.rows }
{
    let mut next = 0;
    for slot in 0..table.entries {
        let (entry, after) = entry_at(table, next, slot);
        put_bytes(out, ENTRY * slot as usize, &entry);
        next = after;
    }
}

/// Header and array, each in its sectors.
fn write_parts(table: &Table, which: Which, sectors: u64, header: &mut [u8], array: &mut [u8])
    requires header { length header.old ≡ table.now.sector }
    requires array { length array.old ≡ table.now.sector * array_sectors table.now.sector table.now.entries }
    requires writable { IsWritable table.now }
    requires room { least_sectors table.now.sector table.now.entries ≤ sectors }
    ensures array { array.new ≡ table_array table.now }
    ensures header { header.new ≡ header_bytes table.now which sectors (crc (table_entries table.now)) }
    ensures fits { TableFits table.now }
{
    let (entries, rest) = array.split_at_mut(ENTRY * table.entries as usize);
    write_entries(table, entries);
    rest.fill(0);
    write_header(table, which, sectors, crc_of(entries), header);
}

/// Writes the exact copy of a table into a place, which has `copy_bytes` bytes for the table's entries and sectors, for
/// a disk of so many sectors.
#[tactic(auto, using(crate::proofs::ReadsBack::reads_back), unfolding(crate::specs::Copy::exact))]
pub fn encode_copy(table: &Table, which: Which, sectors: u64, out: &mut [u8])
    requires place { length out.old ≡ copy_bytes table.now.entries table.now.sector }
    requires writable { IsWritable table.now }
    requires room { least_sectors table.now.sector table.now.entries ≤ sectors }
    requires most { sectors ≤ 2 ^ 35 }
    ensures value { out.new ≡ exact table.now which sectors }
    ensures reads_back { ReadsBack table.now }
{
    let sector = table.sector as usize;
    match which {
        Which::Primary => {
            let (header, array) = out.split_at_mut(sector);
            write_parts(table, which, sectors, header, array);
        }
        Which::Backup => {
            let (array, header) = out.split_at_mut(out.len() - sector);
            write_parts(table, which, sectors, header, array);
        }
    }
}

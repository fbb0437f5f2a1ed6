//! A copy's bytes to a table.

ghost use Rattle.std.specs.Prelude.{◌≡◌, ◌+◌, ◌*◌, ◌-◌, ◌^◌, ◌≤◌, ◌<◌, ◌↔◌, IsTrue, IfOk, IfErr, IfSome, All, Err, None, Some, length, take, drop, find, map, min};
ghost use Rattle.rp_base.specs.Answers.{Gives};
ghost use Rattle.rp_base.specs.Geometry.{IsSector, AreEntries, least_sectors, sector_units as sector_units_of};
ghost use Rattle.rp_base.specs.Table.{IsWritable, AreWritableRows, RowFits, TableFits};
ghost use Rattle.rp_crc.specs.Crc.{crc};
ghost use Rattle.rp_gpt.specs.Copy.{IsPlace, header_fault as header_fault_of, summed, is_used as is_used_of, is_ordered as is_ordered_of, row_of, rows_of, unordered_slot as unordered_slot_of, saturated as saturated_of, table_of, answer};

use crate::copy::CopyFault;
use crate::layout::{
    EFI_PART, ENTRY, ENTRY_SIZE, HEADER_SIZE_1, MOST_UNITS, REVISION_1, entry, header,
};
use crate::numbers::{guid_at, u32_at, u64_at, units_at};
use crate::places::{chosen_entries, crc_of, entries_of, parts};
use rp_base::{List, Memory, Row, Table, Which, array_place, header_place, sector_units};
use rp_crc::Crc;
use std::alloc::Global;

/// The table that the bytes of a copy's place stand for, on a disk of so many sectors of this size, or the first test
/// that they fail, in the order of `CopyFault`. It is read with the header's number of entries where a place of so many
/// has as many bytes, else with the least number whose place has. Not looked at: AlternateLBA, the reserved field,
/// bytes past the header's size and past the entries, and unused entries but for their type. A usable LBA whose units of
/// 512 bytes don't fit 64 bits stands as 2^64 - 1; a table whose first one does can't be written.
pub fn decode_copy(
    alloc: Global,
    bytes: &[u8],
    which: Which,
    sectors: u64,
    sector: u32,
) -> Result<Table, CopyFault>
    requires sector { IsSector sector }
    requires place { IsPlace sector sectors (length bytes.now) }
    requires most { sectors ≤ 2 ^ 35 }
    ensures answer { Gives CopyFault.Memory (answer bytes.now which sectors sector) result }
    ensures refused { IfErr (answer bytes.now which sectors sector) (λ fault. result ≡ Err fault) }
    ensures fits { IfOk result TableFits }
    ensures rows { IfOk result AreWritableRows }
    ensures writable { IfOk result (λ table. table.first < 2 ^ 64 - 1 → IsWritable table) }
{
    let (header, array) = parts(bytes, which, sector);
    let entries = chosen_entries(bytes.len(), header, sector);
    let array = &array[..ENTRY * entries as usize];
    if let Some(fault) = header_fault(header, array, which, sectors, sector, entries) {
        return Err(fault);
    }
    if let Some(slot) = unordered_slot(array, sector, entries) {
        return Err(CopyFault::RowOrder { slot });
    }
    Ok(read_table(alloc, header, array, sector, entries)?)
}

/// The first test that a copy fails, of those that look at no entry.
#[tactic(auto, unfolding(crate::specs::Copy::header_fault))]
fn header_fault(
    header: &[u8],
    array: &[u8],
    which: Which,
    sectors: u64,
    sector: u32,
    entries: u16,
) -> Option<CopyFault>
    requires sector { IsSector sector }
    requires header { length header.now ≡ sector }
    requires room { least_sectors sector entries ≤ sectors }
    ensures { result ≡ header_fault_of sector entries which sectors header.now array.now }
{
    if u64_at(header, header::SIGNATURE) != EFI_PART {
        return Some(CopyFault::Signature);
    }
    if u32_at(header, header::REVISION) != REVISION_1 {
        return Some(CopyFault::Revision);
    }
    let header_size = u32_at(header, header::HEADER_SIZE);
    if header_size < HEADER_SIZE_1 || header_size > sector {
        return Some(CopyFault::HeaderSize);
    }
    if header_crc(header, header_size as usize) != u32_at(header, header::HEADER_CRC) {
        return Some(CopyFault::HeaderCrc);
    }
    if u64_at(header, header::MY_LBA) != header_place(which, sectors) {
        return Some(CopyFault::Place);
    }
    if u64_at(header, header::ARRAY_LBA) != array_place(which, sector, entries, sectors) {
        return Some(CopyFault::ArrayPlace);
    }
    let count = entries_of(header);
    let size = u32_at(header, header::ENTRY_SIZE);
    if count != u32::from(entries) || size != ENTRY_SIZE {
        return Some(CopyFault::Counts { count, size });
    }
    if crc_of(array) != u32_at(header, header::ARRAY_CRC) {
        return Some(CopyFault::ArrayCrc);
    }
    None
}

/// The checksum of a header's first bytes, with zeros in the place of the checksum.
#[tactic(auto, unfolding(crate::specs::Copy::summed))]
fn header_crc(header: &[u8], size: usize) -> u32
    requires least { 92 ≤ size }
    requires most { size ≤ length header.now }
    ensures { result ≡ crc (summed header.now size) }
{
    let mut crc = Crc::new();
    crc.update(&header[..header::HEADER_CRC]);
    crc.update(&[0; 4]);
    crc.update(&header[header::RESERVED..size]);
    crc.value()
}

/// The least slot of a used entry that is out of order.
fn unordered_slot(array: &[u8], sector: u32, entries: u16) -> Option<u16>
    requires sector { IsSector sector }
    requires length { length array.now ≡ 128 * entries }
    ensures { result ≡ unordered_slot_of sector array.now entries }
{
    for slot in 0..entries {
        let at = ENTRY * slot as usize;
        let entry = &array[at..at + ENTRY];
        if is_used(entry) && !is_ordered(entry, sector) {
            return Some(slot);
        }
    }
    None
}

/// Whether an entry's type isn't that of an unused one.
#[tactic(auto, unfolding(crate::specs::Copy::is_used))]
fn is_used(entry: &[u8]) -> bool
    requires { length entry.now ≡ 128 }
    ensures { result ≡ is_used_of entry.now }
{
    !guid_at(entry, entry::TYPE).is_zero()
}

/// Whether an entry ends at its start or behind it, and within 2^44 bytes.
#[tactic(auto, unfolding(crate::specs::Copy::is_ordered))]
fn is_ordered(entry: &[u8], sector: u32) -> bool
    requires sector { IsSector sector }
    requires length { length entry.now ≡ 128 }
    ensures { result ≡ is_ordered_of sector entry.now }
{
    let last = u64_at(entry, entry::LAST_LBA);
    u64_at(entry, entry::FIRST_LBA) <= last && last < MOST_UNITS / sector_units(sector)
}

/// The table of a header and its entries, which are in order.
#[tactic(auto, unfolding(crate::specs::Copy::table_of))]
fn read_table(
    alloc: Global,
    header: &[u8],
    array: &[u8],
    sector: u32,
    entries: u16,
) -> Result<Table, Memory>
    requires sector { IsSector sector }
    requires header { 92 ≤ length header.now }
    requires array { length array.now ≡ 128 * entries }
    requires ordered { unordered_slot_of sector array.now entries ≡ None }
    ensures value { IfOk result (λ table. table ≡ table_of sector entries header.now array.now) }
    ensures fits { IfOk result TableFits }
{
    let rows = read_rows(alloc, array, sector, entries)?;
    Ok(Table {
        sector,
        entries,
        disk: guid_at(header, header::DISK_GUID),
        first: first_unit(u64_at(header, header::FIRST_USABLE_LBA), sector),
        last: last_unit(u64_at(header, header::LAST_USABLE_LBA), sector),
        rows,
    })
}

/// The first unit of a sector, or 2^64 - 1.
fn first_unit(lba: u64, sector: u32) -> u64
    ensures { result ≡ saturated_of (sector_units_of sector * lba) }
{
    sector_units(sector).saturating_mul(lba)
}

/// The last unit of a sector, or 2^64 - 1.
fn last_unit(lba: u64, sector: u32) -> u64
    requires { IsSector sector }
    ensures { result ≡ saturated_of (sector_units_of sector * (lba + 1) - 1) }
{
    let units = sector_units(sector);
    units.saturating_mul(lba).saturating_add(units - 1)
}

/// The rows of the used entries, which are in order.
fn read_rows(alloc: Global, array: &[u8], sector: u32, entries: u16) -> Result<List<Row>, Memory>
    requires sector { IsSector sector }
    requires length { length array.now ≡ 128 * entries }
    requires ordered { unordered_slot_of sector array.now entries ≡ None }
    ensures value { IfOk result (λ rows. rows ≡ rows_of sector array.now entries) }
    ensures fits { IfOk result (All RowFits) }
{
    let mut rows = List::new(alloc);
    for slot in 0..entries {
        let at = ENTRY * slot as usize;
        let entry = &array[at..at + ENTRY];
        if is_used(entry) {
            rows.push(read_row(entry, slot, sector))?;
        }
    }
    Ok(rows)
}

/// The row of an entry that is in order.
#[tactic(auto, unfolding(crate::specs::Copy::row_of))]
fn read_row(entry: &[u8], slot: u16, sector: u32) -> Row
    requires sector { IsSector sector }
    requires length { length entry.now ≡ 128 }
    requires ordered { IsTrue (is_ordered_of sector entry.now) }
    ensures value { result ≡ row_of sector entry.now slot }
    ensures fits { RowFits result }
{
    let units = sector_units(sector);
    let start = units * u64_at(entry, entry::FIRST_LBA);
    Row {
        slot,
        kind: guid_at(entry, entry::TYPE),
        id: guid_at(entry, entry::UNIQUE),
        start,
        size: units * (u64_at(entry, entry::LAST_LBA) + 1) - start,
        attrs: u64_at(entry, entry::ATTRIBUTES),
        name: units_at(entry, entry::NAME),
    }
}

//! Where a table lies on a disk, by the bytes of a sector and the number of entries (UEFI 2.10, 5.3.1).

ghost use Rattle.std.specs.Prelude.{◌≡◌, ◌≤◌, ◌^◌};
ghost use Rattle.rp_base.specs.Geometry.{IsSector, array_place as array_place_of, array_sectors as array_sectors_of, copy_bytes as copy_bytes_of, copy_place as copy_place_of, first_usable as first_usable_of, header_place as header_place_of, least_sectors as least_sectors_of, sector_units as sector_units_of, usable_end as usable_end_of};

use crate::SECTOR;

/// Which of the two copies of the table on a disk.
#[derive(Clone, Copy, Debug, PartialEq, Eq)]
pub enum Which {
    /// At the disk's start: the header in LBA 1, the entries from LBA 2.
    Primary,
    /// At the disk's end: the entries before the last LBA, the header in the last.
    Backup,
}

/// Units of 512 bytes in a sector.
pub fn sector_units(sector: u32) -> u64
    ensures { result ≡ sector_units_of sector }
{
    u64::from(sector) / SECTOR
}

/// Sectors of the array of so many entries, each of 128 bytes.
pub fn array_sectors(sector: u32, entries: u16) -> u64
    requires sector { IsSector sector }
    ensures { result ≡ array_sectors_of sector entries }
{
    (128 * u64::from(entries) + u64::from(sector) - 1) / u64::from(sector)
}

/// Bytes of a copy: its header's sector and those of its array.
pub fn copy_bytes(entries: u16, sector: u32) -> usize
    requires sector { IsSector sector }
    ensures { result ≡ copy_bytes_of entries sector }
{
    sector as usize * (1 + array_sectors(sector, entries) as usize)
}

/// Sectors of the least disk: LBA 0, two copies, and a sector between them.
pub fn least_sectors(sector: u32, entries: u16) -> u64
    requires sector { IsSector sector }
    ensures { result ≡ least_sectors_of sector entries }
{
    4 + 2 * array_sectors(sector, entries)
}

/// The first unit of 512 bytes that partitions may use, behind the primary.
pub fn first_usable(sector: u32, entries: u16) -> u64
    requires sector { IsSector sector }
    ensures { result ≡ first_usable_of sector entries }
{
    sector_units(sector) * (2 + array_sectors(sector, entries))
}

/// The first unit of 512 bytes behind those that partitions may use: where the backup begins on a disk of so many
/// sectors.
pub fn usable_end(sector: u32, entries: u16, sectors: u64) -> u64
    requires sector { IsSector sector }
    requires least { least_sectors_of sector entries ≤ sectors }
    requires most { sectors ≤ 2 ^ 35 }
    ensures { result ≡ usable_end_of sector entries sectors }
{
    sector_units(sector) * (sectors - 1 - array_sectors(sector, entries))
}

/// The sector of a header.
pub fn header_place(which: Which, sectors: u64) -> u64
    requires { 1 ≤ sectors }
    ensures { result ≡ header_place_of which sectors }
{
    match which {
        Which::Primary => 1,
        Which::Backup => sectors - 1,
    }
}

/// The first sector of an array.
pub fn array_place(which: Which, sector: u32, entries: u16, sectors: u64) -> u64
    requires sector { IsSector sector }
    requires least { least_sectors_of sector entries ≤ sectors }
    ensures { result ≡ array_place_of which sector entries sectors }
{
    match which {
        Which::Primary => 2,
        Which::Backup => sectors - 1 - array_sectors(sector, entries),
    }
}

/// The first sector of a copy: that of the primary's header, or of the backup's array.
pub fn copy_place(which: Which, sector: u32, entries: u16, sectors: u64) -> u64
    requires sector { IsSector sector }
    requires least { least_sectors_of sector entries ≤ sectors }
    ensures { result ≡ copy_place_of which sector entries sectors }
{
    match which {
        Which::Primary => header_place(which, sectors),
        Which::Backup => array_place(which, sector, entries, sectors),
    }
}

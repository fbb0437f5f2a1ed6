//! The bytes of a copy, by the UEFI specification's tables 5-5 and 5-6.

/// Bytes of an entry.
pub const ENTRY: usize = 128;

/// The least number of entries that a table may have.
pub const LEAST_ENTRIES: u16 = 128;

/// The greatest number of entries that a table may have, an own limit.
pub const MOST_ENTRIES: u16 = 1024;

/// `EFI PART`.
pub const EFI_PART: u64 = 0x5452_4150_2049_4645;

/// Revision 1.0.
pub const REVISION_1: u32 = 0x0001_0000;

/// Bytes of the header that the revision defines.
pub const HEADER_SIZE_1: u32 = 92;

/// The size of an entry, as a header has it.
pub const ENTRY_SIZE: u32 = 128;

/// Units of 512 bytes that an entry may reach: 2^44 bytes, an own limit.
pub const MOST_UNITS: u64 = 1 << 35;

pub mod header {
    //! Offsets in a header.

    pub const SIGNATURE: usize = 0;

    pub const REVISION: usize = 8;

    pub const HEADER_SIZE: usize = 12;

    pub const HEADER_CRC: usize = 16;

    pub const RESERVED: usize = 20;

    pub const MY_LBA: usize = 24;

    pub const ALTERNATE_LBA: usize = 32;

    pub const FIRST_USABLE_LBA: usize = 40;

    pub const LAST_USABLE_LBA: usize = 48;

    pub const DISK_GUID: usize = 56;

    pub const ARRAY_LBA: usize = 72;

    pub const ENTRY_COUNT: usize = 80;

    pub const ENTRY_SIZE: usize = 84;

    pub const ARRAY_CRC: usize = 88;
}

pub mod entry {
    //! Offsets in an entry.

    pub const TYPE: usize = 0;

    pub const UNIQUE: usize = 16;

    pub const FIRST_LBA: usize = 32;

    pub const LAST_LBA: usize = 40;

    pub const ATTRIBUTES: usize = 48;

    pub const NAME: usize = 56;
}

use crate::Table;

/// Which copy of the table is shown.
#[derive(Clone, Copy, Debug, PartialEq, Eq)]
pub enum Origin {
    Primary,
    Backup,
    Neither,
}

/// What the first 512 bytes hold where the protective MBR lies (UEFI 2.10, 5.2.3): the record of the image's size, other
/// bytes that may be overwritten, or partitions of another table.
#[derive(Clone, Copy, Debug, PartialEq, Eq)]
pub enum Mbr {
    Same,
    Differs,
    Foreign,
}

/// What was read of an image: its length in units of 512 bytes, the table that it shows, whether each place holds the exact
/// copy of that table, and the state of the MBR.
#[derive(Debug, Drop)]
pub struct Seen {
    pub sectors: u64,
    pub shown: Table,
    pub origin: Origin,
    pub primary_same: bool,
    pub backup_same: bool,
    pub mbr: Mbr,
}

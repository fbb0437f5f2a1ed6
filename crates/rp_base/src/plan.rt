use crate::{Guid, List, Table};

/// How a row of a plan's goal differs from the table that is shown.
#[derive(Clone, Copy, Debug, PartialEq, Eq)]
pub enum Change {
    /// The shown table has no row in its slot.
    New,
    Changed,
    Same,
}

/// What a row is to a hash tree (Linux, dm-verity). A partner is the slot of the other half of the pair.
#[derive(Clone, Copy, Debug, PartialEq, Eq)]
pub enum Role {
    Plain,
    /// The data, with the root hash that is planned for it.
    Data {
        partner: u16,
        root: [u8; 32],
    },
    /// The tree over so many data blocks of 4,096 bytes, with the salt and UUID of its superblock.
    Hash {
        partner: u16,
        blocks: u64,
        salt: [u8; 32],
        uuid: Guid,
        root: [u8; 32],
    },
}

/// What is planned for a row of the goal.
#[derive(Clone, Copy, Debug, PartialEq, Eq)]
pub struct Note {
    pub slot: u16,
    /// The place of its definition in the list of definitions; none for a foreign row.
    pub file: Option<u16>,
    pub change: Change,
    /// The bytes of a new row's source, if it has one.
    pub source: Option<u64>,
    /// Roles other than `Plain` stand on new rows alone.
    pub role: Role,
}

/// What is to become of an image: its length in units of 512 bytes, its table, and a note for each row of it in the same
/// order.
#[derive(Debug, Drop)]
pub struct Plan {
    pub target: u64,
    pub goal: Table,
    pub notes: List<Note>,
    /// The places of the definitions that get no row, rising.
    pub dropped: List<u16>,
    /// Definitions of a higher priority number were dropped.
    pub threshold: i32,
}

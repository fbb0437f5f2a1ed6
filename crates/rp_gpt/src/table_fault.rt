use thiserror::Error;

/// What becomes of an image that shows no table, or one.
#[derive(Clone, Copy, Debug, PartialEq, Eq)]
pub enum Empty {
    /// An image without a table is refused.
    Refuse,
    /// An image without a table is taken for an empty one.
    Allow,
    /// As `Allow`, and an image with a table is refused.
    Require,
}

/// Why an image isn't accepted. Lengths are bytes, bounds sectors.
#[derive(Clone, Copy, Debug, PartialEq, Eq, Error)]
pub enum TableFault {
    #[error("the disk failed")]
    Disk,
    #[error("{len} bytes are more than 2^44")]
    TooLong { len: u64 },
    #[error("{len} bytes don't hold the table")]
    TooShort { len: u64 },
    #[error("the array of entries stands in another place")]
    ArrayPlace,
    #[error("{count} entries of {size} bytes")]
    EntryCount { count: u32, size: u32 },
    #[error("the first sector has a partition of type {kind} of another table")]
    OtherTable { kind: u8 },
    #[error("no table")]
    NoTable,
    #[error("there is a table")]
    NotEmpty,
    #[error("usable sectors from {first} to {last}")]
    Bounds { first: u64, last: u64 },
    #[error("slot {slot} is out of the usable sectors")]
    RowRange { slot: u16 },
    #[error("slots {a} and {b} share a sector")]
    Overlap { a: u16, b: u16 },
    #[error("out of memory")]
    Memory,
}

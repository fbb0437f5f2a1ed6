/// What is first found wrong of a tree; a block's number is its place in its partition, from 0.
#[derive(Clone, Copy, Debug, PartialEq, Eq)]
pub enum Bad {
    /// The superblock isn't right.
    Superblock,
    /// The digest of the topmost block, or of the only data block, isn't the identifiers of the rows.
    Top,
    /// The digest of a hash block isn't the one that the level above has for it.
    Hash { block: u64 },
    /// The digest of a data block isn't the one that the lowest level has for it.
    Data { block: u64 },
}

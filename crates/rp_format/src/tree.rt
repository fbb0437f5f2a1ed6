use rp_base::Guid;

/// A hash tree that is to be written; places in bytes.
#[derive(Clone, Copy, Debug, PartialEq, Eq)]
pub struct TreePlan {
    /// Where the data blocks begin.
    pub data_at: u64,
    /// Where the superblock's block begins, with the hash blocks behind it.
    pub hash_at: u64,
    /// How many data blocks there are.
    pub blocks: u64,
    pub salt: [u8; 32],
    /// The UUID in the superblock.
    pub uuid: Guid,
    /// The root hash that the tree is to have.
    pub root: [u8; 32],
}

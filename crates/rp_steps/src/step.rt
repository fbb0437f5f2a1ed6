use rp_base::Guid;

/// A step of carrying out a plan; places and lengths in bytes.
#[derive(Clone, Copy, Debug, PartialEq, Eq)]
pub enum Step {
    /// The image gets this length.
    Grow {
        len: u64,
    },
    /// Zeros are written.
    Zero {
        at: u64,
        len: u64,
    },
    /// The first bytes of the source of a definition are written.
    Copy {
        file: u16,
        at: u64,
        len: u64,
    },
    /// The hash tree over so many data blocks is written, and its superblock (Linux, dm-verity).
    Tree {
        data_at: u64,
        hash_at: u64,
        blocks: u64,
        salt: [u8; 32],
        uuid: Guid,
        root: [u8; 32],
    },
    /// The header's sector of a place is closed by zeros.
    ClosePrimary,
    /// The array of a place is written.
    ArrayPrimary,
    /// The header of a place is written, which opens it.
    HeaderPrimary,
    CloseBackup,
    ArrayBackup,
    HeaderBackup,
    /// The protective MBR is written.
    Mbr,
    Sync,
}

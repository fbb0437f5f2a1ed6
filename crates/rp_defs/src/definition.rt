use rp_base::{Guid, List, Text, Want};

/// Which half of a verity pair a definition is, `Off` where it is none. `partner` is the place of the other half in the
/// list of definitions.
#[derive(Clone, Copy, Debug, PartialEq, Eq)]
pub enum Verity {
    Off,
    Data { partner: u16 },
    Hash { partner: u16 },
}

/// What a definition file and its drop-ins say of a partition (repart.d(5)).
#[derive(Debug, Drop)]
pub struct Definition {
    /// The name of the main file.
    pub file: Text,
    /// The partition type, `Type=`.
    pub kind: Guid,
    /// The partition's name in units of UTF-16, zeros behind it, `Label=`; none where it is unset.
    pub label: Option<[u16; 36]>,
    /// The partition's identifier, `UUID=`; none where it is unset.
    pub id: Option<Guid>,
    /// `Priority=`: those of the highest number are dropped first. Both halves of a pair have the same.
    pub priority: i32,
    /// The sizes, in grains, and the weights.
    pub want: Want,
    /// The attribute bits of a new partition (Discoverable Partitions Specification).
    pub attrs: u64,
    /// The path of the file whose bytes a new partition begins with, `CopyBlocks=`.
    pub source: Option<Text>,
    /// `Verity=` and `VerityMatchKey=`.
    pub verity: Verity,
    /// `FactoryReset=`: a factory reset makes the partition anew.
    pub factory_reset: bool,
    /// The name of the file that the partition is split into, `SplitName=`; none where it is unset, and the partition then
    /// gives no file.
    pub split: Option<Text>,
}

/// The definitions, in the order of their main files.
#[derive(Debug, Drop)]
pub struct Definitions {
    pub list: List<Definition>,
    /// How many assignments were ignored: those of unknown keys in `[Partition]`, and all of other sections.
    pub ignored: u32,
}

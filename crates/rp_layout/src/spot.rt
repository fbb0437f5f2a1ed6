/// Where a partition lies: the units of 512 bytes that it begins at and has, and the grains of 4,096 bytes of the padding
/// behind its whole grains.
#[derive(Clone, Copy, Debug, PartialEq, Eq)]
pub struct Spot {
    /// Its place among the definitions.
    pub file: u16,
    pub start: u64,
    pub size: u64,
    pub pad: u64,
}

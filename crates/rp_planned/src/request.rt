use rp_base::Guid;
use rp_gpt::Empty;
use rp_types::Arch;

/// What a command that plans is asked for.
#[derive(Clone, Copy, Debug, PartialEq, Eq)]
pub struct Request {
    /// What identifiers are derived from.
    pub seed: Guid,
    /// What `root`, `usr` and the like, and `%a` stand for.
    pub arch: Arch,
    /// Whether the image may, or has to, show no table.
    pub empty: Empty,
    /// The bytes that the image is to have, where it has fewer; whole grains of 4,096 bytes, at most 2^44.
    pub size: u64,
    /// Bytes of a sector, 512 or 4,096.
    pub sector: u32,
}

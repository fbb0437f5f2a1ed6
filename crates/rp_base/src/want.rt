/// What a definition asks for: a size and a padding behind it, in grains of 4,096 bytes, with the weights by which
/// free space is shared out.
#[derive(Clone, Copy, Debug, PartialEq, Eq)]
pub struct Want {
    pub min: u64,
    pub max: u64,
    pub weight: u64,
    pub pad_min: u64,
    pub pad_max: u64,
    pub pad_weight: u64,
}

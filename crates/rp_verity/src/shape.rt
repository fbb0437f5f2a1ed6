ghost use Rattle.std.specs.Prelude.{◌≡◌, ◌<◌, ◌≤◌, ◌+◌, ◌-◌, ◌*◌, ◌/◌, ◌^◌};
ghost use Rattle.rp_base.specs.Trees as trees;
ghost use Rattle.rp_verity.specs.Tree.{runs};
ghost use Rattle.rp_verity.specs.Order as order;

/// Bytes of a data block and of a hash block.
pub const BLOCK: usize = 4096;

/// Bytes of a digest.
pub const DIGEST: usize = 32;

/// Digests in a hash block.
pub const FAN: u64 = 128;

/// Units of 512 bytes in a block.
pub const BLOCK_UNITS: u64 = 8;

/// Blocks that are hashed at once, each in a lane.
pub const LANES: usize = 4;

/// How many levels of hash blocks stand over so many data blocks: none over one. There are 1 to 2^32 data blocks.
pub fn levels(blocks: u64) -> u32
    requires some { 1 ≤ blocks }
    requires few { blocks ≤ 2 ^ 32 }
    ensures levels { result ≡ trees.levels blocks }
    ensures few_levels { result ≤ 5 }
    ensures top { (blocks - 1) / 128 ^ result ≡ 0 }
{
    let mut level = 0;
    let mut rest = blocks - 1;
    while rest != 0 {
        rest /= FAN;
        level += 1;
    }
    level
}

/// How many blocks a hash partition has for so many data blocks, 1 to 2^32: that of the superblock and those of all
/// levels.
pub fn hash_blocks(blocks: u64) -> u64
    requires some { 1 ≤ blocks }
    requires few { blocks ≤ 2 ^ 32 }
    ensures blocks { result ≡ trees.hash_blocks blocks }
    ensures some_blocks { 1 ≤ result }
    ensures few_blocks { result < 2 ^ 32 }
{
    1 + blocks_over(levels(blocks), blocks)
}

/// The blocks of so many levels over so many digests.
pub fn blocks_over(levels: u32, digests: u64) -> u64
    requires levels { levels ≤ 5 }
    requires few { digests ≤ 2 ^ 32 }
    ensures blocks { result ≡ order.blocks_over levels digests }
    ensures few_blocks { result ≤ levels * runs digests }
{
    if levels == 0 {
        return 0;
    }
    let lowest = runs(digests);
    blocks_over(levels - 1, lowest) + lowest
}

/// How many runs of 128 so many digests make.
pub fn runs(digests: u64) -> u64
    requires { digests ≤ 2 ^ 32 }
    ensures { result ≡ runs digests }
{
    (digests + (FAN - 1)) / FAN
}

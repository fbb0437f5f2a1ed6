ghost use Rattle.std.specs.Prelude.{◌≡◌, ◌-◌, ◌^◌, min};
ghost use Rattle.rp_base.specs.Trees.{hash_blocks};
ghost use Rattle.rp_steps.specs.Writes.{AreCountable, pieces as pieces_of, writes, writes_in as writes_in_of};

use crate::Step;
use rp_verity::FAN;

// The bytes of a piece, the most that one write of zeros or of a source has.
const PIECE: u64 = 262_144;

// The most levels that a tree has.
const LEVELS: u32 = 5;

// How many pieces so many bytes make.
fn pieces(len: u64) -> u64
    ensures { result ≡ pieces_of len }
{
    len.div_ceil(PIECE)
}

// How many blocks a hash partition has for so many data blocks, whatever their number: that of the superblock and those of
// all levels.
fn tree_blocks(blocks: u64) -> u64
    ensures { result ≡ hash_blocks blocks }
{
    let mut rest = blocks.saturating_sub(1);
    let mut level = 0;
    let mut count = 1;
    while rest != 0 && level < LEVELS {
        rest /= FAN;
        count += rest + 1;
        level += 1;
    }
    count
}

// How many writes a step is.
#[tactic(auto, unfolding(crate::specs::Writes::writes_in))]
fn writes_in(step: Step) -> u64
    ensures { result ≡ writes_in_of step }
{
    match step {
        Step::Grow { .. } | Step::Sync => 0,
        Step::Zero { len, .. } | Step::Copy { len, .. } => pieces(len),
        Step::Tree { blocks, .. } => tree_blocks(blocks),
        _ => 1,
    }
}

/// How many writes the steps are; 2^64 - 1 stands for more.
pub fn writes_of(steps: &[Step]) -> u64
    ensures capped { result ≡ min (writes steps.now) (2 ^ 64 - 1) }
    // As the steps of each well formed plan are.
    ensures exact { AreCountable steps.now → result ≡ writes steps.now }
{
    let mut count: u64 = 0;
    for step in steps {
        count = count.saturating_add(writes_in(*step));
    }
    count
}

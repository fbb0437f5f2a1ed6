ghost use Rattle.std.specs.Prelude.{◌≡◌, ◌<◌, ◌≤◌, ◌+◌, ◌*◌, ◌^◌, ◌++◌, ℕ, List, false, IfSome, IfOk, OnOk, length, map, take};
ghost use Rattle.rp_base.specs.Faults.{HasCause};
ghost use Rattle.rp_base.specs.Image.{bytes_at};
ghost use Rattle.rp_base.specs.Trees.{levels};
ghost use Rattle.rp_io.specs.Files.{content, passes};
ghost use Rattle.rp_verity.specs.Builder.{HasTaken, IsBuilder, blocks_of, pushed_of};
ghost use Rattle.rp_verity.specs.Tree.{digest as digest_of, root_hash};
ghost use Rattle.rp_verity.specs.Filled.{cut, filled};

use crate::shape::{BLOCK, DIGEST, LANES};
use crate::{Builder, Nowhere};
use rp_base::Failed;
use rp_io::Sources;
use rp_lanes::digest_blocks;

/// The root hash of a source's first `len` bytes with zeros behind them up to `blocks` blocks, 1 to 2^32. The room has at
/// least `levels + 1` blocks of 4,096 bytes.
pub fn root_of<S: Sources>(
    sources: &mut S,
    path: &str,
    len: u64,
    blocks: u64,
    salt: &[u8; 32],
    room: &mut [u8],
) -> Result<[u8; 32], Failed>
    requires some { 1 ≤ blocks }
    requires few { blocks ≤ 2 ^ 32 }
    requires len { len ≤ 4096 * blocks }
    requires room { 4096 * (levels blocks + 1) ≤ length room.old }
    ensures root { IfSome (S.told sources.old) (λ files. IfSome (content files path.now) (λ bytes.
        IfOk result (λ root. root ≡ root_hash salt.now (cut blocks (filled blocks (take len bytes)))))) }
    ensures told { S.told sources.new ≡ S.told sources.old }
    ensures strays { IfSome (S.told sources.old) (λ files. passes (content files path.now) len ≡ false
        → S.strays sources.new ≡ S.strays sources.old) }
    ensures cause { HasCause (S.faults sources.old) (S.faults sources.new) result }
{
    let mut builder = Builder::new(blocks, salt, room);
    let mut buffer = [0; LANES * BLOCK];
    let mut digests = [[0; DIGEST]; LANES];
    'runs: for turn in 0..(blocks + (LANES as u64 - 1)) / LANES as u64 {
        let k = LANES as u64 * turn;
        let count = (blocks - k).min(LANES as u64) as usize;
        let run = &mut buffer[..BLOCK * count];
        read_run(sources, path, len, k, run)?;
        let digests = &mut digests[..count];
        digest_blocks(salt, run, BLOCK, digests);
        push_all(&mut builder, digests)?;
    }
    builder.finish(&mut Nowhere)
}

// Pushes data blocks that have these digests.
fn push_all(builder: &mut Builder, digests: &[[u8; DIGEST]]) -> Result<(), Failed>
    requires builder { IsBuilder builder.old }
    requires more { pushed_of builder.old + length digests.now ≤ blocks_of builder.old }
    ensures builder { OnOk result (IsBuilder builder.new) }
    ensures blocks { blocks_of builder.new ≡ blocks_of builder.old }
    ensures pushed { OnOk result (pushed_of builder.new ≡ pushed_of builder.old + length digests.now) }
    ensures taken { (salt : List ℕ) (taken blocks : List (List ℕ)) → HasTaken builder.old salt taken
        → digests.now ≡ map (digest_of salt) blocks → OnOk result (HasTaken builder.new salt (taken ++ blocks)) }
    ensures cause { HasCause 0 0 result }
{
    for i in 0..digests.len() {
        builder.push_digest(digests[i], &mut Nowhere)?;
    }
    Ok(())
}

// Fills blocks, from that of this number on, with a source's first `len` bytes, and with zeros behind them.
fn read_run<S: Sources>(
    sources: &mut S,
    path: &str,
    len: u64,
    k: u64,
    run: &mut [u8],
) -> Result<(), Failed>
    requires few { k < 2 ^ 32 }
    requires some { 1 ≤ length run.old }
    ensures bytes { IfSome (S.told sources.old) (λ files. IfSome (content files path.now) (λ bytes.
        OnOk result ((blocks : ℕ) → 4096 * k + length run.old ≤ 4096 * blocks → len ≤ 4096 * blocks
        → run.new ≡ bytes_at (filled blocks (take len bytes)) (4096 * k) (length run.old)))) }
    ensures told { S.told sources.new ≡ S.told sources.old }
    ensures strays { IfSome (S.told sources.old) (λ files. passes (content files path.now) len ≡ false
        → S.strays sources.new ≡ S.strays sources.old) }
    ensures cause { HasCause (S.faults sources.old) (S.faults sources.new) result }
{
    let at = BLOCK as u64 * k;
    let size = len.saturating_sub(at).min(run.len() as u64) as usize;
    let (part, rest) = run.split_at_mut(size);
    rest.fill(0);
    if size == 0 {
        return Ok(());
    }
    sources.read(path, at, part)
}

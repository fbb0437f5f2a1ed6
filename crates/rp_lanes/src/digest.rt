ghost use Rattle.std.specs.Prelude.{◌≡◌, ℕ, ◌<◌, ◌≤◌, ◌+◌, ◌*◌, ◌^◌, ◌++◌, [], All, length, map, slice_index_or};
ghost use Rattle.sha2.specs.Sha256.{compress as compress_of, digest_bytes, final_hash, initial_hash_256, sha256};
ghost use Rattle.rp_lanes.specs.Blocks.{block_of, padded_block, padded_blocks};
ghost use Rattle.rp_lanes.specs.Lanes.{lane, pick};

use crate::message::block_at;
use crate::rounds::compress;
use sha2::{Digest, Sha256};
use std::simd::u32x4;

/// The digests of four blocks of one length, each behind the salt.
pub fn digest4(salt: &[u8], blocks: [&[u8]; 4], len: usize) -> [[u8; 32]; 4]
    requires salt { length salt.now ≤ 256 }
    requires short { len ≤ 2 ^ 32 }
    requires equal { All (λ b. length b.now ≡ len) blocks }
    ensures { result ≡ map (λ b. sha256 (salt.now ++ b.now)) blocks.entry }
{
    let [a, b, c, d] = blocks;
    let state = hash(salt, a, b, c, d);
    [
        digest(&state, 0),
        digest(&state, 1),
        digest(&state, 2),
        digest(&state, 3),
    ]
}

/// The digests of blocks of this length that stand one behind another, each behind the salt.
pub fn digest_blocks(salt: &[u8], bytes: &[u8], len: usize, out: &mut [[u8; 32]])
    requires salt { length salt.now ≤ 256 }
    requires short { len ≤ 2 ^ 32 }
    requires whole { length bytes.now ≡ length out.old * len }
    ensures digests { (k : ℕ) → k < length out.old → slice_index_or out.new k [] ≡ sha256 (salt.now ++ block_of bytes.now len k) }
{
    let fours = out.len() / 4;
    'fours: for turn in 0..fours {
        let k = 4 * turn;
        let a = block(bytes, len, k);
        let b = block(bytes, len, k + 1);
        let c = block(bytes, len, k + 2);
        let d = block(bytes, len, k + 3);
        let digests = digest4(salt, [a, b, c, d], len);
        out[k] = digests[0];
        out[k + 1] = digests[1];
        out[k + 2] = digests[2];
        out[k + 3] = digests[3];
    }
    'rest: for k in 4 * fours..out.len() {
        out[k] = digest_one(salt, block(bytes, len, k));
    }
}

// Block `k` of those that stand one behind another.
fn block(bytes: &[u8], len: usize, k: usize) -> &[u8]
    requires { (k + 1) * len ≤ length bytes.now }
    ensures block { result.now ≡ block_of bytes.now len k }
    ensures long { length result.now ≡ len }
{
    let from = k * len;
    &bytes[from..from + len]
}

// The digest of a block behind the salt.
fn digest_one(salt: &[u8], block: &[u8]) -> [u8; 32]
    ensures { result ≡ sha256 (salt.now ++ block.now) }
{
    let mut hasher = Sha256::new();
    hasher.update(salt);
    hasher.update(block);
    hasher.finalize()
}

// The hash values of four blocks of one length, each behind the salt and in its lane.
fn hash(salt: &[u8], a: &[u8], b: &[u8], c: &[u8], d: &[u8]) -> [u32x4; 8]
    requires salt { length salt.now ≤ 256 }
    requires short { length a.now ≤ 2 ^ 32 }
    requires second { length b.now ≡ length a.now }
    requires third { length c.now ≡ length a.now }
    requires fourth { length d.now ≡ length a.now }
    ensures { (j : ℕ) → j < 4
        → lane j result ≡ final_hash initial_hash_256 (salt.now ++ pick j a.now b.now c.now d.now) }
{
    let mut state = initial();
    for i in 0..(salt.len() + a.len() + 72) / 64 {
        absorb(&mut state, salt, a, b, c, d, i);
    }
    state
}

// Takes in block `i` of the padded messages.
fn absorb(state: &mut [u32x4; 8], salt: &[u8], a: &[u8], b: &[u8], c: &[u8], d: &[u8], i: usize)
    requires salt { length salt.now ≤ 256 }
    requires short { length a.now ≤ 2 ^ 32 }
    requires second { length b.now ≡ length a.now }
    requires third { length c.now ≡ length a.now }
    requires fourth { length d.now ≡ length a.now }
    requires inside { i < padded_blocks (length salt.now + length a.now) }
    ensures { (j : ℕ) → j < 4 → lane j state.new
        ≡ compress_of (lane j state.old) (padded_block i (salt.now ++ pick j a.now b.now c.now d.now)) }
{
    if salt.len() <= i * 64 && i * 64 + 64 <= salt.len() + a.len() {
        let from = i * 64 - salt.len();
        let to = from + 64;
        compress(
            state,
            &a[from..to],
            &b[from..to],
            &c[from..to],
            &d[from..to],
        );
    } else {
        let a = block_at(salt, a, i);
        let b = block_at(salt, b, i);
        let c = block_at(salt, c, i);
        let d = block_at(salt, d, i);
        compress(state, &a, &b, &c, &d);
    }
}

// The first 32 bits of the fractional parts of the square roots of the first eight primes (5.3.3), in each lane.
fn initial() -> [u32x4; 8]
    ensures { (j : ℕ) → j < 4 → lane j result ≡ initial_hash_256 }
{
    [
        u32x4::splat(0x6a09_e667),
        u32x4::splat(0xbb67_ae85),
        u32x4::splat(0x3c6e_f372),
        u32x4::splat(0xa54f_f53a),
        u32x4::splat(0x510e_527f),
        u32x4::splat(0x9b05_688c),
        u32x4::splat(0x1f83_d9ab),
        u32x4::splat(0x5be0_cd19),
    ]
}

// The state of a lane as bytes, the high byte of each word first.
fn digest(state: &[u32x4; 8], j: usize) -> [u8; 32]
    requires { j < 4 }
    ensures { result ≡ digest_bytes (lane j state.now) 8 }
{
    let mut bytes = [0; 32];
    'words: for i in 0..8 {
        let word = state[i].to_array()[j];
        bytes[4 * i..4 * i + 4].copy_from_slice(&word.to_be_bytes());
    }
    bytes
}

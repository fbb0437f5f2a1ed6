//! Whether blocks have the digests that are stored for them; no disk is asked here.

ghost use Rattle.std.specs.Prelude.{◌≡◌, ◌+◌, ◌*◌, ◌<◌, ◌≤◌, [], IfSome, find, length, not, slice_index_or};
ghost use Rattle.std.specs.List.{range_with_len};
ghost use Rattle.std.specs.Str.{bytes_eq};
ghost use Rattle.rp_base.specs.Image.{bytes_at};
ghost use Rattle.rp_verity.specs.Tree.{digest};

use rp_lanes::digest_blocks;
use rp_verity::{BLOCK, DIGEST, FAN};

/// Whether a block has the digest that stands in bytes at an offset.
pub(crate) fn is_right(salt: &[u8], block: &[u8], digests: &[u8], at: usize) -> bool
    requires salt { length salt.now ≤ 256 }
    requires block { length block.now ≡ 4096 }
    requires digests { at + 32 ≤ length digests.now }
    ensures { result ≡ bytes_eq (digest salt.now block.now) (bytes_at digests.now at 32) }
{
    let mut own = [[0; DIGEST]; 1];
    digest_blocks(salt, block, BLOCK, &mut own);
    is_stored(&own[0], digests, at)
}

/// The first of some blocks, at most 128, that hasn't the digest which stands for it in bytes, one behind another.
pub(crate) fn first_wrong(salt: &[u8], blocks: &[u8], count: usize, digests: &[u8]) -> Option<usize>
    requires salt { length salt.now ≤ 256 }
    requires few { count ≤ 128 }
    requires blocks { length blocks.now ≡ 4096 * count }
    requires digests { 32 * count ≤ length digests.now }
    ensures inside { IfSome result (λ k. k < count) }
    ensures found { result ≡ find (λ k. not (bytes_eq (digest salt.now (bytes_at blocks.now (4096 * k) 4096))
        (bytes_at digests.now (32 * k) 32))) (range_with_len 0 count) }
{
    let mut own = [[0; DIGEST]; FAN as usize];
    let own = &mut own[..count];
    digest_blocks(salt, blocks, BLOCK, own);
    first_other(own, digests)
}

// The first of some digests that doesn't stand at its place in bytes, one behind another.
fn first_other(own: &[[u8; DIGEST]], digests: &[u8]) -> Option<usize>
    requires { 32 * length own.now ≤ length digests.now }
    ensures inside { IfSome result (λ k. k < length own.now) }
    ensures found { result ≡ find (λ k. not (bytes_eq (slice_index_or own.now k []) (bytes_at digests.now (32 * k) 32)))
        (range_with_len 0 (length own.now)) }
{
    for k in 0..own.len() {
        if !is_stored(&own[k], digests, DIGEST * k) {
            return Some(k);
        }
    }
    None
}

// Whether a digest stands in bytes at an offset.
fn is_stored(own: &[u8; DIGEST], digests: &[u8], at: usize) -> bool
    requires { at + 32 ≤ length digests.now }
    ensures { result ≡ bytes_eq own.now (bytes_at digests.now at 32) }
{
    let mut stored = [0; DIGEST];
    stored.copy_from_slice(&digests[at..at + DIGEST]);
    *own == stored
}

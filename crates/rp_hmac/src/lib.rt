//! HMAC-SHA-256 (RFC 2104, FIPS 180-4), and the identifiers that are derived with it.
#![tactic(auto)]

ghost use Rattle.std.specs.Prelude.{◌≡◌, ◌≤◌, ◌<◌, ◌^◌, ◌-◌, ◌++◌, length, replicate, take};
ghost use Rattle.rp_hmac.specs.Hmac.{block_size, hmac, padded};
ghost use Rattle.rp_hmac.specs.Derived.{derived, stamped};

use rp_base::Guid;
use sha2::{Digest, Sha256};

pub mod law;

const BLOCK: usize = 64;

const INNER: u8 = 0x36;

const OUTER: u8 = 0x5c;

/// HMAC-SHA-256 of a message (RFC 2104, 2). A key has at most 64 bytes; a longer one would have to be hashed first.
pub fn hmac(key: &[u8], message: &[u8]) -> [u8; 32]
    requires { length key.now ≤ block_size }
    ensures { result ≡ hmac key.now message.now }
{
    hmac_of_two(key, message, &[])
}

/// The identifier with number `k` that a seed gives a text of at most 64 bytes: the first 16 bytes of HMAC, keyed by the
/// seed's bytes, over the text and, for `k` above 0, `k` as 8 bytes, the low one first; version and variant are those of
/// a random GUID (RFC 9562, 5.4). It is never zero.
pub fn derive(seed: Guid, text: &[u8], k: u64) -> Guid
    requires { length text.now ≤ 64 }
    ensures { result ≡ derived seed text.now k }
{
    let bytes = k.to_le_bytes();
    let behind: &[u8] = if k == 0 { &[] } else { &bytes };
    let code = hmac_of_two(&seed.0, text, behind);
    Guid(stamp(&code))
}

// HMAC of a message that comes in two parts.
fn hmac_of_two(key: &[u8], first: &[u8], second: &[u8]) -> [u8; 32]
    requires { length key.now ≤ block_size }
    ensures { result ≡ hmac key.now (first.now ++ second.now) }
{
    let mut inner = Sha256::new();
    inner.update(&pad(key, INNER));
    inner.update(first);
    inner.update(second);
    let mut outer = Sha256::new();
    outer.update(&pad(key, OUTER));
    outer.update(&inner.finalize());
    outer.finalize()
}

// The key as a block, each byte changed by the pad's.
fn pad(key: &[u8], pad: u8) -> [u8; BLOCK]
    requires { length key.now ≤ block_size }
    ensures { result ≡ padded key.now pad }
{
    let mut block = filled(key);
    for byte in block.iter_mut() {
        *byte ^= pad;
    }
    block
}

// The key, filled up with zeros to a block.
fn filled(key: &[u8]) -> [u8; BLOCK]
    requires { length key.now ≤ block_size }
    ensures { result ≡ key.now ++ replicate (block_size - length key.now) 0 }
{
    let mut block = [0; BLOCK];
    block[..key.len()].copy_from_slice(key);
    block
}

// The first 16 bytes, with the version and the variant of a random GUID.
fn stamp(code: &[u8; 32]) -> [u8; 16]
    ensures { result ≡ stamped (take 16 code.now) }
{
    let mut id = [0; 16];
    id.copy_from_slice(&code[..16]);
    id[6] = 0x40 + id[6] % 16;
    id[8] = 0x80 + id[8] % 64;
    id
}

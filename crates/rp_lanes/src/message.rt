//! The padding of a message (FIPS 180-4, 5.1.1) that is a salt and a block behind it.

ghost use Rattle.std.specs.Prelude.{◌≡◌, ◌<◌, ◌≤◌, ◌+◌, ◌*◌, ◌^◌, ◌++◌, length, slice_index};
ghost use Rattle.sha2.specs.Sha256.{padded_message};
ghost use Rattle.rp_lanes.specs.Blocks.{padded_block, padded_blocks};

/// Block `i` of 64 bytes of the padded message.
pub(crate) fn block_at(salt: &[u8], block: &[u8], i: usize) -> [u8; 64]
    requires salt { length salt.now ≤ 256 }
    requires short { length block.now ≤ 2 ^ 32 }
    requires inside { i < padded_blocks (length salt.now + length block.now) }
    ensures { result ≡ padded_block i (salt.now ++ block.now) }
{
    let mut bytes = [0; 64];
    for k in 0..64 {
        bytes[k] = byte_at(salt, block, i * 64 + k);
    }
    bytes
}

// A byte of the padded message: of the salt, of the block, the bit behind them, or of their length in bits.
fn byte_at(salt: &[u8], block: &[u8], place: usize) -> u8
    requires salt { length salt.now ≤ 256 }
    requires short { length block.now ≤ 2 ^ 32 }
    requires inside { place < padded_blocks (length salt.now + length block.now) * 64 }
    ensures { result ≡ slice_index (padded_message (salt.now ++ block.now)) place }
{
    let len = salt.len() + block.len();
    if place < salt.len() {
        return salt[place];
    }
    if place < len {
        return block[place - salt.len()];
    }
    if place == len {
        return 0x80;
    }
    let end = (len + 72) / 64 * 64;
    if place + 8 < end {
        return 0;
    }
    let bits = (8 * len as u64).to_be_bytes();
    bits[place + 8 - end]
}

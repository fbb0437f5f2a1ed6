ghost use Rattle.std.specs.Prelude.{◌≡◌, ◌≤◌, ◌<◌, ◌^◌, ◌++◌};
ghost use Rattle.rp_base.specs.Wants.{IsWant};
ghost use Rattle.rp_sizes.specs.Pairs.{bytes_grains, pair_blocks as pair_blocks_of, salt_of as salt_for, super_id as super_id_for};

use rp_base::{GRAIN, Guid};
use rp_defs::Definition;
use rp_hmac::{derive, hmac};

/// Bytes of a text that names what is derived, and of that text with a type behind it.
const NAME: usize = 11;

const TEXT: usize = NAME + 16;

/// Bytes in grains, rounded up.
pub(crate) fn bytes_grains(bytes: u64) -> u64
    ensures value { result ≡ bytes_grains bytes }
    ensures small { result ≤ 2 ^ 52 }
{
    bytes.div_ceil(GRAIN)
}

/// The blocks of 4,096 bytes of the data of a pair, by its definition and the length of its source. It has no more and no
/// less: as many as its minimum and its source, and one at least.
pub fn pair_blocks(def: &Definition, len: u64) -> u64
    requires { IsWant def.now.want }
    ensures blocks { result ≡ pair_blocks_of def.now len }
    ensures some { 1 ≤ result }
    ensures small { result ≤ 2 ^ 52 }
{
    def.want.min.max(bytes_grains(len)).max(1)
}

/// The salt of the tree over data of this type.
pub fn salt_of(seed: Guid, kind: Guid) -> [u8; 32]
    ensures { result ≡ salt_for seed kind }
{
    hmac(&seed.0, &text_of(b"verity-salt", kind))
}

/// The UUID of the superblock of the tree over data of this type.
pub fn super_id(seed: Guid, kind: Guid) -> Guid
    ensures { result ≡ super_id_for seed kind }
{
    derive(seed, &text_of(b"verity-uuid", kind), 0)
}

// A name with the bytes of a type behind it.
fn text_of(name: &[u8; NAME], kind: Guid) -> [u8; TEXT]
    ensures { result ≡ name.now ++ kind.0 }
{
    let mut text = [0; TEXT];
    let (front, back) = text.split_at_mut(NAME);
    front.copy_from_slice(name);
    back.copy_from_slice(&kind.0);
    text
}

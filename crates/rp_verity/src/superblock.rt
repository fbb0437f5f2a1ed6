//! The superblock of a hash partition.

ghost use Rattle.std.specs.Prelude.{◌≡◌, ◌+◌, ◌*◌, ◌≤◌, ◌^◌, ◌++◌, IfSome, length, take};
ghost use Rattle.std.specs.Int.{w64, to_le_bytes};
ghost use Rattle.std.specs.Bool.{OnTrue};
ghost use Rattle.rp_verity.specs.Superblock.{FitIn, blocks_in, fits, is_headed, salt_size_in, superblock, superblock_in};

use crate::shape::{BLOCK_UNITS, hash_blocks};
use rp_base::{Guid, Row};

/// The signature, version 1, hash type 1.
const HEAD: [u8; 16] = [
    b'v', b'e', b'r', b'i', b't', b'y', 0, 0, 1, 0, 0, 0, 1, 0, 0, 0,
];

/// The algorithm's name in 32 bytes, and the sizes of data blocks and of hash blocks, 4,096.
const FORM: [u8; 40] = [
    b's', b'h', b'a', b'2', b'5', b'6', 0, 0, 0, 0, 0, 0, 0, 0, 0, 0, 0, 0, 0, 0, 0, 0, 0, 0, 0, 0,
    0, 0, 0, 0, 0, 0, 0, 0x10, 0, 0, 0, 0x10, 0, 0,
];

/// The size of the salt that is written, and 6 bytes of padding.
const SALT_SIZE: [u8; 8] = [32, 0, 0, 0, 0, 0, 0, 0];

/// The most bytes of salt that a superblock has room for.
pub const MOST_SALT: u16 = 256;

/// The most data blocks of a tree.
const MOST_BLOCKS: u64 = 1 << 32;

/// Where the fields stand.
const UUID: usize = 16;

const ALGORITHM: usize = 32;

const DATA_BLOCKS: usize = 72;

const SALT_LEN: usize = 80;

/// Where the salt stands.
pub const SALT: usize = 88;

const SALT_END: usize = 120;

/// What a superblock says of its tree: how many data blocks it is over, and how many bytes of salt stand in the block from
/// byte 88 on.
#[derive(Clone, Copy, Debug, PartialEq, Eq)]
pub struct Superblock {
    pub blocks: u64,
    pub salt_size: u16,
}

/// Writes the superblock of a tree with this salt over so many data blocks into a block of 4,096 bytes.
pub fn write_superblock(uuid: Guid, blocks: u64, salt: &[u8; 32], block: &mut [u8])
    requires { length block.old ≡ 4096 }
    ensures { block.new ≡ superblock uuid blocks salt.now }
{
    let (fields, rest) = block.split_at_mut(SALT_END);
    write_fields(uuid, blocks, salt, fields);
    rest.fill(0);
}

// Writes what stands before the zeros.
fn write_fields(uuid: Guid, blocks: u64, salt: &[u8; 32], out: &mut [u8])
    requires { length out.old ≡ 120 }
    ensures value { out.new ≡ HEAD ++ uuid.0 ++ FORM ++ to_le_bytes w64 blocks ++ SALT_SIZE ++ salt.now }
    ensures uuid { length uuid.0 ≡ 16 }
    ensures salt { length salt.now ≡ 32 }
{
    put(out, 0, &HEAD);
    put(out, UUID, &uuid.0);
    put(out, ALGORITHM, &FORM);
    put(out, DATA_BLOCKS, &blocks.to_le_bytes());
    put(out, SALT_LEN, &SALT_SIZE);
    put(out, SALT, salt);
}

// Writes bytes at an offset.
#[tactic(auto, using(crate::proofs::Put::put))]
fn put(out: &mut [u8], at: usize, bytes: &[u8])
    requires { at + length bytes.now ≤ length out.old }
    ensures { take (at + length bytes.now) out.new ≡ take at out.old ++ bytes.now }
{
    out[at..at + bytes.len()].copy_from_slice(bytes);
}

/// The superblock in a block of 4,096 bytes, if it is right for a data row and a hash row: signature, version, hash type,
/// algorithm and block sizes are as they are written, the salt has at most 256 bytes, and the data blocks, 1 to 2^32, and
/// the blocks of their tree fit in the rows.
#[tactic(auto, unfolding(crate::specs::Superblock::superblock_in))]
pub fn read_superblock(block: &[u8], payload: &Row, hash: &Row) -> Option<Superblock>
    requires { length block.now ≡ 4096 }
    ensures superblock { result ≡ superblock_in block.now payload.now hash.now }
    ensures salt { IfSome result (λ s. s.salt_size ≤ 256) }
    ensures fits { IfSome result (λ s. FitIn s.blocks payload.now hash.now) }
{
    if !is_headed(block) {
        return None;
    }
    let blocks = data_blocks(block);
    let salt_size = salt_size(block);
    if salt_size <= MOST_SALT && fits(blocks, payload, hash) {
        Some(Superblock { blocks, salt_size })
    } else {
        None
    }
}

// Whether what stands before the UUID and behind it is as it is written.
#[tactic(auto, unfolding(crate::specs::Superblock::is_headed))]
fn is_headed(block: &[u8]) -> bool
    requires { length block.now ≡ 4096 }
    ensures { result ≡ is_headed block.now }
{
    let mut head = [0; 16];
    head.copy_from_slice(&block[..UUID]);
    let mut form = [0; 40];
    form.copy_from_slice(&block[ALGORITHM..DATA_BLOCKS]);
    head == HEAD && form == FORM
}

// How many data blocks a superblock says.
#[tactic(auto, unfolding(crate::specs::Superblock::blocks_in))]
fn data_blocks(block: &[u8]) -> u64
    requires { length block.now ≡ 4096 }
    ensures { result ≡ blocks_in block.now }
{
    let mut field = [0; 8];
    field.copy_from_slice(&block[DATA_BLOCKS..SALT_LEN]);
    u64::from_le_bytes(field)
}

// How many bytes of salt it says.
#[tactic(auto, unfolding(crate::specs::Superblock::salt_size_in))]
fn salt_size(block: &[u8]) -> u16
    requires { length block.now ≡ 4096 }
    ensures { result ≡ salt_size_in block.now }
{
    let mut field = [0; 2];
    field.copy_from_slice(&block[SALT_LEN..SALT_LEN + 2]);
    u16::from_le_bytes(field)
}

// Whether so many data blocks, and the blocks of their tree, fit in the rows.
#[tactic(auto, using(std::proofs::lemmas::Bool::Decides::nat_tests), unfolding(crate::specs::Superblock::fits))]
fn fits(blocks: u64, payload: &Row, hash: &Row) -> bool
    ensures value { result ≡ fits blocks payload.now hash.now }
    ensures within { OnTrue result (FitIn blocks payload.now hash.now) }
{
    blocks >= 1
        && blocks <= MOST_BLOCKS
        && BLOCK_UNITS * blocks <= payload.size
        && BLOCK_UNITS * hash_blocks(blocks) <= hash.size
}

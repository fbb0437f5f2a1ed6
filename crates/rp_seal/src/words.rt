//! The words of the command line.

ghost use Rattle.std.specs.Prelude.{◌<◌, ◌^◌, IfSome};

use rp_base::{Guid, Row};
use std::env;

/// What is asked for.
#[derive(Drop)]
pub enum Line {
    Format {
        data: String,
        blocks: u64,
        hashes: String,
        salt: [u8; 32],
        uuid: Guid,
    },
    Root {
        data: String,
        blocks: u64,
        salt: [u8; 32],
    },
    Check {
        image: String,
        payload: Row,
        hash: Row,
    },
}

/// What the words ask for, if they are as they have to be.
pub fn read(rt: &HostRuntime) -> Option<Line> {
    let mut words = env::args(rt).ok()?.skip(1);
    let command = words.next()?;
    let file = words.next()?;
    match command.as_str() {
        "format" => Some(Line::Format {
            data: file,
            blocks: number(words.next()?.as_str())?,
            hashes: words.next()?,
            salt: salt(words.next()?.as_str())?,
            uuid: guid(words.next()?.as_str())?,
        }),
        "root" => Some(Line::Root {
            data: file,
            blocks: number(words.next()?.as_str())?,
            salt: salt(words.next()?.as_str())?,
        }),
        "check" => {
            let first = number(words.next()?.as_str())?;
            let blocks = number(words.next()?.as_str())?;
            let hash_first = number(words.next()?.as_str())?;
            let hash_blocks = number(words.next()?.as_str())?;
            let root = salt(words.next()?.as_str())?;
            let (front, back) = halves(&root);
            Some(Line::Check {
                image: file,
                payload: row(first, blocks, front),
                hash: row(hash_first, hash_blocks, back),
            })
        }
        _ => None,
    }
}

// A number below 2^32.
fn number(text: &str) -> Option<u64>
    ensures { IfSome result (λ n. n < 2 ^ 32) }
{
    let number = text.parse::<u32>().ok()?;
    Some(u64::from(number))
}

// 32 bytes.
fn salt(text: &str) -> Option<[u8; 32]> {
    let mut bytes = [0; 32];
    hex::decode_to_slice(text, &mut bytes).ok()?;
    Some(bytes)
}

// 16 bytes.
fn guid(text: &str) -> Option<Guid> {
    let mut bytes = [0; 16];
    hex::decode_to_slice(text, &mut bytes).ok()?;
    Some(Guid(bytes))
}

// Both halves of a root hash.
fn halves(root: &[u8; 32]) -> (Guid, Guid) {
    let mut front = [0; 16];
    let mut back = [0; 16];
    front.copy_from_slice(&root[..16]);
    back.copy_from_slice(&root[16..]);
    (Guid(front), Guid(back))
}

// A row that has so many blocks from one on.
fn row(first: u64, blocks: u64, id: Guid) -> Row
    requires first { first < 2 ^ 32 }
    requires blocks { blocks < 2 ^ 32 }
{
    Row {
        slot: 0,
        kind: Guid([0; 16]),
        id,
        start: 8 * first,
        size: 8 * blocks,
        attrs: 0,
        name: [0; 36],
    }
}

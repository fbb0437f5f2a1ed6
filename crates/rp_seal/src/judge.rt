//! What is wrong of a tree, as a text.

ghost use Rattle.std.specs.Prelude.{◌↔◌, ◌≤◌, ◌+◌, ◌^◌, IsTrue};

use rp_base::Row;
use rp_disk::Disk;
use rp_tree::{Bad, WIDE_ROOM, check_all, check_root};
use std::alloc::Global;

/// `right`, or what is wrong first of the tree in a row over another; nothing where the disk can't be read, or where the
/// two calls differ.
pub fn judge<D: Disk>(alloc: Global, disk: &mut D, payload: &Row, hash: &Row) -> Option<String> {
    if !is_row(payload) || !is_row(hash) {
        return None;
    }
    let mut room = vec![in alloc; 0u8; WIDE_ROOM].ok()?;
    let rooted = check_root(disk, payload, hash, &mut room).ok()?;
    let bad = check_all(disk, payload, hash, &mut room).ok()?;
    if rooted == matches!(bad, Some(Bad::Superblock | Bad::Top)) {
        return None;
    }
    match bad {
        None => format!(in alloc; "right").ok(),
        Some(Bad::Superblock) => format!(in alloc; "superblock").ok(),
        Some(Bad::Top) => format!(in alloc; "top").ok(),
        Some(Bad::Hash { block }) => format!(in alloc; "hash {block}").ok(),
        Some(Bad::Data { block }) => format!(in alloc; "data {block}").ok(),
    }
}

// Whether a row has a block and ends within 2^44 bytes.
fn is_row(row: &Row) -> bool
    ensures { IsTrue result ↔ ((8 ≤ row.now.size) × (row.now.start + row.now.size ≤ 2 ^ 35)) }
{
    row.size >= 8 && row.size <= 1 << 35 && row.start <= (1 << 35) - row.size
}

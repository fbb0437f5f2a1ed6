//! Writing a hash partition, and root hashes.

ghost use Rattle.std.specs.Prelude.{◌≤◌, ◌+◌, ◌*◌, ◌^◌, None};

use rp_base::{Failed, Guid};
use rp_disk::Disk;
use rp_io::Sources;
use rp_tree::ROOM;
use rp_verity::{Builder, TreeOut, levels, root_of, write_superblock};

/// The most data blocks of a tree.
const MOST: u64 = 1 << 32;

/// Bytes of a block.
const BLOCK: u64 = 4096;

// Writes the hash blocks behind the superblock's.
#[derive(Drop)]
struct Hashes<D: Disk + Drop> {
    disk: D,
}

impl<D: Disk + Drop> TreeOut for Hashes<D> {
    ghost told = { λ _. None };

    ghost faults = { λ out. (D.Disk.device out.disk).faults };

    fn faults(&self) -> u64 {
        self.disk.faults()
    }

    fn put(&mut self, index: u64, block: &[u8]) -> Result<(), Failed> {
        self.disk.write(BLOCK * (index + 1), block)
    }
}

/// Writes the hash partition of so many data blocks, and gives the root hash.
pub fn format<D: Disk, E: Disk + Drop>(
    from: &mut D,
    to: E,
    blocks: u64,
    salt: &[u8; 32],
    uuid: Guid,
) -> Result<[u8; 32], Failed> {
    if blocks < 1 || blocks > MOST {
        return Err(Failed);
    }
    let mut out = Hashes { disk: to };
    let root = tree(from, &mut out, blocks, salt)?;
    let mut block = [0; 4096];
    write_superblock(uuid, blocks, salt, &mut block);
    out.disk.write(0, &block)?;
    Ok(root)
}

// Writes the tree, and gives the root hash.
fn tree<D: Disk, K: TreeOut>(
    from: &mut D,
    out: &mut K,
    blocks: u64,
    salt: &[u8; 32],
) -> Result<[u8; 32], Failed>
    requires some { 1 ≤ blocks }
    requires few { blocks ≤ 2 ^ 32 }
{
    let mut room = [0u8; ROOM];
    let _count = levels(blocks);
    let mut builder = Builder::new(blocks, salt, &mut room);
    for k in 0..blocks {
        from.read(BLOCK * k, builder.block_mut())?;
        builder.push(out)?;
    }
    builder.finish(out)
}

/// The root hash of a file with zeros behind it up to so many blocks.
pub fn root<S: Sources>(
    sources: &mut S,
    path: &str,
    blocks: u64,
    salt: &[u8; 32],
) -> Result<[u8; 32], Failed> {
    if blocks < 1 || blocks > MOST {
        return Err(Failed);
    }
    let len = sources.len(path)?;
    if len > BLOCK * blocks {
        return Err(Failed);
    }
    let mut room = [0u8; ROOM];
    let _count = levels(blocks);
    root_of(sources, path, len, blocks, salt, &mut room)
}

//! The data blocks under one hash block.

ghost use Rattle.std.specs.Prelude.{◌≡◌, ◌+◌, ◌-◌, ◌*◌, ◌%◌, ◌^◌, ◌<◌, ◌≤◌, ℕ, IfSome, IfOk, find, length, min, nat_le, not, option_map, if◌then◌else◌};
ghost use Rattle.std.specs.List.{range_with_len};
ghost use Rattle.std.specs.Str.{bytes_eq};
ghost use Rattle.rp_base.specs.Image.{bytes_at};
ghost use Rattle.rp_disk.specs.Device.{Known};
ghost use Rattle.rp_disk.specs.History.{held};
ghost use Rattle.rp_verity.specs.Tree.{digest};
ghost use Rattle.rp_base.specs.declared.table.Row.{Row as ARow};
ghost use Rattle.rp_tree.specs.Reads.{Reads, end_of};
ghost use Rattle.rp_tree.specs.Checked.{block_of, first_wrong as first_wrong_of};

use crate::read::read_blocks;
use crate::right::first_wrong;
use rp_base::{Failed, Row};
use rp_disk::Disk;
use rp_verity::{BLOCK, DIGEST, FAN, LANES};

/// The first wrong data block, where those under the hash blocks before were looked at and the digests of the hash block
/// with this index are at hand. The buffer has a block or more.
pub(crate) fn data_under<D: Disk>(
    disk: &mut D,
    payload: &Row,
    salt: &[u8],
    blocks: u64,
    index: u64,
    found: Option<u64>,
    digests: &[u8],
    buffer: &mut [u8],
) -> Result<Option<u64>, Failed>
    requires salt { length salt.now ≤ 256 }
    requires row { payload.now.start + payload.now.size ≤ 2 ^ 35 }
    requires few { blocks ≤ 2 ^ 32 }
    requires fit { 8 * blocks ≤ payload.now.size }
    requires index { 128 * index < blocks }
    requires digests { length digests.now ≡ 4096 }
    requires buffer { 4096 ≤ length buffer.old }
    ensures reads { Reads (end_of payload.now) (D.device disk.old) (D.device disk.new) result }
    ensures found { Known (D.device disk.old) (D.device disk.new) (λ h. (hash : ARow) (begin : ℕ)
        → digests.now ≡ block_of (held h) hash (begin + index)
        → found ≡ first_wrong_of (held h) salt.now payload.now 0 (128 * index) hash begin
        → IfOk result (λ now. now ≡ first_wrong_of (held h) salt.now payload.now 0 (min (128 * index + 128) blocks) hash begin)) }
{
    if found.is_some() {
        return Ok(found);
    }
    let first = FAN * index;
    let count = (blocks - first).min(FAN);
    let wrong = wrong_in(disk, payload, salt, first, count, digests, buffer)?;
    Ok(shifted(wrong, first))
}

// An index as a number, counted from one on.
fn shifted(index: Option<u64>, first: u64) -> Option<u64>
    requires { IfSome index (λ k. first + k < 2 ^ 64) }
    ensures { result ≡ option_map (λ k. first + k) index }
{
    match index {
        Some(k) => Some(first + k),
        None => None,
    }
}

// The index of the first wrong block, of so many data blocks from one on, whose digests are at hand.
fn wrong_in<D: Disk>(
    disk: &mut D,
    payload: &Row,
    salt: &[u8],
    first: u64,
    count: u64,
    digests: &[u8],
    buffer: &mut [u8],
) -> Result<Option<u64>, Failed>
    requires salt { length salt.now ≤ 256 }
    requires row { payload.now.start + payload.now.size ≤ 2 ^ 35 }
    requires fit { 8 * (first + count) ≤ payload.now.size }
    requires count { count ≤ 128 }
    requires digests { length digests.now ≡ 4096 }
    requires buffer { 4096 ≤ length buffer.old }
    ensures reads { Reads (end_of payload.now) (D.device disk.old) (D.device disk.new) result }
    ensures inside { IfOk result (λ found. IfSome found (λ k. k < count)) }
    ensures found { Known (D.device disk.old) (D.device disk.new) (λ h.
        IfOk result (λ found. found ≡ find (λ k. not
        (bytes_eq (digest salt.now (block_of (held h) payload.now (first + k))) (bytes_at digests.now (32 * k) 32)))
        (range_with_len 0 count))) }
{
    let most = whole_lanes(buffer.len() / BLOCK);
    let mut done = 0;
    'pieces: while done < count {
        let step = (count - done).min(most as u64);
        let piece = &mut buffer[..BLOCK * step as usize];
        read_blocks(disk, payload, first + done, piece)?;
        let rest = &digests[DIGEST * done as usize..];
        if let Some(k) = first_wrong(salt, piece, step as usize, rest) {
            return Ok(Some(done + k as u64));
        }
        done += step;
    }
    Ok(None)
}

// How many blocks are read at once where there is room for so many: as many as fill their lanes, if there are any.
fn whole_lanes(room: usize) -> usize
    requires { 1 ≤ room }
    ensures value { result ≡ (if nat_le 4 room then room - room % 4 else room) }
    ensures some { 1 ≤ result }
    ensures fits { result ≤ room }
{
    if room >= LANES {
        room - room % LANES
    } else {
        room
    }
}

ghost use Rattle.std.specs.Prelude.{◌≡◌, ◌<◌, ◌≤◌, ◌+◌, ◌-◌, ◌*◌, ◌/◌, ◌%◌, ◌^◌, ◌++◌, [], ◌∷◌, List, ℕ, OnOk, OnErr, IfOk, IfSome, IsSome, length, take, drop};
ghost use Rattle.std.specs.Option.{option_to_list};
ghost use Rattle.sha2.specs.Hashers.{Holds256};
ghost use Rattle.rp_base.specs.Faults.{HasCause};
ghost use Rattle.rp_verity.specs.Tree.{digest, runs};
ghost use Rattle.rp_verity.specs.Order.{place_of};
ghost use Rattle.rp_verity.specs.Puts.{Added, AddedSome};
ghost use Rattle.rp_verity.specs.Room.{Adds, AreDigests, Closes, IsDigest, placed_at};

use crate::TreeOut;
use crate::shape::{BLOCK, DIGEST, FAN, blocks_over, runs};
use rp_base::Failed;
use sha2::{Digest, Sha256};

/// The digest of a block, by a hasher that has taken the salt.
pub(crate) fn digest_of(salted: &Sha256, block: &[u8]) -> [u8; DIGEST]
    ensures { (salt : List ℕ) → Holds256 salted.now salt → result ≡ digest salt block.now }
{
    let mut hasher = copy_of(salted);
    hasher.update(block);
    hasher.finalize()
}

/// A hasher in the same state. It takes no memory.
pub(crate) fn copy_of(hasher: &Sha256) -> Sha256
    ensures { result ≡ hasher.now }
{
    hasher.clone().unwrap()
}

/// Adds a digest to the `before` ones that the lowest of so many levels has, of the `total` that will come, and puts the
/// blocks that are full with it. Gives the digest that leaves the topmost level, if one does.
pub(crate) fn add<K: TreeOut>(
    salted: &Sha256,
    levels: u32,
    room: &mut [u8],
    total: u64,
    before: u64,
    new: [u8; DIGEST],
    out: &mut K,
) -> Result<Option<[u8; DIGEST]>, Failed>
    requires levels { levels ≤ 5 }
    requires room { length room.old ≡ 4096 * levels }
    requires total { total ≤ 2 ^ 32 }
    requires before { before < total }
    ensures adds { (salt : List ℕ) (digests : List (List ℕ)) → Holds256 salted.now salt → AreDigests digests → IsDigest new
        → length digests ≡ before → Adds salt levels total digests new room.old room.new (K.told out.old) (K.told out.new) result }
    ensures cause { HasCause (K.faults out.old) (K.faults out.new) result }
{
    if levels == 0 {
        return Ok(Some(new));
    }
    let (block, above) = room.split_at_mut(BLOCK);
    place(block, before, &new);
    if before % FAN < FAN - 1 {
        return Ok(None);
    }
    let up = put_block(salted, block, levels - 1, total, before, out)?;
    block.fill(0);
    add(
        salted,
        levels - 1,
        above,
        runs(total),
        before / FAN,
        up,
        out,
    )
}

/// Puts the blocks that are not full when all digests, `total` at the lowest of so many levels, have come, the last of them
/// `carried` from the level below if that had such a block. Gives the digest of the topmost one put.
pub(crate) fn close<K: TreeOut>(
    salted: &Sha256,
    levels: u32,
    room: &mut [u8],
    total: u64,
    carried: Option<[u8; DIGEST]>,
    out: &mut K,
) -> Result<Option<[u8; DIGEST]>, Failed>
    requires levels { levels ≤ 5 }
    requires room { length room.old ≡ 4096 * levels }
    requires some { 1 ≤ total }
    requires few { total ≤ 2 ^ 32 }
    ensures closes { (salt : List ℕ) (digests : List (List ℕ)) → Holds256 salted.now salt → AreDigests digests
        → AreDigests (option_to_list carried) → length (digests ++ option_to_list carried) ≡ total
        → Closes salt levels digests carried room.old (K.told out.old) (K.told out.new) result }
    ensures cause { HasCause (K.faults out.old) (K.faults out.new) result }
{
    if levels == 0 {
        return Ok(carried);
    }
    let (block, above) = room.split_at_mut(BLOCK);
    if let Some(digest) = carried {
        place(block, total - 1, &digest);
    } else if total % FAN == 0 {
        return close(salted, levels - 1, above, runs(total), None, out);
    }
    let up = put_block(salted, block, levels - 1, total, total - 1, out)?;
    close(salted, levels - 1, above, runs(total), Some(up), out)
}

// Puts the block that has digest number `at`, from 0, of a `total` under so many levels, and gives its digest.
fn put_block<K: TreeOut>(
    salted: &Sha256,
    block: &[u8],
    above: u32,
    total: u64,
    at: u64,
    out: &mut K,
) -> Result<[u8; DIGEST], Failed>
    requires above { above < 5 }
    requires block { length block.now ≡ 4096 }
    requires total { total ≤ 2 ^ 32 }
    requires at { at < total }
    ensures digest { IfOk result (λ up. (salt : List ℕ) → Holds256 salted.now salt → up ≡ digest salt block.now) }
    ensures put { OnOk result (Added (K.told out.old) ((place_of above total (at + 1), block.now) ∷ []) (K.told out.new)) }
    ensures failed { IfSome (K.told out.old) (λ puts. OnErr result
        (AddedSome puts ((place_of above total (at + 1), block.now) ∷ []) (K.told out.new))) }
    ensures cause { HasCause (K.faults out.old) (K.faults out.new) result }
{
    out.put(blocks_over(above, runs(total)) + at / FAN, block)?;
    Ok(digest_of(salted, block))
}

// Writes digest number `at`, from 0, at its place in a level's block.
fn place(block: &mut [u8], at: u64, digest: &[u8; DIGEST])
    requires { length block.old ≡ 4096 }
    ensures { block.new ≡ placed_at (32 * (at % 128)) digest.now block.old }
{
    let place = DIGEST * (at % FAN) as usize;
    block[place..place + DIGEST].copy_from_slice(digest);
}

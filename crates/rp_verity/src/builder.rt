ghost use Rattle.std.specs.Prelude.{◌≡◌, ◌<◌, ◌≤◌, ◌+◌, ◌*◌, ◌^◌, ◌++◌, [], ◌∷◌, ℕ, List, IfOk, OnOk, OnErr, length, take};
ghost use Rattle.std.specs.Borrow.{sem};
ghost use Rattle.rp_base.specs.Faults.{HasCause};
ghost use Rattle.rp_base.specs.Trees.{levels};
ghost use Rattle.rp_verity.specs.Tree.{digest as digest_in_tree, root_hash, stored_tree};
ghost use Rattle.rp_verity.specs.Order.{full_with, left_over};
ghost use Rattle.rp_verity.specs.Puts.{Added, AddedPart, placed};

use crate::TreeOut;
use crate::shape::{BLOCK, DIGEST, levels};
use crate::tree::{add, close, copy_of, digest_of};
use arrayvec::ArrayVec;
use rp_base::Failed;
use sha2::{Digest, Sha256};

/// Builds the tree over data blocks that come one by one, in a room of one block and one for each level.
#[derive(Drop)]
pub struct Builder<'a> {
    blocks: u64,
    pushed: u64,
    count: u32,
    salted: Sha256,
    next: ArrayVec<u8, BLOCK>,
    levels: &'a mut [u8],
    root: [u8; DIGEST],
}

impl<'a> Builder<'a> {
    ghost use Rattle.rp_verity.specs.Builder.{HasTaken, IsBuilder, blocks_of, next_of, pushed_of};
    ghost use Rattle.rp_verity.specs.Lending.{LendsNext};

    /// A builder of `blocks` data blocks, 1 to 2^32, that none has been pushed to. dm-verity takes a salt of at most 256
    /// bytes; the room has at least `levels + 1` blocks of 4,096 bytes.
    pub fn new(blocks: u64, salt: &'a [u8], room: &'a mut [u8]) -> Builder<'a>
        requires some { 1 ≤ blocks }
        requires few { blocks ≤ 2 ^ 32 }
        requires room { 4096 * (levels blocks + 1) ≤ length room.old }
        ensures builder { IsBuilder result }
        ensures blocks { blocks_of result ≡ blocks }
        ensures pushed { pushed_of result ≡ 0 }
        ensures taken { HasTaken result salt.now [] }
    {
        let mut salted = Sha256::new();
        salted.update(salt);
        let count = levels(blocks);
        let levels = &mut room[..BLOCK * count as usize];
        levels.fill(0);
        Builder {
            blocks,
            pushed: 0,
            count,
            salted,
            next: ArrayVec::from([0; BLOCK]),
            levels,
            root: [0; DIGEST],
        }
    }

    /// Lends the place of the next data block, 4,096 bytes.
    pub fn block_mut(&mut self) -> &mut [u8]
        ensures* writes_back { sem 𝓛 (LendsNext self.entry result) }
        ensures value { result.now ≡ next_of self.old }
    {
        self.next.as_mut_slice()
    }

    /// Takes the block that was written to the place of the next data block, and puts the hash blocks that are full with it.
    /// After `Failed` the builder may only be dropped.
    pub fn push<K: TreeOut>(&mut self, out: &mut K) -> Result<(), Failed>
        requires builder { IsBuilder self.old }
        requires more { pushed_of self.old < blocks_of self.old }
        ensures builder { OnOk result (IsBuilder self.new) }
        ensures blocks { blocks_of self.new ≡ blocks_of self.old }
        ensures pushed { pushed_of self.new ≡ pushed_of self.old + 1 }
        ensures taken { (salt : List ℕ) (taken : List (List ℕ)) → HasTaken self.old salt taken
            → OnOk result (HasTaken self.new salt (taken ++ next_of self.old ∷ [])) }
        ensures puts { (salt : List ℕ) (taken rest : List (List ℕ)) → HasTaken self.old salt taken
            → length (taken ++ next_of self.old ∷ [] ++ rest) ≡ blocks_of self.old
            → OnOk result (Added (K.told out.old)
            (placed (stored_tree salt (taken ++ next_of self.old ∷ [] ++ rest))
            (full_with (levels (blocks_of self.old)) (blocks_of self.old) (length taken + 1)))
            (K.told out.new)) }
        ensures cut { (salt : List ℕ) (taken rest : List (List ℕ)) → HasTaken self.old salt taken
            → length (taken ++ next_of self.old ∷ [] ++ rest) ≡ blocks_of self.old
            → OnErr result (AddedPart (K.told out.old)
            (placed (stored_tree salt (taken ++ next_of self.old ∷ [] ++ rest))
            (full_with (levels (blocks_of self.old)) (blocks_of self.old) (length taken + 1)))
            (K.told out.new)) }
        ensures cause { HasCause (K.faults out.old) (K.faults out.new) result }
    {
        let digest = digest_of(&self.salted, self.next.as_slice());
        self.push_digest(digest, out)
    }

    /// Takes the next data block by its digest, and puts the hash blocks that are full with it. After `Failed` the builder
    /// may only be dropped.
    pub fn push_digest<K: TreeOut>(
        &mut self,
        digest: [u8; DIGEST],
        out: &mut K,
    ) -> Result<(), Failed>
        requires builder { IsBuilder self.old }
        requires more { pushed_of self.old < blocks_of self.old }
        ensures builder { OnOk result (IsBuilder self.new) }
        ensures blocks { blocks_of self.new ≡ blocks_of self.old }
        ensures pushed { pushed_of self.new ≡ pushed_of self.old + 1 }
        ensures taken { (salt block : List ℕ) (taken : List (List ℕ)) → HasTaken self.old salt taken → digest ≡ digest_in_tree salt block
            → OnOk result (HasTaken self.new salt (taken ++ block ∷ [])) }
        ensures puts { (salt block : List ℕ) (taken rest : List (List ℕ)) → HasTaken self.old salt taken
            → digest ≡ digest_in_tree salt block
            → length (taken ++ block ∷ [] ++ rest) ≡ blocks_of self.old
            → OnOk result (Added (K.told out.old)
            (placed (stored_tree salt (taken ++ block ∷ [] ++ rest))
            (full_with (levels (blocks_of self.old)) (blocks_of self.old) (length taken + 1)))
            (K.told out.new)) }
        ensures cut { (salt block : List ℕ) (taken rest : List (List ℕ)) → HasTaken self.old salt taken → digest ≡ digest_in_tree salt block
            → length (taken ++ block ∷ [] ++ rest) ≡ blocks_of self.old
            → OnErr result (AddedPart (K.told out.old)
            (placed (stored_tree salt (taken ++ block ∷ [] ++ rest))
            (full_with (levels (blocks_of self.old)) (blocks_of self.old) (length taken + 1)))
            (K.told out.new)) }
        ensures cause { HasCause (K.faults out.old) (K.faults out.new) result }
    {
        let salted = copy_of(&self.salted);
        let (count, blocks, before) = (self.count, self.blocks, self.pushed);
        self.pushed += 1;
        let top = add(&salted, count, self.levels, blocks, before, digest, out)?;
        if let Some(root) = top {
            self.root = root;
        }
        Ok(())
    }

    /// Puts the hash blocks that are not full, when all data blocks were pushed, and gives the root hash.
    pub fn finish<K: TreeOut>(self, out: &mut K) -> Result<[u8; DIGEST], Failed>
        requires builder { IsBuilder self }
        requires all { pushed_of self ≡ blocks_of self }
        ensures root { (salt : List ℕ) (blocks : List (List ℕ)) → HasTaken self.entry salt blocks
            → IfOk result (λ root. root ≡ root_hash salt blocks) }
        ensures puts { (salt : List ℕ) (blocks : List (List ℕ)) → HasTaken self.entry salt blocks
            → OnOk result (Added (K.told out.old)
            (placed (stored_tree salt blocks) (left_over (levels (length blocks)) (length blocks))) (K.told out.new)) }
        ensures cut { (salt : List ℕ) (blocks : List (List ℕ)) → HasTaken self.entry salt blocks
            → OnErr result (AddedPart (K.told out.old)
            (placed (stored_tree salt blocks) (left_over (levels (length blocks)) (length blocks))) (K.told out.new)) }
        ensures cause { HasCause (K.faults out.old) (K.faults out.new) result }
    {
        let Builder {
            blocks,
            pushed: _,
            count,
            salted,
            next: _,
            levels,
            root,
        } = self;
        let top = close(&salted, count, levels, blocks, None, out)?;
        match top {
            Some(root) => Ok(root),
            None => Ok(root),
        }
    }
}

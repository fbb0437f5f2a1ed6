//! Laws of the order in which hash blocks are put, and of superblocks.

ghost use Rattle.std.specs.Prelude.{◌≡◌, ◌==◌, ◌≤◌, ◌<◌, ◌+◌, ℕ, List, Some, All, count_by, length};
ghost use Rattle.rp_base.specs.declared.guid.Guid.{Guid};
ghost use Rattle.rp_base.specs.declared.table.Row.{Row};
ghost use Rattle.rp_base.specs.Trees.{hash_blocks};
ghost use Rattle.rp_verity.specs.Order.{order};
ghost use Rattle.rp_verity.specs.Superblock.{FitIn, salt_in, superblock, superblock_in};

/// Each block behind the superblock's is put once, and nothing else is put.
pub fn each_block_is_put_once()
    ensures once { (blocks place : ℕ) → 1 ≤ blocks → place + 1 < hash_blocks blocks → count_by (λ each. each == place) (order blocks) ≡ 1 }
    ensures inside { (blocks : ℕ) → 1 ≤ blocks → All (λ place. place + 1 < hash_blocks blocks) (order blocks) }
{}

/// A superblock that was written is right for rows in which its blocks fit, and its salt is the one that was written.
pub fn written_superblocks_are_right()
    ensures right { (uuid : Guid) (blocks : ℕ) (salt : List ℕ) (payload hash : Row) → length uuid.0 ≡ 16 → length salt ≡ 32
        → FitIn blocks payload hash
        → superblock_in (superblock uuid blocks salt) payload hash ≡ Some (record { blocks = blocks; salt_size = 32 }) }
    ensures salt { (uuid : Guid) (blocks : ℕ) (salt : List ℕ) → length uuid.0 ≡ 16 → length salt ≡ 32
        → salt_in (superblock uuid blocks salt) 32 ≡ salt }
{}

ghost use Rattle.std.specs.Prelude.{◌≡◌, ◌<◌, ◌^◌, ◌++◌, [], ◌∷◌, ℕ, List, Option, Some, None, IfSome, OnOk, OnErr, length};
ghost use Rattle.rp_base.specs.Faults.{HasCause};
ghost use Rattle.rp_verity.specs.Puts.{AddedSome};

use rp_base::Failed;

/// Where the hash blocks of a tree go, each with its place behind the superblock's block, from 0.
pub trait TreeOut {
    /// The places and blocks that it has taken; nothing where it doesn't tell.
    ghost told: { Self → Option (List (ℕ × List ℕ)) };

    /// How many of its calls have failed.
    ghost faults: { Self → ℕ };

    /// How many of its calls have failed.
    fn faults(&self) -> u64
        ensures { result ≡ faults self.now };

    /// Takes a block of 4,096 bytes; at `Failed` it took it or not.
    fn put(&mut self, index: u64, block: &[u8]) -> Result<(), Failed>
        requires index { index < 2 ^ 32 }
        requires block { length block.now ≡ 4096 }
        ensures done { IfSome (told self.old) (λ puts. OnOk result (told self.new ≡ Some (puts ++ (index, block.now) ∷ []))) }
        ensures failed { IfSome (told self.old) (λ puts. OnErr result (AddedSome puts ((index, block.now) ∷ []) (told self.new))) }
        ensures cause { HasCause (faults self.old) (faults self.new) result };
}

/// Takes all blocks and keeps none. It never fails.
#[derive(Clone, Copy, Debug)]
pub struct Nowhere;

impl TreeOut for Nowhere {
    ghost told = { λ _. None };

    ghost faults = { λ _. 0 };

    fn faults(&self) -> u64 {
        0
    }

    fn put(&mut self, _index: u64, _block: &[u8]) -> Result<(), Failed> {
        Ok(())
    }
}

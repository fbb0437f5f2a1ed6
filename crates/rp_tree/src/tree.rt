//! What is known of a tree before its blocks are read.

ghost use Rattle.std.specs.Prelude.{◌≡◌, ◌≤◌, length, take};

use rp_verity::{MOST_SALT, Superblock};

/// What a superblock says, and the salt that stands in it, with zeros behind it.
#[derive(Drop)]
pub(crate) struct Tree {
    pub(crate) said: Superblock,
    pub(crate) salt: [u8; MOST_SALT as usize],
    ghost short: { said.salt_size ≤ 256 },
}

impl Tree {
    pub(crate) fn salt(&self) -> &[u8]
        ensures salt { result.now ≡ take self.now.said.salt_size self.now.salt }
        ensures short { length result.now ≤ 256 }
    {
        &self.salt[..self.said.salt_size as usize]
    }
}

//! CRC-32 (UEFI 2.10, 5.3.2; ISO 3309, ITU-T V.42) of bytes that come in pieces.
#![tactic(auto)]

ghost use Rattle.std.specs.Prelude.{◌≡◌};
ghost use Rattle.rp_crc.specs.Crc.{fed, inverted, start};

use crate::feed::{feed_bytes, feed_words};
use crate::tables::byte_tables;
use std::marker::Model;

mod feed;
mod tables;

/// The CRC-32 of the bytes so far, seen as its register.
#[derive(Debug, Drop)]
pub struct Crc {
    register: u32,
}

impl Model for Crc {
    ghost use Rattle.std.specs.Prelude.{ℕ};

    ghost Value = { ℕ };

    ghost view = { λ c. c.register };
}

impl Crc {
    /// The CRC-32 of no bytes.
    pub fn new() -> Self
        ensures { result ≡ start }
    {
        Crc { register: !0 }
    }

    /// Takes these bytes behind those before. Any cut into pieces leads to the same value.
    pub fn update(&mut self, bytes: &[u8])
        ensures { self.new ≡ fed self.old bytes.now }
    {
        let (words, rest) = bytes.as_chunks::<8>();
        let tables = byte_tables();
        let register = feed_words(tables, self.register, words);
        self.register = feed_bytes(tables, register, rest);
    }

    /// The CRC-32 of all bytes so far.
    pub fn value(&self) -> u32
        ensures { result ≡ inverted self.now }
    {
        !self.register
    }
}

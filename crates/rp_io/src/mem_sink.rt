ghost use Rattle.std.specs.Prelude.{◌≡◌, ◌++◌, [], Some, OnOk, OnErr};
ghost use Rattle.rp_base.specs.Faults.{HasCause};

use crate::Sink;
use crate::calls::is_listed;
use rp_base::{Failed, List};
use std::alloc::Global;

/// A sink in memory. It keeps the bytes that it has taken.
#[derive(Drop)]
pub struct MemSink {
    taken: Vec<u8>,
    fail: List<u64>,
    made: u64,
    faults: u64,
    starved: u64,
}

impl MemSink {
    ghost use Rattle.rp_io.specs.MemSink.{taken, listed, made, failures, starved};

    /// A sink that has taken nothing and fails the calls with these numbers, from 1. It takes no memory.
    pub fn new(alloc: Global, fail: List<u64>) -> Self
        ensures taken { taken result ≡ [] }
        ensures listed { listed result ≡ fail }
        ensures made { made result ≡ 0 }
        ensures faults { failures result ≡ 0 }
        ensures starved { starved result ≡ 0 }
    {
        MemSink {
            taken: Vec::new(alloc),
            fail,
            made: 0,
            faults: 0,
            starved: 0,
        }
    }

    /// The bytes taken.
    pub fn bytes(&self) -> &[u8]
        ensures { result.now ≡ taken self.now }
    {
        self.taken.as_slice()
    }

    /// How many pieces it found no memory for.
    pub fn starved(&self) -> u64
        ensures { result ≡ starved self.now }
    {
        self.starved
    }
}

impl Sink for MemSink {
    ghost use Rattle.std.specs.Prelude.{Contains, ◌+◌};
    ghost use Rattle.rp_io.specs.Sink.{TookPart};
    ghost use Rattle.rp_io.specs.MemSink.{taken, failures, FailsExactly};

    ghost told = { λ sink. Some (taken sink) };

    ghost faults = { failures };

    fn faults(&self) -> u64 {
        self.faults
    }

    fn write(&mut self, bytes: &[u8]) -> Result<(), Failed>
        ensures done { OnOk result (taken self.new ≡ taken self.old ++ bytes.now) }
        ensures failed { OnErr result (taken self.new ≡ taken self.old) }
        ensures cause { HasCause (failures self.old) (failures self.new) result }
        ensures exact { FailsExactly self.old self.new result }
    {
        if is_listed(&mut self.made, &self.fail) {
            self.faults = self.faults.saturating_add(1);
            return Err(Failed);
        }
        if self.taken.extend_from_slice(bytes).is_err() {
            self.faults = self.faults.saturating_add(1);
            self.starved = self.starved.saturating_add(1);
            return Err(Failed);
        }
        Ok(())
    }
}

#[cfg(test)]
mod tests {
    use super::*;
    use std::test::Fail;

    #[test]
    fn takes_all_but_the_second_piece(rt: HostRuntime) -> Result<(), Fail> {
        let mut fail = List::new(rt.alloc());
        fail.push(2)?;
        let mut sink = MemSink::new(rt.alloc(), fail);
        sink.write(b"one ")?;
        assert_eq!(rt; sink.write(b"two "), Err(Failed));
        sink.write(b"three")?;
        assert_eq!(rt; sink.bytes(), b"one three".as_slice());
        assert_eq!(rt; sink.faults(), 1);
        assert_eq!(rt; sink.starved(), 0);
        Ok(())
    }
}

ghost use Rattle.std.specs.Prelude.{◌≡◌};
ghost use Rattle.rp_progress.specs.Metered.{wrapped};

use crate::Meter;
use rp_base::Failed;
use rp_disk::Disk;
use rp_io::{Sink, Sources};
use std::rt::Clock;

/// A disk, sources or an output whose bytes a meter counts. What it is asked is handed on, and the answer back, so it tells
/// what that tells.
#[derive(Drop)]
pub struct Metered<'a, T, R> {
    inner: T,
    meter: &'a Meter<'a, R>,
}

impl<'a, T, R> Metered<'a, T, R> {
    /// The same, counted by this meter.
    pub fn new(inner: T, meter: &'a Meter<'a, R>) -> Metered<'a, T, R>
        ensures { wrapped result ≡ inner }
    {
        Metered { inner, meter }
    }
}

impl<D: Disk, R: Clock + Eprint> Disk for Metered<'_, D, R> {
    ghost device = { λ it. D.device (wrapped it) };

    fn faults(&self) -> u64 {
        self.inner.faults()
    }

    fn len(&mut self) -> Result<u64, Failed> {
        self.inner.len()
    }

    fn read(&mut self, at: u64, buf: &mut [u8]) -> Result<(), Failed> {
        let answer = self.inner.read(at, buf);
        self.meter.add_read(buf.len());
        answer
    }

    fn write(&mut self, at: u64, bytes: &[u8]) -> Result<(), Failed> {
        let answer = self.inner.write(at, bytes);
        self.meter.add_written(bytes.len());
        answer
    }

    fn sync(&mut self) -> Result<(), Failed> {
        self.inner.sync()
    }

    fn set_len(&mut self, len: u64) -> Result<(), Failed> {
        self.inner.set_len(len)
    }
}

impl<S: Sources, R: Clock + Eprint> Sources for Metered<'_, S, R> {
    ghost told = { λ it. S.told (wrapped it) };

    ghost faults = { λ it. S.faults (wrapped it) };

    ghost strays = { λ it. S.strays (wrapped it) };

    fn faults(&self) -> u64 {
        self.inner.faults()
    }

    fn len(&mut self, path: &str) -> Result<u64, Failed> {
        self.inner.len(path)
    }

    fn read(&mut self, path: &str, at: u64, buf: &mut [u8]) -> Result<(), Failed> {
        let answer = self.inner.read(path, at, buf);
        self.meter.add_read(buf.len());
        answer
    }
}

/// What is printed takes the place of the meter's line.
impl<K: Sink, R: Clock + Eprint> Sink for Metered<'_, K, R> {
    ghost told = { λ it. K.told (wrapped it) };

    ghost faults = { λ it. K.faults (wrapped it) };

    fn faults(&self) -> u64 {
        self.inner.faults()
    }

    fn write(&mut self, bytes: &[u8]) -> Result<(), Failed> {
        self.meter.clear();
        self.inner.write(bytes)
    }
}

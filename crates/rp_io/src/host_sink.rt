ghost use Rattle.std.specs.Prelude.{None};

use crate::Sink;
use rp_base::Failed;

/// The standard output of the host. It tells nothing.
#[derive(Drop)]
pub struct HostSink<'a, R: Print> {
    rt: &'a R,
    faults: u64,
}

impl<'a, R: Print> HostSink<'a, R> {
    ghost use Rattle.std.specs.Prelude.{◌≡◌};
    ghost use Rattle.rp_io.specs.HostSink.{failures};

    /// The standard output of this runtime.
    pub fn new(rt: &'a R) -> HostSink<'a, R>
        ensures { failures result ≡ 0 }
    {
        HostSink { rt, faults: 0 }
    }
}

impl<R: Print> Sink for HostSink<'_, R> {
    ghost use Rattle.rp_io.specs.HostSink.{failures};

    ghost told = { λ _. None };

    ghost faults = { failures };

    fn faults(&self) -> u64 {
        self.faults
    }

    // A write that moves no byte of a piece that isn't empty is an error of the runtime.
    fn write(&mut self, bytes: &[u8]) -> Result<(), Failed> {
        if self.rt.write_all(bytes).is_err() {
            self.faults = self.faults.saturating_add(1);
            return Err(Failed);
        }
        Ok(())
    }
}

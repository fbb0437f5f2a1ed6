ghost use Rattle.std.specs.Prelude.{◌≡◌, ◌∷◌, ◌++◌, [], ℕ, List, length, map, OnOk, OnErr};

use crate::Call;
use std::alloc::{AllocError, Global};

// What a disk in memory keeps of its changing calls.
#[derive(Drop)]
pub(crate) struct Record {
    // the bytes before the first of them, once there was one
    first: Vec<u8>,
    calls: Vec<Call>,
    // which of them answered Ok
    oks: Vec<bool>,
    ghost answers: { length calls.items ≡ length oks.items },
}

impl Record {
    ghost use Rattle.rp_disk.specs.History.{Start};
    ghost use Rattle.rp_disk.specs.Made.{asked};
    ghost use Rattle.rp_disk.specs.Kept.{answered, noted};
    ghost use Rattle.rp_disk.specs.Record.{first_bytes, recorded, history_kept};

    pub(crate) fn new(alloc: Global) -> Self
        ensures first { (image : List ℕ) → first_bytes image result ≡ image }
        ensures calls { recorded result ≡ [] }
        ensures history { (image : List ℕ) → history_kept image result ≡ Start image }
    {
        Record {
            first: Vec::new(alloc),
            calls: Vec::new(alloc),
            oks: Vec::new(alloc),
        }
    }

    pub(crate) fn calls(&self) -> &[Call]
        ensures { result.now ≡ map asked (recorded self.now) }
    {
        self.calls.as_slice()
    }

    // Adds a call and its answer, at a time when the disk shows this image.
    pub(crate) fn note(
        &mut self,
        alloc: Global,
        image: &[u8],
        call: Call,
        ok: bool,
    ) -> Result<(), AllocError>
        ensures first { OnOk result ((after : List ℕ) → first_bytes after self.new ≡ first_bytes image.now self.old) }
        ensures calls { OnOk result (recorded self.new ≡ recorded self.old ++ answered call ok ∷ []) }
        ensures history { OnOk result ((after : List ℕ) → history_kept after self.new ≡ noted (history_kept image.now self.old) call ok) }
        ensures same_first { OnErr result (first_bytes image.now self.new ≡ first_bytes image.now self.old) }
        ensures same_calls { OnErr result (recorded self.new ≡ recorded self.old) }
        ensures same_history { OnErr result (history_kept image.now self.new ≡ history_kept image.now self.old) }
    {
        if self.calls.is_empty() {
            self.first = image.to_vec(alloc)?;
        }
        self.oks.reserve(1)?;
        self.calls.push(call)?;
        self.oks.push(ok).unwrap();
        Ok(())
    }
}

// What a disk was asked and what it answered, as lists that only clauses read.
ghost use Rattle.std.specs.Prelude.{◌≡◌, List, []};
ghost use Rattle.std.specs.Coded.{coded_list};
ghost use Rattle.std.specs.Borrow.{ftrue};
ghost use Rattle.rp_disk.specs.Device.{Answer};
ghost use Rattle.rp_disk.specs.Made.{Made};
ghost use Rattle.rp_disk.specs.MadeCode.{answer_code, made_code};

use std::marker::Model;

// It takes no bytes, and its methods do nothing when they run.
#[derive(Drop)]
pub(crate) struct Log {
    pub ghost calls: { List Made } by { coded_list made_code },
    pub ghost answers: { List Answer } by { coded_list answer_code },
}

impl Model for Log {
    ghost also_owns = { λ _. ftrue };
}

// What a disk was asked: its length, with the answer; a read, with the bytes in the buffer, and whether it was done; a read or
// a write of so many bytes that failed before it reached the disk; a changing call, and whether it was done.
#[derive(Clone, Copy, Drop)]
pub(crate) enum Note<'a> {
    Len(u64),
    Read(u64, &'a [u8], bool),
    Missed(u64, usize),
    Write(u64, &'a [u8], bool),
    Sync(bool),
    SetLen(u64, bool),
}

impl Log {
    ghost use Rattle.rp_disk.specs.Noted.{answers_noted, calls_noted};

    pub(crate) fn new() -> Log
        ensures { (result.calls ≡ []) × (result.answers ≡ []) }
    {
        Log {}
    }

    #[inline(always)]
    pub(crate) fn then(&self, _note: &Note<'_>) -> Log
        ensures { (result.calls ≡ calls_noted self.now.calls _note.now)
            × (result.answers ≡ answers_noted self.now.calls self.now.answers _note.now) }
    {
        Log {}
    }
}

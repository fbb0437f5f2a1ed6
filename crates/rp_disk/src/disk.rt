ghost use Rattle.std.specs.Prelude.{◌≡◌, ◌+◌, ◌≤◌, length, OnOk, IfOk};
ghost use Rattle.rp_base.specs.Faults.{HasCause};
ghost use Rattle.rp_base.specs.Image.{bytes_at};
ghost use Rattle.rp_disk.specs.Device.{Device, Earlier, Known, NotesLength, NotesRead, NotesWrite, missed};
ghost use Rattle.rp_disk.specs.History.{held};
ghost use Rattle.rp_disk.specs.Made.{Makes, Past, history_of};

use crate::Call;
use rp_base::Failed;

/// A disk. Places and lengths are in bytes.
///
/// Every disk has what it was asked and what it answered as a meaning: its changing calls in order, each with its answer,
/// and its answers to all others. A clause on content speaks of each past that the disk can have by what it has answered:
/// its bytes at first, and what its calls left that failed. Of such a past a read gave the bytes shown, a write that
/// answered Ok changed them in its range and nothing else, a growth showed zeros in the new part, and nothing was done past
/// the end. What a stop may leave is said by `MayLeave` and `LeftSince` of its history.
///
/// It is the disk's own note: that a file's answers are those of one past is what its operating system promises, where no
/// other program writes to it. Where they are not, no past can be had, and a clause on content says nothing.
pub trait Disk {
    /// What it was asked and what it answered. A changing call that failed may be missing, where it changed nothing.
    ghost device: { Self → Device };

    /// How often it has failed. The count never falls, and stays at 2^64 - 1 once there.
    fn faults(&self) -> u64
        ensures { result ≡ (device self.now).faults };

    /// The length in bytes.
    fn len(&mut self) -> Result<u64, Failed>
        ensures calls { (device self.new).calls ≡ (device self.old).calls }
        ensures noted { NotesLength (device self.old) (device self.new) result }
        ensures earlier { Earlier (device self.old) (device self.new) }
        ensures len { Known (device self.old) (device self.new) (λ h. IfOk result (λ n. n ≡ length (held h))) }
        ensures inside { (past : Past) → missed past (device self.new).answers ≡ missed past (device self.old).answers }
        ensures cause { HasCause (device self.old).faults (device self.new).faults result };

    /// Fills the whole buffer from an offset on, or fails.
    fn read(&mut self, at: u64, buf: &mut [u8]) -> Result<(), Failed>
        ensures calls { (device self.new).calls ≡ (device self.old).calls }
        ensures noted { NotesRead (device self.old) (device self.new) at buf.new result }
        ensures earlier { Earlier (device self.old) (device self.new) }
        ensures range { Known (device self.old) (device self.new) (λ h. OnOk result (at + length buf.old ≤ length (held h))) }
        ensures bytes { Known (device self.old) (device self.new)
            (λ h. OnOk result (buf.new ≡ bytes_at (held h) at (length buf.old))) }
        ensures inside { (past : Past) → at + length buf.old ≤ length (held (history_of past (device self.old).calls))
            → missed past (device self.new).answers ≡ missed past (device self.old).answers }
        ensures cause { HasCause (device self.old).faults (device self.new).faults result };

    /// Writes all the bytes in place from an offset on. One that fails leaves any bytes in its range.
    fn write(&mut self, at: u64, bytes: &[u8]) -> Result<(), Failed>
        ensures calls { Makes (device self.old).calls (Call.Write at bytes.now) (device self.new).calls result }
        ensures noted { NotesWrite (device self.old) (device self.new) (at + length bytes.now) result }
        ensures earlier { Earlier (device self.old) (device self.new) }
        ensures range { Known (device self.old) (device self.new)
            (λ h. OnOk result (at + length bytes.now ≤ length (held h))) }
        ensures inside { (past : Past) → at + length bytes.now ≤ length (held (history_of past (device self.old).calls))
            → missed past (device self.new).answers ≡ missed past (device self.old).answers }
        ensures cause { HasCause (device self.old).faults (device self.new).faults result };

    /// Settles the bytes shown: at Ok a stop leaves these and nothing else. One that fails makes nothing certain.
    fn sync(&mut self) -> Result<(), Failed>
        ensures calls { Makes (device self.old).calls Call.Sync (device self.new).calls result }
        ensures answers { (device self.new).answers ≡ (device self.old).answers }
        ensures earlier { Earlier (device self.old) (device self.new) }
        ensures cause { HasCause (device self.old).faults (device self.new).faults result };

    /// Cuts the bytes, or fills them up with zeros, to a length. One that fails leaves the length as it was or this one,
    /// with the bytes below both as they were and any bytes in a new part.
    fn set_len(&mut self, len: u64) -> Result<(), Failed>
        ensures calls { Makes (device self.old).calls (Call.SetLen len) (device self.new).calls result }
        ensures answers { (device self.new).answers ≡ (device self.old).answers }
        ensures earlier { Earlier (device self.old) (device self.new) }
        ensures cause { HasCause (device self.old).faults (device self.new).faults result };
}

ghost use Rattle.std.specs.Prelude.{◌≡◌, ◌+◌, ◌-◌, ◌^◌, ◌≤◌, ◌<◌, ◌⊎◌, ◌++◌, ◌∷◌, [], ℕ, List, Some, min, map, length, vec_len, IsTrue, Contains, OnOk, ◌↔◌, count_by};
ghost use Rattle.rp_disk.specs.Calls.{overwritten, is_write as is_write_call};
ghost use Rattle.rp_disk.specs.History.{held};
ghost use Rattle.rp_disk.specs.Kept.{writes_fit};
ghost use Rattle.rp_disk.specs.Device.{AllHold};
ghost use Rattle.rp_disk.specs.MadeCode.{made_code};
ghost use Rattle.rp_disk.specs.Record.{history_kept, past_kept, recorded};
ghost use Rattle.rp_disk.specs.Told.{AllHold-prop};
ghost use Rattle.std.specs.Coded.{Coded-set, coded_list};

use crate::log::{Log, Note};
use crate::record::Record;
use crate::{Call, Disk};
use rp_base::{Failed, List};
use std::alloc::Global;

/// A disk in memory. It records each changing call, and fails the calls with given numbers.
#[derive(Drop)]
pub struct MemDisk {
    alloc: Global,
    // the bytes shown
    bytes: Vec<u8>,
    notes: Record,
    // the numbers of the calls that are to fail, from 1 over all five calls
    fail: List<u64>,
    // how many calls pass before all are to fail
    fuse: u64,
    // what it was asked and what it answered
    log: Log,
    // how many calls came, how many of them failed, found no memory
    made: u64,
    faults: u64,
    starved: u64,
    ghost shows: { held (history_kept bytes.items notes) ≡ bytes.items },
    ghost fits: { IsTrue (writes_fit (history_kept bytes.items notes)) },
    ghost logged: { log.calls ≡ recorded notes } by { Coded-set (coded_list made_code) log.calls (recorded notes) },
    ghost told: { AllHold (past_kept bytes.items notes) log.answers } by { AllHold-prop (past_kept bytes.items notes) log.answers },
}

impl MemDisk {
    ghost use Rattle.rp_disk.specs.History.{Start, held};
    ghost use Rattle.rp_disk.specs.Made.{asked};
    ghost use Rattle.rp_disk.specs.FileDisk.{fresh};
    ghost use Rattle.rp_disk.specs.MemDisk.{first, calls, device_of, history, starved, made, listed, fuse};

    /// A disk that shows these bytes and fails the calls with these numbers, from 1. It takes no memory.
    pub fn new(alloc: Global, bytes: List<u8>, fail: List<u64>) -> Self
        ensures first { first result ≡ bytes }
        ensures calls { calls result ≡ [] }
        ensures history { history result ≡ Start bytes }
        ensures listed { listed result ≡ fail }
        ensures fuse { fuse result ≡ 2 ^ 64 - 1 }
        ensures made { made result ≡ 0 }
        ensures starved { starved result ≡ 0 }
        ensures device { device_of result ≡ fresh }
    {
        MemDisk::with(alloc, bytes, fail, u64::MAX)
    }

    /// A disk that shows these bytes, passes this many calls and then fails every call. It takes no memory.
    pub fn fused(alloc: Global, bytes: List<u8>, passing: u64) -> Self
        ensures first { first result ≡ bytes }
        ensures calls { calls result ≡ [] }
        ensures history { history result ≡ Start bytes }
        ensures listed { listed result ≡ [] }
        ensures fuse { fuse result ≡ passing }
        ensures made { made result ≡ 0 }
        ensures starved { starved result ≡ 0 }
        ensures device { device_of result ≡ fresh }
    {
        MemDisk::with(alloc, bytes, List::new(alloc), passing)
    }

    fn with(alloc: Global, bytes: List<u8>, fail: List<u64>, passing: u64) -> Self
        ensures first { first result ≡ bytes }
        ensures calls { calls result ≡ [] }
        ensures history { history result ≡ Start bytes }
        ensures listed { listed result ≡ fail }
        ensures fuse { fuse result ≡ passing }
        ensures made { made result ≡ 0 }
        ensures starved { starved result ≡ 0 }
        ensures device { device_of result ≡ fresh }
    {
        MemDisk {
            alloc,
            bytes: bytes.into_vec(),
            notes: Record::new(alloc),
            fail,
            fuse: passing,
            log: Log::new(),
            made: 0,
            faults: 0,
            starved: 0,
        }
    }

    /// All changing calls, those that failed too.
    pub fn calls(&self) -> &[Call]
        ensures { result.now ≡ map asked (calls self.now) }
    {
        self.notes.calls()
    }

    /// How many of them are writes.
    pub fn writes(&self) -> u64
        ensures { result ≡ count_by is_write_call (map asked (calls self.now)) }
    {
        self.notes
            .calls()
            .iter()
            .filter(|call| is_write(call))
            .count() as u64
    }

    /// The bytes shown.
    pub fn bytes(&self) -> &[u8]
        ensures { result.now ≡ held (history self.now) }
    {
        self.bytes.as_slice()
    }

    /// How many of its calls found no memory.
    pub fn starved(&self) -> u64
        ensures { result ≡ starved self.now }
    {
        self.starved
    }
}

// Counts a call, and says whether it is one of those that are to fail.
fn is_to_fail(made: &mut u64, fail: &List<u64>, fuse: u64) -> bool
    ensures made { made.new ≡ min (made.old + 1) (2 ^ 64 - 1) }
    ensures to_fail { IsTrue result ↔ (Contains fail.now made.new ⊎ (fuse < made.new)) }
{
    *made = made.saturating_add(1);
    fail.as_slice().contains(made) || fuse < *made
}

// Puts bytes in the place of others.
fn put(image: &mut Vec<u8>, at: usize, bytes: &[u8])
    requires { at + length bytes.now ≤ vec_len image.old }
    ensures { image.new.items ≡ overwritten image.old.items at bytes.now }
{
    image[at..at + bytes.len()].copy_from_slice(bytes);
}

impl MemDisk {
    ghost use Rattle.std.specs.Prelude.{IfOk, ⊤};
    ghost use Rattle.rp_base.specs.Faults.{HasCause};
    ghost use Rattle.rp_base.specs.Image.{bytes_at};
    ghost use Rattle.rp_disk.specs.Device.{NotesLength, NotesRead, NotesWrite};
    ghost use Rattle.rp_disk.specs.History.{held};
    ghost use Rattle.rp_disk.specs.Made.{Makes};
    ghost use Rattle.rp_disk.specs.MemDisk.{first, calls, history, device_of, Reads, Changes};

    // The length, noted.
    fn ask_len(&mut self) -> Result<u64, Failed>
        ensures first { first self.new ≡ first self.old }
        ensures calls { (device_of self.new).calls ≡ (device_of self.old).calls }
        ensures value { IfOk result (λ n. n ≡ length (held (history self.old))) }
        ensures exact { Reads self.old self.new ⊤ result }
        ensures noted { NotesLength (device_of self.old) (device_of self.new) result }
        ensures cause { HasCause (device_of self.old).faults (device_of self.new).faults result }
    {
        if is_to_fail(&mut self.made, &self.fail, self.fuse) {
            return Err(fault(&mut self.faults));
        }
        let len = self.bytes.len() as u64;
        self.log = self.log.then(&Note::Len(len));
        Ok(len)
    }

    // The read, noted.
    fn ask_read(&mut self, at: u64, buf: &mut [u8]) -> Result<(), Failed>
        ensures first { first self.new ≡ first self.old }
        ensures calls { (device_of self.new).calls ≡ (device_of self.old).calls }
        ensures given { OnOk result (buf.new ≡ bytes_at (held (history self.old)) at (length buf.old)) }
        ensures exact { Reads self.old self.new (at + length buf.old ≤ length (held (history self.old))) result }
        ensures noted { NotesRead (device_of self.old) (device_of self.new) at buf.new result }
        ensures cause { HasCause (device_of self.old).faults (device_of self.new).faults result }
    {
        let failing = is_to_fail(&mut self.made, &self.fail, self.fuse);
        if failing || !is_inside(at, buf.len(), self.bytes.len()) {
            self.log = self.log.then(&Note::Missed(at, buf.len()));
            return Err(fault(&mut self.faults));
        }
        let from = at as usize;
        buf.copy_from_slice(&self.bytes[from..from + buf.len()]);
        self.log = self.log.then(&Note::Read(at, buf, true));
        Ok(())
    }

    // The write, noted.
    fn ask_write(&mut self, at: u64, bytes: &[u8]) -> Result<(), Failed>
        ensures first { first self.new ≡ first self.old }
        ensures exact { Changes self.old self.new (Call.Write at bytes.now)
            (at + length bytes.now ≤ length (held (history self.old))) result }
        ensures calls { Makes (device_of self.old).calls (Call.Write at bytes.now) (device_of self.new).calls result }
        ensures noted { NotesWrite (device_of self.old) (device_of self.new) (at + length bytes.now) result }
        ensures cause { HasCause (device_of self.old).faults (device_of self.new).faults result }
    {
        let failing = is_to_fail(&mut self.made, &self.fail, self.fuse);
        let inside = is_inside(at, bytes.len(), self.bytes.len());
        let ok = inside && !failing;
        let copy = match bytes.to_vec(self.alloc) {
            Ok(copy) => copy,
            Err(_) => {
                self.log = self.log.then(&Note::Missed(at, bytes.len()));
                return Err(starve(&mut self.faults, &mut self.starved));
            }
        };
        let call = Call::Write {
            at,
            bytes: List::from_vec(copy),
        };
        if self
            .notes
            .note(self.alloc, self.bytes.as_slice(), call, ok)
            .is_err()
        {
            self.log = self.log.then(&Note::Missed(at, bytes.len()));
            return Err(starve(&mut self.faults, &mut self.starved));
        }
        self.log = self.log.then(&Note::Write(at, bytes, ok));
        if !ok {
            return Err(fault(&mut self.faults));
        }
        put(&mut self.bytes, at as usize, bytes);
        Ok(())
    }

    // The sync, noted.
    fn ask_sync(&mut self) -> Result<(), Failed>
        ensures first { first self.new ≡ first self.old }
        ensures exact { Changes self.old self.new Call.Sync ⊤ result }
        ensures calls { Makes (device_of self.old).calls Call.Sync (device_of self.new).calls result }
        ensures answers { (device_of self.new).answers ≡ (device_of self.old).answers }
        ensures cause { HasCause (device_of self.old).faults (device_of self.new).faults result }
    {
        let ok = !is_to_fail(&mut self.made, &self.fail, self.fuse);
        if self
            .notes
            .note(self.alloc, self.bytes.as_slice(), Call::Sync, ok)
            .is_err()
        {
            return Err(starve(&mut self.faults, &mut self.starved));
        }
        self.log = self.log.then(&Note::Sync(ok));
        if !ok {
            return Err(fault(&mut self.faults));
        }
        Ok(())
    }

    // The change of length, noted.
    fn ask_set_len(&mut self, len: u64) -> Result<(), Failed>
        ensures first { first self.new ≡ first self.old }
        ensures exact { Changes self.old self.new (Call.SetLen len) ⊤ result }
        ensures calls { Makes (device_of self.old).calls (Call.SetLen len) (device_of self.new).calls result }
        ensures answers { (device_of self.new).answers ≡ (device_of self.old).answers }
        ensures cause { HasCause (device_of self.old).faults (device_of self.new).faults result }
    {
        let ok = !is_to_fail(&mut self.made, &self.fail, self.fuse);
        let size = self.bytes.len();
        let new_size = len as usize;
        if ok && self.bytes.reserve(new_size.saturating_sub(size)).is_err() {
            return Err(starve(&mut self.faults, &mut self.starved));
        }
        if self
            .notes
            .note(self.alloc, self.bytes.as_slice(), Call::SetLen { len }, ok)
            .is_err()
        {
            return Err(starve(&mut self.faults, &mut self.starved));
        }
        self.log = self.log.then(&Note::SetLen(len, ok));
        if !ok {
            return Err(fault(&mut self.faults));
        }
        self.bytes.resize(new_size, 0).unwrap();
        Ok(())
    }
}

impl Disk for MemDisk {
    ghost use Rattle.std.specs.Prelude.{IfOk, ⊤};
    ghost use Rattle.rp_base.specs.Faults.{HasCause};
    ghost use Rattle.rp_base.specs.Image.{bytes_at};
    ghost use Rattle.rp_disk.specs.Device.{Earlier, Known, NotesLength, NotesRead, NotesWrite, missed};
    ghost use Rattle.rp_disk.specs.History.{held};
    ghost use Rattle.rp_disk.specs.Made.{Makes, Past, history_of};
    ghost use Rattle.rp_disk.specs.MemDisk.{first, calls, history, device_of, Reads, Changes};

    ghost device = { device_of };

    fn faults(&self) -> u64 {
        self.faults
    }

    fn len(&mut self) -> Result<u64, Failed>
        ensures first { first self.new ≡ first self.old }
        ensures calls { (device_of self.new).calls ≡ (device_of self.old).calls }
        ensures value { IfOk result (λ n. n ≡ length (held (history self.old))) }
        ensures exact { Reads self.old self.new ⊤ result }
        ensures noted { NotesLength (device_of self.old) (device_of self.new) result }
        ensures earlier { Earlier (device_of self.old) (device_of self.new) }
        ensures len { Known (device_of self.old) (device_of self.new) (λ h. IfOk result (λ n. n ≡ length (held h))) }
        ensures inside { (past : Past) → missed past (device_of self.new).answers ≡ missed past (device_of self.old).answers }
        ensures cause { HasCause (device_of self.old).faults (device_of self.new).faults result }
    {
        self.ask_len()
    }

    fn read(&mut self, at: u64, buf: &mut [u8]) -> Result<(), Failed>
        ensures first { first self.new ≡ first self.old }
        ensures calls { (device_of self.new).calls ≡ (device_of self.old).calls }
        ensures given { OnOk result (buf.new ≡ bytes_at (held (history self.old)) at (length buf.old)) }
        ensures exact { Reads self.old self.new (at + length buf.old ≤ length (held (history self.old))) result }
        ensures noted { NotesRead (device_of self.old) (device_of self.new) at buf.new result }
        ensures earlier { Earlier (device_of self.old) (device_of self.new) }
        ensures range { Known (device_of self.old) (device_of self.new)
            (λ h. OnOk result (at + length buf.old ≤ length (held h))) }
        ensures bytes { Known (device_of self.old) (device_of self.new)
            (λ h. OnOk result (buf.new ≡ bytes_at (held h) at (length buf.old))) }
        ensures inside { (past : Past) → at + length buf.old ≤ length (held (history_of past (device_of self.old).calls))
            → missed past (device_of self.new).answers ≡ missed past (device_of self.old).answers }
        ensures cause { HasCause (device_of self.old).faults (device_of self.new).faults result }
    {
        self.ask_read(at, buf)
    }

    fn write(&mut self, at: u64, bytes: &[u8]) -> Result<(), Failed>
        ensures first { first self.new ≡ first self.old }
        ensures exact { Changes self.old self.new (Call.Write at bytes.now)
            (at + length bytes.now ≤ length (held (history self.old))) result }
        ensures calls { Makes (device_of self.old).calls (Call.Write at bytes.now) (device_of self.new).calls result }
        ensures noted { NotesWrite (device_of self.old) (device_of self.new) (at + length bytes.now) result }
        ensures earlier { Earlier (device_of self.old) (device_of self.new) }
        ensures range { Known (device_of self.old) (device_of self.new)
            (λ h. OnOk result (at + length bytes.now ≤ length (held h))) }
        ensures inside { (past : Past) → at + length bytes.now ≤ length (held (history_of past (device_of self.old).calls))
            → missed past (device_of self.new).answers ≡ missed past (device_of self.old).answers }
        ensures cause { HasCause (device_of self.old).faults (device_of self.new).faults result }
    {
        self.ask_write(at, bytes)
    }

    fn sync(&mut self) -> Result<(), Failed>
        ensures first { first self.new ≡ first self.old }
        ensures exact { Changes self.old self.new Call.Sync ⊤ result }
        ensures calls { Makes (device_of self.old).calls Call.Sync (device_of self.new).calls result }
        ensures answers { (device_of self.new).answers ≡ (device_of self.old).answers }
        ensures earlier { Earlier (device_of self.old) (device_of self.new) }
        ensures cause { HasCause (device_of self.old).faults (device_of self.new).faults result }
    {
        self.ask_sync()
    }

    fn set_len(&mut self, len: u64) -> Result<(), Failed>
        ensures first { first self.new ≡ first self.old }
        ensures exact { Changes self.old self.new (Call.SetLen len) ⊤ result }
        ensures calls { Makes (device_of self.old).calls (Call.SetLen len) (device_of self.new).calls result }
        ensures answers { (device_of self.new).answers ≡ (device_of self.old).answers }
        ensures earlier { Earlier (device_of self.old) (device_of self.new) }
        ensures cause { HasCause (device_of self.old).faults (device_of self.new).faults result }
    {
        self.ask_set_len(len)
    }
}

// A range lies within an image.
fn is_inside(at: u64, n: usize, size: usize) -> bool
    ensures { IsTrue result ↔ (at + n ≤ size) }
{
    let size = size as u64;
    at <= size && n as u64 <= size - at
}

// Counts a call that fails.
fn fault(faults: &mut u64) -> Failed
    ensures count { faults.new ≡ min (faults.old + 1) (2 ^ 64 - 1) }
    ensures later { faults.old ≤ faults.new }
{
    *faults = faults.saturating_add(1);
    Failed
}

// A call that finds no memory is a fault.
fn starve(faults: &mut u64, starved: &mut u64) -> Failed
    ensures faults { faults.new ≡ min (faults.old + 1) (2 ^ 64 - 1) }
    ensures later { faults.old ≤ faults.new }
    ensures starved { starved.new ≡ min (starved.old + 1) (2 ^ 64 - 1) }
{
    *faults = faults.saturating_add(1);
    *starved = starved.saturating_add(1);
    Failed
}

fn is_write(call: &Call) -> bool
    ensures { result ≡ is_write_call call.now }
{
    matches!(call, Call::Write { .. })
}

ghost use Rattle.std.specs.Prelude.{◌<◌};

use crate::size::size_of;
use std::cell::Cell;
use std::rt::Clock;
use std::time::Instant;

/// Milliseconds between two lines, and before the first.
const PAUSE: u64 = 500;

/// What takes a line's place: spaces, no fewer than a line has columns.
const BLANK: &str = "\r                                                                    \r";

/// Counts bytes, and shows on standard error how many were read and written, how fast, and for how long:
///
/// ```text
/// read  412 MiB   205 MiB/s   written  206 MiB   102 MiB/s   0:00:02
/// ```
///
/// A line comes at most twice a second, in the place of the former, and none before half a second. The rates are those
/// since the former line. Where it isn't to show any, it asks no clock and prints nothing.
#[derive(Drop)]
pub struct Meter<'a, R> {
    rt: &'a R,
    // when it was made; none where it shows nothing
    start: Option<Instant>,
    now: Cell<Counts>,
    // what the last line told
    told: Cell<Counts>,
    // a line stands
    stands: Cell<bool>,
}

/// Bytes that were read and written, and milliseconds since the start.
#[derive(Clone, Copy)]
struct Counts {
    read: u64,
    written: u64,
    millis: u64,
}

const NOTHING: Counts = Counts {
    read: 0,
    written: 0,
    millis: 0,
};

impl<'a, R: Clock + Eprint> Meter<'a, R> {
    /// A meter that starts now. It shows lines where `shows` says so and there is a clock.
    pub fn new(rt: &'a R, shows: bool) -> Meter<'a, R> {
        Meter {
            rt,
            start: if shows { Instant::now(rt).ok() } else { None },
            now: Cell::new(NOTHING),
            told: Cell::new(NOTHING),
            stands: Cell::new(false),
        }
    }

    /// Takes the line away, so that other words can be printed.
    pub fn clear(&self) {
        if self.stands.get() {
            self.stands.set(false);
            let _ = eprint!(self.rt; "{BLANK}");
        }
    }

    pub(crate) fn add_read(&self, count: usize) {
        self.add(count as u64, 0);
    }

    pub(crate) fn add_written(&self, count: usize) {
        self.add(0, count as u64);
    }

    // Counts these bytes, and shows a line where it is time for one.
    fn add(&self, read: u64, written: u64) {
        let Some(start) = self.start else {
            return;
        };
        let Ok(elapsed) = start.elapsed(self.rt) else {
            return;
        };
        let former = self.now.get();
        let now = Counts {
            read: former.read.saturating_add(read),
            written: former.written.saturating_add(written),
            millis: elapsed
                .as_secs()
                .saturating_mul(1000)
                .saturating_add(u64::from(elapsed.subsec_millis())),
        };
        self.now.set(now);
        let told = self.told.get();
        let millis = now.millis.saturating_sub(told.millis);
        if millis >= PAUSE {
            self.show(now, told, millis);
        }
    }

    fn show(&self, now: Counts, told: Counts, millis: u64)
        requires { 0 < millis }
    {
        self.told.set(now);
        self.stands.set(true);
        let read = size_of(now.read);
        let read_rate = size_of(rate(now.read, told.read, millis));
        let written = size_of(now.written);
        let written_rate = size_of(rate(now.written, told.written, millis));
        let seconds = now.millis / 1000;
        let hours = seconds / 3600;
        let minutes = seconds / 60 % 60;
        let seconds = seconds % 60;
        let _ = eprint!(self.rt;
            "\rread {read}  {read_rate}/s   written {written}  {written_rate}/s   {hours}:{minutes:02}:{seconds:02}"
        );
    }
}

// Bytes a second, where the count went from `then` to `now` in these milliseconds.
fn rate(now: u64, then: u64, millis: u64) -> u64
    requires { 0 < millis }
{
    now.saturating_sub(then).saturating_mul(1000) / millis
}

//! What no clause says: which lines are shown, and when.
use crate::size::size_of;
use crate::{Meter, Metered};
use rp_base::List;
use rp_disk::{Disk, MemDisk};
use rp_io::{MemSink, Sink};
use std::cell::{Cell, RefCell};
use std::fmt::Display;
use std::io;
use std::io::ErrorKind;
use std::rt::Clock;
use std::test::Fail;
use std::time::Duration;

/// A clock of which each reading is 300 ms later, and a terminal that keeps what it was last given.
#[derive(Drop)]
struct FakeTerminal {
    readings: Cell<u64>,
    prints: Cell<u64>,
    last: RefCell<String>,
}

impl Clock for FakeTerminal {
    fn monotonic(&self) -> io::Result<Duration> {
        self.readings.set(self.readings.get().wrapping_add(1));
        Ok(Duration::from_millis(self.readings.get().wrapping_mul(300)))
    }

    fn since_1970(&self) -> io::Result<Duration> {
        Err(ErrorKind::Unsupported.into())
    }
}

impl Eprint for FakeTerminal {
    fn eprint<D: Display + Drop>(&self, value: D) -> io::Result<()> {
        self.prints.set(self.prints.get().wrapping_add(1));
        let Ok(mut last) = self.last.try_borrow_mut() else {
            return Err(ErrorKind::Other.into());
        };
        last.clear();
        if write!(last, "{value}").is_err() {
            return Err(ErrorKind::OutOfMemory.into());
        }
        Ok(())
    }

    fn eprintln<D: Display + Drop>(&self, _value: D) -> io::Result<()> {
        Err(ErrorKind::Unsupported.into())
    }
}

#[test]
fn lines(rt: HostRuntime) -> Result<(), Fail> {
    let alloc = rt.alloc();
    // Whether it shows; the lines and readings of the clock by four calls, and at the end.
    for (shows, prints, readings) in [(true, 3, 5), (false, 0, 0)] {
        let terminal = FakeTerminal {
            readings: Cell::new(0),
            prints: Cell::new(0),
            last: RefCell::new(String::new(alloc)),
        };
        let meter = Meter::new(&terminal, shows);
        let image = List::from_vec(vec![in alloc; 0u8; 4096]?);
        let mut disk = Metered::new(MemDisk::new(alloc, image, List::new(alloc)), &meter);
        let mut out = Metered::new(MemSink::new(alloc, List::new(alloc)), &meter);
        let mut buf = [0u8; 2048];
        for at in 0..2 {
            assert!(rt; disk.read(at * 2048, &mut buf).is_ok());
            assert!(rt; disk.write(at * 2048, &[1u8; 1024]).is_ok());
        }
        if shows {
            let Ok(last) = terminal.last.try_borrow() else {
                return Err("borrowed")?;
            };
            assert_eq!(rt;
                last.as_str(),
                "\rread  4.0 KiB   3.3 KiB/s   written  2.0 KiB   1.6 KiB/s   0:00:01"
            );
        }
        assert!(rt; out.write("applied".as_bytes()).is_ok());
        assert_eq!(rt; terminal.prints.get(), prints);
        assert_eq!(rt; terminal.readings.get(), readings);
    }
    Ok(())
}

#[test]
fn sizes(rt: HostRuntime) -> Result<(), Fail> {
    for (bytes, text) in [
        (0, " 0.0 KiB"),
        (10_239, " 9.9 KiB"),
        (1_048_575, "1023 KiB"),
        (1_048_576, " 1.0 MiB"),
        (36_700_160, "  35 MiB"),
        (u64::MAX, "  15 EiB"),
    ] {
        let shown = format!(in rt.alloc(); "{}", size_of(bytes))?;
        assert_eq!(rt; shown.as_str(), text);
    }
    Ok(())
}

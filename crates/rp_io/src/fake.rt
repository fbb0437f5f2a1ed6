//! A folder and an output whose answers a test chooses.
use std::cell::Cell;
use std::fmt::Display;
use std::io;
use std::io::{ErrorKind, Read};

/// The names of a folder. The first read is interrupted.
#[derive(Drop)]
pub(crate) struct FakeNames {
    /// What each read gives, how often, and the error behind them.
    pub(crate) names: &'static [u8],
    pub(crate) reads: usize,
    pub(crate) last: Option<ErrorKind>,
    pub(crate) is_new: bool,
}

impl Read for FakeNames {
    fn read(&mut self, buf: &mut [u8]) -> io::Result<usize> {
        if self.is_new {
            self.is_new = false;
            return Err(ErrorKind::Interrupted.into());
        }
        if self.reads == 0 {
            return match self.last {
                Some(kind) => Err(kind.into()),
                None => Ok(0),
            };
        }
        self.reads -= 1;
        let count = self.names.len().min(buf.len());
        buf[..count].copy_from_slice(&self.names[..count]);
        Ok(count)
    }
}

#[derive(Drop)]
pub(crate) struct FakeOutput {
    /// The error of each write. All but the last byte is written before it.
    pub(crate) refusal: Option<ErrorKind>,
    pub(crate) written: Cell<usize>,
}

impl Print for FakeOutput {
    fn print<D: Display + Drop>(&self, _value: D) -> io::Result<()> {
        Err(ErrorKind::Unsupported.into())
    }

    fn println<D: Display + Drop>(&self, _value: D) -> io::Result<()> {
        Err(ErrorKind::Unsupported.into())
    }

    fn write_all(&self, bytes: &[u8]) -> io::Result<()> {
        let count = match self.refusal {
            Some(_) => bytes.len().saturating_sub(1),
            None => bytes.len(),
        };
        self.written.set(self.written.get().saturating_add(count));
        match self.refusal {
            Some(kind) => Err(kind.into()),
            None => Ok(()),
        }
    }

    fn write_some(&self, bytes: &[u8]) -> io::Result<usize> {
        self.written.set(self.written.get().saturating_add(1));
        Ok(bytes.len().min(1))
    }
}

//! The lock that keeps other writers away from an image.

use std::fs::{File, OpenOptions, TryLockError};
use std::thread;
use std::time::Duration;

// How often a lock that another program has is tried again, and milliseconds between: ten seconds. udev(7) holds a shared
// one for moments, while it handles an event of a disk.
const TURNS: u32 = 100;

const PAUSE: u64 = 100;

#[derive(Drop)]
pub(crate) enum Lock {
    Unwanted,
    /// Where the file is dropped, the lock goes.
    Held(File),
    /// Another program has it, or there is nothing to lock.
    Refused,
}

/// The exclusive advisory lock (flock(2)) of the image at a path. It is opened for writing too, which such a lock needs on
/// some file systems.
pub(crate) fn lock_of(rt: &HostRuntime, path: &str) -> Lock {
    if path.is_empty() {
        return Lock::Refused;
    }
    let file = match OpenOptions::new().read(true).write(true).open(rt, path) {
        Ok(file) => file,
        Err(error) => {
            let _ = eprintln!(rt; "repart: {path}: it can't be opened for writing: {error}");
            return Lock::Refused;
        }
    };
    match wait_for(rt, path, &file) {
        Ok(()) => Lock::Held(file),
        Err(TryLockError::WouldBlock) => {
            let _ = eprintln!(rt;
                "repart: {path}: another program still has its lock; try again when that has ended"
            );
            Lock::Refused
        }
        Err(TryLockError::Error(error)) => {
            let _ = eprintln!(rt; "repart: {path}: its lock can't be taken: {error}");
            Lock::Refused
        }
    }
}

// Takes the lock, or waits until another program lets it go.
fn wait_for(rt: &HostRuntime, path: &str, file: &File) -> Result<(), TryLockError> {
    for turn in 0..TURNS {
        match file.try_lock() {
            Err(TryLockError::WouldBlock) => (),
            answer => return answer,
        }
        if turn == 0 {
            let _ = eprintln!(rt;
                "repart: {path}: another program has its lock; waiting up to 10 seconds for it"
            );
        }
        thread::sleep(rt, Duration::from_millis(PAUSE));
    }
    file.try_lock()
}

//! The standard handles.

use std::fs::{File, OpenOptions};
use std::io;
use std::os::fd::AsRawFd;

/// What stands for those of the handles 0, 1 and 2 that are closed, as long as it is held: else a file that is opened later
/// gets one of them, and what is printed is written into an image. It is open for reading alone, so that printing fails.
pub(crate) fn standard_handles(rt: &HostRuntime) -> io::Result<[Option<File>; 3]> {
    let mut held = [None, None, None];
    for place in &mut held {
        // the least handle that is free
        let file = OpenOptions::new().read(true).open(rt, "/dev/null")?;
        if file.as_raw_fd() > 2 {
            break;
        }
        *place = Some(file);
    }
    Ok(held)
}

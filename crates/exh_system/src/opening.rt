//! Files of the system are opened above the standard streams.

use std::fs::{File, OpenOptions};
use std::io;
use std::os::fd::AsRawFd;

// The descriptors below are those of the standard streams.
const FIRST: i32 = 3;

/// Opens the file of a path to be read.
///
/// An error: the system doesn't open it, or has no further descriptor.
pub fn open_above(rt: &HostRuntime, path: &str) -> io::Result<File> {
    let mut options = OpenOptions::new();
    options.read(true);
    open_with(rt, &options, path)
}

/// Opens the file of a path in some way. Where a standard stream is closed the system may give its descriptor: then the
/// file is opened anew, so that what is printed doesn't get into it.
pub(crate) fn open_with(rt: &HostRuntime, options: &OpenOptions, path: &str) -> io::Result<File> {
    let file = options.open(rt, path)?;
    if file.as_raw_fd() < FIRST {
        file.try_clone()
    } else {
        Ok(file)
    }
}

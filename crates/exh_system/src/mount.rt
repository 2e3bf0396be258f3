//! Page files that are mounted by themselves, whose logs would stand in another folder.

use crate::open_above;
use crate::size_limit::first_word;
use exh_file::{Parts, parse_u64};
use exh_saving::folder_of;
use std::fs::File;
use std::io;
use std::io::Read;
use std::os::fd::AsRawFd;

// What the system tells of an open file, a line each, of which this many bytes are looked at.
const ABOUT_LEN: usize = 512;

// How the line of the mount that a file is in begins.
const MOUNT: &[u8] = b"mnt_id:\t";

/// Whether an open file at a path without links is in another mount than its folder, as far as the system tells that.
pub(crate) fn is_mounted_alone(rt: &HostRuntime, file: &File, whole: &str) -> bool {
    let Ok(folder) = open_above(rt, folder_of(whole)) else {
        return false;
    };
    match (mount_of(rt, file), mount_of(rt, &folder)) {
        (Ok(Some(own)), Ok(Some(around))) => own != around,
        _ => false,
    }
}

// The number of the mount that an open file is in, where the system tells one.
fn mount_of(rt: &HostRuntime, file: &File) -> io::Result<Option<u64>> {
    let number = file.as_raw_fd();
    let path = format!(in rt.alloc(); "/proc/self/fdinfo/{number}")?;
    let mut about = [0; ABOUT_LEN];
    open_above(rt, &path)?.read(&mut about)?;
    for line in Parts::new(b'\n', &about) {
        if line.starts_with(MOUNT) {
            return Ok(parse_u64(first_word(&line[MOUNT.len()..])));
        }
    }
    Ok(None)
}

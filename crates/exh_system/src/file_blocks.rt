//! The blocks of a file of the system, each read at its place.
ghost use Rattle.std.specs.Prelude.{None};

use crate::{Reason, open_above, with_reason};
use exh_codec::BLOCK_LEN;
use exh_direct::Blocks;
use std::fs::File;
use std::os::unix::fs::FileExt;
use std::{fs, io};

/// The blocks of an open file. Why one couldn't be read is the reason.
#[derive(Drop)]
pub struct FileBlocks<'a> {
    file: &'a File,
    count: u64,
    reason: &'a Reason,
}

impl<'a> FileBlocks<'a> {
    /// Of a file, as many as it has now.
    ///
    /// An error: the system doesn't say how long it is.
    pub fn new(file: &'a File, reason: &'a Reason) -> io::Result<FileBlocks<'a>> {
        let count = file.metadata()?.len() / BLOCK_LEN as u64;
        Ok(FileBlocks {
            file,
            count,
            reason,
        })
    }
}

// No model tells what a file of the system has.
impl Blocks for FileBlocks<'_> {
    ghost known = { λ _. None };

    ghost reads = { λ _. None };

    ghost whole = { λ blocks. blocks.count };

    fn count(&self) -> u64 {
        self.count
    }

    fn read(&mut self, place: u32, block: &mut [u8; BLOCK_LEN]) -> io::Result<()> {
        let start = u64::from(place) * BLOCK_LEN as u64;
        with_reason(self.file.read_exact_at(block, start), self.reason)
    }
}

/// Opens a regular file. What is none isn't opened, so that no pipe is waited for.
pub fn open_regular(rt: &HostRuntime, path: &str) -> io::Result<File> {
    if !fs::metadata(rt, path)?.is_file() {
        return Err(io::Error::new(io::ErrorKind::InvalidInput, "not a regular file"));
    }
    open_above(rt, path)
}

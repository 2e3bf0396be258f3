//! Files of the system that aren't finished: their first bytes are written last, and the mark of such a file stands there
//! before.

use exh_saving::UNFINISHED;
use std::fs::File;
use std::io;
use std::io::Write;
use std::os::unix::fs::FileExt;

/// The first bytes of a file, as far as they came.
#[derive(Clone, Copy)]
pub(crate) struct FirstBytes {
    bytes: [u8; 8],
    count: usize,
}

/// A file while it is written to. In place of its first bytes it gets the mark.
#[derive(Drop)]
pub struct UnfinishedFile {
    pub(crate) file: File,
    pub(crate) first: FirstBytes,
}

impl FirstBytes {
    /// None came yet.
    pub(crate) fn none() -> FirstBytes {
        FirstBytes {
            bytes: [0; 8],
            count: 0,
        }
    }

    /// Puts them in place of the mark, once all else of the file is on the disk, and waits until they are, too.
    pub(crate) fn put(&self, file: &File) -> io::Result<()> {
        file.write_all_at(&self.bytes[..self.count.min(8)], 0)?;
        file.sync_all()
    }
}

// No model tells what a file of the system has.
impl Write for UnfinishedFile {
    fn write(&mut self, bytes: &[u8]) -> io::Result<usize> {
        let start = self.first.count.min(8);
        let count = bytes.len().min(8 - start);
        if count == 0 {
            return self.file.write(bytes);
        }
        let taken = self
            .file
            .write(&UNFINISHED[start..start + count])?
            .min(count);
        self.first.bytes[start..start + taken].copy_from_slice(&bytes[..taken]);
        self.first.count = start + taken;
        Ok(taken)
    }

    fn flush(&mut self) -> io::Result<()> {
        Ok(())
    }
}

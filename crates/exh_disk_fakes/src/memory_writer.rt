ghost use Rattle.std.specs.Prelude.{Some};

use crate::memory_disk::fault;
use crate::memory_file::MemoryFile;
use crate::saver::Saver;
use std::io;
use std::io::{ErrorKind, Write};

/// How many bytes a file takes at once.
pub(crate) const PIECE: usize = 3;

/// A file while it is written to. What it gets comes to its file system once that is over.
#[derive(Drop)]
pub struct MemoryWriter {
    pub(crate) file: MemoryFile,
    pub(crate) saver: Saver,
    /// How many calls the saver has made.
    pub(crate) calls: usize,
}

impl Write for MemoryWriter {
    ghost contents = { λ writer. Some writer.file.bytes.items };

    fn write(&mut self, bytes: &[u8]) -> io::Result<usize> {
        self.calls = self.calls.wrapping_add(1);
        if self.saver.fails(self.calls) {
            return fault(ErrorKind::Other);
        }
        let count = bytes.len().min(PIECE);
        self.file.bytes.extend_from_slice(&bytes[..count])?;
        Ok(count)
    }

    fn flush(&mut self) -> io::Result<()> {
        Ok(())
    }
}

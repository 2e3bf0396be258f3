//! The blocks of an open file, read as they stand.

use exh_codec::BLOCK_LEN;
use exh_salvage::{ReadBlocks, blocks_in};
use std::fs::File;
use std::io;
use std::io::ErrorKind;
use std::os::unix::fs::FileExt;

/// The blocks of an open file, of which the last may be a piece.
#[derive(Drop)]
pub(crate) struct OpenBlocks<'a> {
    file: &'a File,
    /// How many there are, with a piece at the end.
    pub(crate) count: u32,
}

impl<'a> OpenBlocks<'a> {
    /// Of a file, as many as it has now.
    ///
    /// An error: the system doesn't say how long it is, or it has 2^32 blocks or more.
    pub(crate) fn of(file: &'a File) -> io::Result<OpenBlocks<'a>> {
        let count = blocks_in(file.metadata()?.len());
        match u32::try_from(count) {
            Ok(count) => Ok(OpenBlocks { file, count }),
            Err(_) => Err(io::Error::from(ErrorKind::FileTooLarge)),
        }
    }
}

// No model tells what a file of the system has, nor of which of its blocks a read failed.
impl ReadBlocks for OpenBlocks<'_> {
    ghost use Rattle.std.specs.Prelude.{None, true};

    ghost known = { λ _. None };

    ghost failed = { λ _ _. true };

    fn read(&mut self, place: u32, block: &mut [u8; BLOCK_LEN]) -> io::Result<()> {
        self.file
            .read_exact_at(block, u64::from(place) * BLOCK_LEN as u64)
    }
}

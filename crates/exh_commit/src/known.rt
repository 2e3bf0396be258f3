//! The blocks of an open file as readers see them.
ghost use Rattle.std.specs.Prelude.{None};
ghost use Rattle.exh_commit.specs.PagedFile.{known_in};

use crate::{PagedFile, Truthful};
use exh_codec::BLOCK_LEN;
use exh_edits::Blocks;
use sqlite_pager::Error;
use std::io;

// The bytes are told of a disk that is known to answer no read wrongly.
impl<D: Truthful> Blocks for PagedFile<D> {
    ghost known = { λ file. known_in D.Truthful.is_truthful file };

    ghost reads = { λ _. None };

    ghost whole = { λ file. file.pager.count };

    fn count(&self) -> u64 {
        u64::from(PagedFile::count(self))
    }

    fn read(&mut self, place: u32, block: &mut [u8; BLOCK_LEN]) -> io::Result<()> {
        match self.load(place, block) {
            Ok(()) => Ok(()),
            Err(error) => Err(reason_of(error)),
        }
    }
}

/// Why a block couldn't be read, in the system's words where it has some.
pub(crate) fn reason_of(error: Error) -> io::Error {
    match error {
        Error::Io(error) => error,
        Error::OutOfMemory => io::Error::from(io::ErrorKind::OutOfMemory),
        Error::NoSuchPage => io::Error::from(io::ErrorKind::UnexpectedEof),
        _ => io::Error::from(io::ErrorKind::Other),
    }
}

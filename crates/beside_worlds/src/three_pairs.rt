//! Readers and writers of the page file of the three pairs, and what comes of opening and of writing it.

use exh_fixtures::{Difference, FakeReader, FakeWriter, WriteRefusal};
use exh_frames::Pages;
use exh_script::{OpenFault, Opened, SaveFault, write_file};
use std::alloc::{AllocError, Global};

/// The length of a block, in bytes.
pub(crate) const BLOCK_LEN: usize = 4096;

/// A reader of a file that gives at most so many bytes a read, and doesn't fail.
pub(crate) fn reader_of(file: &[u8], most: usize) -> FakeReader<'_> {
    FakeReader {
        rest: file,
        most,
        fault: None,
        reads: 0,
    }
}

/// A writer that takes all, with room for a file.
pub(crate) fn writer_for(alloc: Global, file: &[u8]) -> Result<FakeWriter, AllocError> {
    Ok(FakeWriter {
        taken: Vec::with_capacity(alloc, file.len())?,
        most: file.len(),
        room: None,
        refusal: WriteRefusal::NoBytes,
        writes: 0,
    })
}

/// Writes the file of wards to a writer of which nothing is kept.
pub(crate) fn write_to<P: Pages + Drop>(
    opened: &mut Opened<P>,
    writer: &mut FakeWriter,
) -> Result<(), SaveFault> {
    writer.taken.clear();
    writer.writes = 0;
    write_file(writer, opened)
}

/// Whether a file was written whole. A `Difference` where no page was out of reach.
pub(crate) fn is_saved(saved: Result<(), SaveFault>) -> Result<bool, Difference> {
    match saved {
        Ok(()) => Ok(true),
        Err(SaveFault::Page) => Ok(false),
        Err(SaveFault::Memory) => Err(Difference::Memory(AllocError)),
        Err(SaveFault::Write) => Err(Difference::Refused(SaveFault::Write.number())),
    }
}

/// What is left to say where a file should have been opened.
pub(crate) fn not_opened(fault: OpenFault) -> Difference {
    match fault.number() {
        10 => Difference::Memory(AllocError),
        number => Difference::Refused(number),
    }
}

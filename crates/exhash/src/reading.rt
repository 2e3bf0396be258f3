//! Page files that are read whole.
ghost use Rattle.std.specs.Prelude.{IfErr};
ghost use Rattle.exh_map.specs.Sizes.{IsOfCause, IsOfOpening, IsOther};

use exh_frames::FileStore;
use exh_map::{
    FileForm, Opened, Reading, ReasonReader, StoreError, open_form, opened_at, read_still,
};
use std::alloc::Global;
use std::cell::Cell;
use std::fs::File;

/// The wards of an open file, and how it has its pages in places.
///
/// Errors: it isn't read, as they say.
pub fn read_whole(alloc: Global, file: &File) -> Result<(Opened<FileStore>, FileForm), StoreError>
    ensures { IfErr result IsOfCause }
{
    let reason = Cell::new(None);
    match open_form(alloc, &mut ReasonReader::new(file, &reason)) {
        Ok(found) => Ok(found),
        Err(fault) => Err(StoreError::of_opening(fault, reason.get())),
    }
}

/// The same of the bytes of a page file in memory.
pub fn read_whole_bytes(
    alloc: Global,
    bytes: &[u8],
) -> Result<(Opened<FileStore>, FileForm), StoreError>
    ensures { IfErr result IsOfCause }
{
    let mut reader = bytes;
    match open_form(alloc, &mut reader) {
        Ok(found) => Ok(found),
        Err(fault) => Err(StoreError::of_opening(fault, None)),
    }
}

/// Why the file of a path isn't read: that it isn't there, or has no bytes; else this cause.
pub(crate) fn unread(rt: &HostRuntime, path: &str, cause: StoreError) -> StoreError
    ensures { IsOther cause → IsOther result }
{
    match opened_at(rt, path) {
        Err(StoreError::Absent) => StoreError::Absent,
        _ => cause,
    }
}

// A reading of a whole file, which may be made again.
#[derive(Drop)]
struct WholeReading {
    alloc: Global,
}

impl Reading for WholeReading {
    type Found = Result<(Opened<FileStore>, FileForm), StoreError>;

    ghost gives = { λ found. IfErr found IsOfCause };

    fn read(&mut self, file: &File) -> Result<(Opened<FileStore>, FileForm), StoreError> {
        read_whole(self.alloc, file)
    }

    fn read_bytes(&mut self, bytes: &[u8]) -> Result<(Opened<FileStore>, FileForm), StoreError> {
        read_whole_bytes(self.alloc, bytes)
    }
}

/// The wards of one state of the file of a path, as `read_still` reads it.
///
/// Errors: it isn't opened or read, as they say.
pub(crate) fn read_opened(
    rt: &HostRuntime,
    path: &str,
    seconds: u64,
) -> Result<Opened<FileStore>, StoreError>
    ensures { IfErr result IsOfOpening }
{
    let mut reading = WholeReading { alloc: rt.alloc() };
    let found = read_still(rt, path, &mut reading, seconds)?;
    let (opened, _form) = found?;
    Ok(opened)
}

//! The file that a page file is read from.
ghost use Rattle.std.specs.Prelude.{IfErr};
ghost use Rattle.exh_map.specs.Sizes.{IsOfOpening, IsOther};
ghost use Rattle.exh_map.specs.Backup.{IsOfSource};

use crate::{StoreError, open_regular};
use exh_codec::BLOCK_LEN;
use exh_format::{Header, MAGIC, version_in};
use std::fs;
use std::fs::File;
use std::io::ErrorKind;
use std::os::unix::fs::FileExt;

/// Opens the file of a path.
///
/// `Absent`: nothing is there, or an empty file. `Io`: it isn't opened, as one that isn't regular.
pub fn opened_at(rt: &HostRuntime, path: &str) -> Result<File, StoreError>
    ensures other { IfErr result IsOther }
    ensures err { IfErr result IsOfOpening }
{
    match open_regular(rt, path) {
        Ok(file) if file.metadata()?.len() == 0 => Err(StoreError::Absent),
        Ok(file) => Ok(file),
        Err(error) if error.kind() == ErrorKind::NotFound => Err(StoreError::Absent),
        Err(error) => Err(StoreError::from(error)),
    }
}

/// Sees that an open file that is no page file of version 3 begins as one of version 1 or 2.
///
/// `NoPageFile`, `UnknownVersion`, `Damaged`, `Truncated`: as they say. `Io`: it isn't read.
pub fn see_old_version(file: &File) -> Result<(), StoreError>
    ensures other { IfErr result IsOther }
    ensures err { IfErr result IsOfSource }
{
    let mut block = [0; BLOCK_LEN];
    match file.read_exact_at(&mut block, 0) {
        Ok(()) => match Header::from_block(version_in(&block), &block) {
            Ok(_) => Ok(()),
            Err(fault) => Err(StoreError::from(fault)),
        },
        Err(error) if error.kind() == ErrorKind::UnexpectedEof => {
            Err(unread_file(file, StoreError::Truncated))
        }
        Err(error) => Err(StoreError::from(error)),
    }
}

/// Why the file of a path isn't read, where this is the cause: that nothing is there, where the system found nothing; that it is
/// no page file, where it is empty, or ends too early and doesn't begin as one.
pub fn unread_at(rt: &HostRuntime, path: &str, cause: StoreError) -> StoreError
    ensures other { IsOther cause → IsOther result }
    ensures of_source { IsOfSource cause → IsOfSource result }
{
    match cause {
        StoreError::Io(error) if error.kind() == ErrorKind::NotFound => StoreError::Absent,
        StoreError::Absent if is_empty_at(rt, path) => StoreError::NoHeader,
        StoreError::Truncated => match open_regular(rt, path) {
            Ok(file) => unread_file(&file, StoreError::Truncated),
            Err(_) => StoreError::Truncated,
        },
        cause => cause,
    }
}

/// Why an open file isn't read, where this is the cause: that it is no page file, where it ends too early and doesn't begin as
/// one.
pub fn unread_file(file: &File, cause: StoreError) -> StoreError
    ensures other { IsOther cause → IsOther result }
    ensures of_source { IsOfSource cause → IsOfSource result }
{
    match cause {
        StoreError::Truncated if !begins_as_page_file(file) => StoreError::NoHeader,
        cause => cause,
    }
}

// Whether an empty file is at a path.
fn is_empty_at(rt: &HostRuntime, path: &str) -> bool {
    match fs::metadata(rt, path) {
        Ok(about) => about.is_file() && about.len() == 0,
        Err(_) => false,
    }
}

// Whether an open file begins as a page file does.
fn begins_as_page_file(file: &File) -> bool {
    let mut front = [0; 8];
    match file.read_exact_at(&mut front, 0) {
        Ok(()) => front == MAGIC,
        Err(_) => false,
    }
}

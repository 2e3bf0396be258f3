//! Copies of page files, made beside others that change them.
ghost use Rattle.std.specs.Prelude.{IfErr};
ghost use Rattle.exh_map.specs.Sizes.{IsOfCause};
ghost use Rattle.exh_map.specs.Backup.{IsOfBackup, IsOfSource};

use crate::beside::Beside;
use crate::blocks::{copy_all, copy_rest, finish};
use crate::source::see_old_version;
use crate::target::FileTarget;
use crate::waiting::opened_there;
use crate::{
    BackupFault, BytesBlocks, FileBlocks, InMemory, InPlaceFault, Reading, Reason, Refused,
    Standing, StoreError, WAIT, is_name_beside, open_above, read_one_state, see_no_log,
    see_room_for_copy, stand_still,
};
use exh_codec::BLOCK_LEN;
use exh_saving::folder_of;
use std::cell::Cell;
use std::fs::File;
use std::{fs, io};

/// Copies the page file of a path, of any version, byte for byte to a new path at which nothing is: all of one state, also
/// beside others that change it. They are kept out for up to five seconds; where one has the writers' lock all the while, as an
/// open store does, the file is read until all of it is one state. Where what a log has can't be copied into the file, for want
/// of room or permission, the copy has it. It is written beside the new path, and linked there once all of it is on the disk.
///
/// `Copy(Unsynchronized)`: it is copied, but a power failure may take the copy away. `Copy(Exists)`: something is at the new path.
/// `Copy(Busy)`: another process is at work there. Others: as they say. Of these nothing is left at the new path.
pub fn backup(rt: &HostRuntime, path: &str, new: &str) -> Result<(), BackupFault>
    ensures { IfErr result IsOfBackup }
{
    backup_within(rt, path, new, WAIT)
}

/// The same, and waits for others for so many seconds.
pub fn backup_within(
    rt: &HostRuntime,
    path: &str,
    new: &str,
    seconds: u64,
) -> Result<(), BackupFault>
    ensures { IfErr result IsOfBackup }
{
    see_free(rt, new)?;
    let source = match held_still(rt, path, seconds) {
        Ok(source) => source,
        Err(fault) => return Err(BackupFault::File(fault)),
    };
    if let Err(fault) = see_room_for_copy(rt, &source.file, new) {
        return Err(BackupFault::Copy(StoreError::from(fault)));
    }
    let beside = match Beside::made(rt, &source.file, new, seconds) {
        Ok(beside) => beside,
        Err(fault) => return Err(BackupFault::Copy(fault)),
    };
    match fill(rt, path, &source, beside.file(), seconds) {
        Ok(()) => match beside.place(rt, new) {
            Ok(()) => match synchronize_folder(rt, new) {
                Ok(()) => Ok(()),
                Err(error) => Err(BackupFault::Copy(StoreError::Unsynchronized(error))),
            },
            Err(fault) => Err(BackupFault::Copy(fault)),
        },
        Err(fault) => {
            beside.remove(rt);
            Err(fault)
        }
    }
}

// Sees that nothing is at a new path, that no page file's log would be there, and that no log stands beside it.
fn see_free(rt: &HostRuntime, new: &str) -> Result<(), BackupFault>
    ensures { IfErr result IsOfBackup }
{
    match is_name_beside(rt, new) {
        Ok(false) => {}
        Ok(true) => return Err(BackupFault::Copy(StoreError::Unfit(InPlaceFault::NameBeside))),
        Err(error) => return Err(BackupFault::Copy(StoreError::from(error))),
    }
    match fs::symlink_metadata(rt, new) {
        Ok(_) => Err(BackupFault::Copy(StoreError::Exists)),
        Err(_) => match see_no_log(rt, new) {
            Ok(()) => Ok(()),
            Err(refused) => Err(BackupFault::Copy(StoreError::from(refused))),
        },
    }
}

fn synchronize_folder(rt: &HostRuntime, new: &str) -> io::Result<()> {
    open_above(rt, folder_of(new))?.sync_all()
}

// A page file that is to be copied, and what of it is copied.
#[derive(Drop)]
struct Source {
    file: File,
    content: Content,
}

// What of a page file is copied.
#[derive(Drop)]
enum Content {
    // The file, which stands still as long as it is open.
    Still,
    // One state of it, which is looked for.
    Changing,
    // The file with what its log has.
    InMemory(InMemory),
}

// The page file of a path, from which writers are kept, unless one has the lock all the while.
fn held_still(rt: &HostRuntime, path: &str, seconds: u64) -> Result<Source, StoreError>
    ensures { IfErr result IsOfSource }
{
    let (file, is_held) = opened_there(rt, path, seconds)?;
    if !is_held {
        let content = Content::Changing;
        return Ok(Source { file, content });
    }
    let content = match stand_still(rt, path, &file, seconds) {
        Ok(Standing::Whole) => Content::Still,
        Ok(Standing::Replaced) => {
            see_old_version(&file)?;
            Content::Still
        }
        Ok(Standing::InMemory(found)) => Content::InMemory(found),
        Err(Refused::Unfit(InPlaceFault::Busy | InPlaceFault::Restless)) => Content::Changing,
        Err(refused) => return Err(StoreError::from(refused)),
    };
    Ok(Source { file, content })
}

// Copies a page file into an empty file.
fn fill(
    rt: &HostRuntime,
    path: &str,
    source: &Source,
    copy: &File,
    seconds: u64,
) -> Result<(), BackupFault>
    ensures { IfErr result IsOfBackup }
{
    match &source.content {
        Content::Still => copy_still(&source.file, copy),
        Content::Changing => copy_state(rt, path, copy, seconds),
        Content::InMemory(found) => copy_bytes(found.bytes(), copy),
    }
}

// Copies a page file that stands still into an empty file.
fn copy_still(file: &File, copy: &File) -> Result<(), BackupFault>
    ensures { IfErr result IsOfBackup }
{
    let reason = Cell::new(None);
    match whole_blocks(file, &reason) {
        Ok(mut blocks) => copy_all(&mut blocks, &mut FileTarget { file: copy }),
        Err(fault) => Err(BackupFault::File(fault)),
    }
}

// Copies a page file in memory into an empty file.
fn copy_bytes(bytes: &[u8], copy: &File) -> Result<(), BackupFault>
    ensures { IfErr result IsOfBackup }
{
    match blocks_of(bytes) {
        Ok(mut blocks) => copy_all(&mut blocks, &mut FileTarget { file: copy }),
        Err(fault) => Err(BackupFault::File(fault)),
    }
}

// A file that gets all blocks but the first.
#[derive(Drop)]
struct Rest<'c> {
    copy: &'c File,
}

impl Reading for Rest<'_> {
    type Found = Result<[u8; BLOCK_LEN], BackupFault>;

    ghost gives = { λ found. IfErr found IsOfBackup };

    fn read(&mut self, file: &File) -> Result<[u8; BLOCK_LEN], BackupFault> {
        let reason = Cell::new(None);
        match whole_blocks(file, &reason) {
            Ok(mut blocks) => copy_rest(&mut blocks, &mut FileTarget { file: self.copy }),
            Err(fault) => Err(BackupFault::File(fault)),
        }
    }

    fn read_bytes(&mut self, bytes: &[u8]) -> Result<[u8; BLOCK_LEN], BackupFault> {
        match blocks_of(bytes) {
            Ok(mut blocks) => copy_rest(&mut blocks, &mut FileTarget { file: self.copy }),
            Err(fault) => Err(BackupFault::File(fault)),
        }
    }
}

// Copies one state of the page file of a path that another process may change into an empty file.
fn copy_state(rt: &HostRuntime, path: &str, copy: &File, seconds: u64) -> Result<(), BackupFault>
    ensures { IfErr result IsOfBackup }
{
    match read_one_state(rt, path, &mut Rest { copy }, seconds) {
        Ok(Ok(first)) => finish(&mut FileTarget { file: copy }, &first),
        Ok(Err(fault)) => Err(fault),
        Err(refused) => Err(BackupFault::File(StoreError::from(refused))),
    }
}

// The blocks of a file, which has whole ones alone.
fn whole_blocks<'f>(file: &'f File, reason: &'f Reason) -> Result<FileBlocks<'f>, StoreError>
    ensures { IfErr result IsOfCause }
{
    if file.metadata()?.len() % BLOCK_LEN as u64 == 0 {
        Ok(FileBlocks::new(file, reason)?)
    } else {
        Err(StoreError::Truncated)
    }
}

// The same of a page file in memory.
fn blocks_of(bytes: &[u8]) -> Result<BytesBlocks<'_>, StoreError>
    ensures { IfErr result IsOfCause }
{
    if bytes.len() % BLOCK_LEN == 0 {
        Ok(BytesBlocks::new(bytes))
    } else {
        Err(StoreError::Truncated)
    }
}

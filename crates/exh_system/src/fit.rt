//! What is asked of a page file before its log is opened.
ghost use Rattle.std.specs.Prelude.{IfErr, OnOk};
ghost use Rattle.exh_system.specs.Fit.{HasShortName, IsUnfit};

use crate::mount::is_mounted_alone;
use crate::page_log::tells_of_none;
use crate::{InPlaceFault, PageLog};
use exh_codec::BLOCK_LEN;
use exh_saving::file_name_of;
use std::fs::File;
use std::io::ErrorKind;
use std::os::unix::fs::MetadataExt;
use std::{fs, io};

/// The most bytes of the name of a page file that is changed in place. A name has at most 255; that of a log has four more
/// than the page file's, and that of a journal, which the pager looks for, eight.
pub const NAME_LIMIT: usize = 247;

/// Whether an open file is at a path without links, as the system says it.
///
/// An error: the system doesn't say what is there.
pub fn is_at(rt: &HostRuntime, file: &File, whole: &str) -> io::Result<bool> {
    let opened = file.metadata()?;
    match fs::symlink_metadata(rt, whole) {
        Ok(there) => Ok(
            there.is_file() && there.dev() == opened.dev() && there.ino() == opened.ino(),
        ),
        Err(error) if error.kind() == ErrorKind::NotFound => Ok(false),
        Err(error) => Err(error),
    }
}

/// Sees that a file, which is locked and at its path without links, can be changed in place. Where its log has a change it
/// may end amid a block, as the power may fail while the log is copied.
///
/// `PartOfBlock`, `SecondName`, `Mounted`, `LongName`, `Journal`: as they say. `System`: the system doesn't say what is there.
pub fn see_fit(rt: &HostRuntime, file: &File, whole: &str) -> Result<(), InPlaceFault>
    ensures ok { OnOk result (HasShortName whole.now) }
    ensures err { IfErr result (IsUnfit whole.now) }
{
    let about = file.metadata()?;
    if about.len() % BLOCK_LEN as u64 != 0 && !PageLog::of(rt, whole)?.has_change(rt)? {
        return Err(InPlaceFault::PartOfBlock);
    }
    if about.nlink() != 1 {
        return Err(InPlaceFault::SecondName);
    }
    if is_mounted_alone(rt, file, whole) {
        return Err(InPlaceFault::Mounted);
    }
    if file_name_of(whole).len() > NAME_LIMIT {
        return Err(InPlaceFault::LongName);
    }
    match fs::symlink_metadata(rt, format!(in rt.alloc(); "{whole}-journal")?.as_str()) {
        Ok(_) => Err(InPlaceFault::Journal),
        Err(error) if tells_of_none(&error) => Ok(()),
        Err(error) => Err(InPlaceFault::System(error)),
    }
}

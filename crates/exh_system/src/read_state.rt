//! Readers that take no lock: what they read is one state of a file, or they read again.

use crate::{Front, PageLog, front_of, is_at};
use std::fs::File;
use std::{fs, io};

/// A state of a file, as it was seen before its blocks are read.
#[derive(Drop)]
pub struct ReadState {
    log: PageLog,
    front: Front,
}

/// What was seen before the blocks of a file are read.
#[derive(Drop)]
pub enum Begun {
    /// The file isn't one that is changed in place.
    Replaced,
    /// A state of it, with no log beside.
    State(ReadState),
    /// A log stands beside it, which is being changed, or a change was cut off; or its path leads elsewhere by now.
    Unsettled,
}

/// Looks at the stamp of an open file of a path, and then for its log, before its blocks are read.
///
/// An error: the system doesn't give the stamp, or doesn't say what is there.
pub fn begin_reading(rt: &HostRuntime, path: &str, file: &File) -> io::Result<Begun> {
    let Some(front) = front_of(file)? else {
        return Ok(Begun::Replaced);
    };
    let whole = fs::canonicalize(rt, path)?;
    let log = PageLog::of(rt, whole.as_str())?;
    if !is_at(rt, file, whole.as_str())? || log.has_change(rt)? {
        return Ok(Begun::Unsettled);
    }
    Ok(Begun::State(ReadState { log, front }))
}

impl ReadState {
    /// Whether the blocks that were read meanwhile are of this state: there is no log, and then the stamp is the same. In
    /// the other order a change whose copying ends between the two looks would pass.
    ///
    /// An error: the system doesn't say what is there, or doesn't give the stamp.
    pub fn is_still(&self, rt: &HostRuntime, file: &File) -> io::Result<bool> {
        if self.log.has_change(rt)? {
            return Ok(false);
        }
        Ok(front_of(file)? == Some(self.front))
    }
}

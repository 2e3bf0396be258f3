//! The file in which lines are named that an import doesn't put in.

use exh_import::Rejection;
use exh_pair_text::{PairFormat, push_pair};
use exh_run::StoreError;
use exh_text::{push_number, push_text};
use std::alloc::{AllocError, Global};
use std::fs::{File, OpenOptions};
use std::io;
use std::io::{ErrorKind, Write};
use std::os::fd::AsRawFd;

// The descriptors below are those of the standard streams.
const FIRST: i32 = 3;

/// A new file, at this path, in which lines are named.
#[derive(Drop)]
pub(crate) struct RejectsFile<'w> {
    pub(crate) path: &'w str,
    file: File,
}

impl<'w> RejectsFile<'w> {
    /// Makes it, empty.
    ///
    /// `Exists`: something is at its path. Others: it isn't made, as they say.
    pub(crate) fn made(rt: &HostRuntime, path: &'w str) -> Result<RejectsFile<'w>, StoreError> {
        let mut options = OpenOptions::new();
        options.write(true).create_new(true);
        match options.open(rt, path) {
            Ok(file) => Ok(RejectsFile {
                path,
                file: above(file)?,
            }),
            Err(error) if error.kind() == ErrorKind::AlreadyExists => Err(StoreError::Exists),
            Err(error) => Err(StoreError::from(error)),
        }
    }

    /// Names a line: its number, why it isn't put in, and the line, on one line.
    ///
    /// An error: it may stand there in part.
    pub(crate) fn name(
        &mut self,
        alloc: Global,
        number: u64,
        cause: Rejection,
        line: &[u8],
    ) -> Result<(), StoreError> {
        let text = named_line(alloc, number, cause, line)?;
        self.file.write_all(&text)?;
        Ok(())
    }
}

// The text that names a line: three fields with tabs between, of which two are those of a pair of tab-separated text.
fn named_line(
    alloc: Global,
    number: u64,
    cause: Rejection,
    line: &[u8],
) -> Result<Vec<u8>, AllocError> {
    let cause = format!(in alloc; "{cause}")?;
    let mut text = Vec::new(alloc);
    push_number(&mut text, number)?;
    push_text(&mut text, "\t")?;
    push_pair(&mut text, PairFormat::Tsv, false, cause.as_bytes(), line)?;
    Ok(text)
}

// The same file, by a descriptor that no standard stream has, so that what is printed doesn't get into it.
fn above(file: File) -> io::Result<File> {
    if file.as_raw_fd() < FIRST {
        file.try_clone()
    } else {
        Ok(file)
    }
}

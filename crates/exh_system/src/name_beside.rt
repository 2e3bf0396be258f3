//! Names that belong to a page file: those of its log and of its unfinished files.

use crate::front::begins_as_page_file;
use crate::open_regular;
use std::io;

// What stands behind the name of a page file in that of its log, and in those of the files beside it that a save or a copy
// hasn't finished.
const ENDINGS: [&str; 7] = [
    "-wal",
    "-wal-new",
    ".exhash-saving",
    ".exhash-saving-2",
    ".exhash-saving-3",
    ".exhash-saving-4",
    ".exhash-copying",
];

/// Whether a path has the name of the log of a page file that stands beside it, or of an unfinished file of it. Of a long
/// name, which is cut in that of an unfinished file, that isn't seen.
///
/// An error: the system doesn't give the first bytes of what stands there.
pub fn is_name_beside(rt: &HostRuntime, path: &str) -> io::Result<bool> {
    for ending in ENDINGS {
        if let Some(beside) = path.strip_suffix(ending) {
            if is_page_file(rt, beside)? {
                return Ok(true);
            }
        }
    }
    Ok(false)
}

// Whether a page file is at a path.
fn is_page_file(rt: &HostRuntime, path: &str) -> io::Result<bool> {
    match open_regular(rt, path) {
        Ok(file) => begins_as_page_file(&file),
        Err(_) => Ok(false),
    }
}

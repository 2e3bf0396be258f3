//! Why a page file isn't read, in a sentence on standard error.

use exh_load::open_form;
use exh_map::{Reason, StoreError, unread_at, unread_file};
use exh_text::{Escaped, ReasonReader};
use std::cell::Cell;
use std::fs::File;
use std::io::Seek;

/// Says of the file of a path why it isn't read: that it isn't there, or is no page file; else this cause.
pub fn tell_fault(rt: &HostRuntime, path: &str, cause: StoreError) {
    let cause = unread_at(rt, path, cause);
    let path = Escaped(path);
    let _ = eprintln!(rt; "exhash: {path}: {cause}");
}

/// Says why the file of a path isn't opened, where there is a reason.
pub(crate) fn tell_unopened(rt: &HostRuntime, path: &str, reason: &Reason) {
    if let Some(error) = reason.get() {
        tell_fault(rt, path, StoreError::from(error));
    }
}

/// Says why an open file of a path is refused, for which it is read once more. Nothing is said of what can't be read twice, as
/// a pipe, but for this reason why it wasn't read.
pub(crate) fn tell_refused(rt: &HostRuntime, path: &str, file: &File, reason: &Reason) {
    let mut again = file;
    if reason.get().is_some() || again.rewind().is_err() {
        return tell_unopened(rt, path, reason);
    }
    let reason = Cell::new(None);
    if let Err(fault) = open_form(rt.alloc(), &mut ReasonReader::new(again, &reason)) {
        let cause = unread_file(file, StoreError::of_opening(fault, reason.get()));
        let path = Escaped(path);
        let _ = eprintln!(rt; "exhash: {path}: {cause}");
    }
}

/// Says why the bytes of a page file in memory are refused.
pub(crate) fn tell_refused_bytes(rt: &HostRuntime, path: &str, bytes: &[u8]) {
    let mut reader = bytes;
    if let Err(fault) = open_form(rt.alloc(), &mut reader) {
        tell_fault(rt, path, StoreError::of_opening(fault, None));
    }
}

//! What standard error says where a command is refused, or a key is absent, and the statuses of refusals.
ghost use Rattle.std.specs.Prelude.{◌≡◌};
ghost use Rattle.exh_run.specs.Ends.{change_status, made_status, reading_status};

use crate::Run;
use exh_job::Status;
use exh_page::Key;
use exh_text::{Escaped, push_value};
use exhash::{StoreError, unread_at};
use std::alloc::AllocError;
use std::fs;
use std::io::ErrorKind;

/// Says of the file of a path why a command is refused, in a sentence.
pub fn tell_refused(rt: &impl Eprint, path: &str, fault: &StoreError) {
    let path = Escaped(path);
    let _ = eprintln!(rt; "exhash: {path}: {fault}");
}

/// Says why the file isn't read, and gives the status with which the program ends.
pub fn refuse_reading(run: &Run<'_>, fault: StoreError) -> Status
    ensures { result ≡ reading_status fault }
{
    let status = reading_status(&fault);
    let fault = unread_at(run.rt, run.path, fault);
    tell_refused(run.rt, run.path, &fault);
    status
}

/// Says why the file isn't changed, and gives the status with which the program ends.
pub fn refuse_change(run: &Run<'_>, fault: StoreError) -> Status
    ensures { result ≡ change_status fault }
{
    let status = change_status(&fault);
    let fault = unread_at(run.rt, run.path, vanished(run, fault));
    tell_refused(run.rt, run.path, &fault);
    status
}

// The cause for which a file isn't changed that was there: that it is no longer, where the system finds none.
fn vanished(run: &Run<'_>, fault: StoreError) -> StoreError {
    match fault {
        StoreError::Io(error) if error.kind() == ErrorKind::NotFound => StoreError::Vanished,
        StoreError::Changed if is_nothing_at(run.rt, run.path) => StoreError::Vanished,
        fault => fault,
    }
}

/// Whether nothing is at a path, as the system says it.
pub fn is_nothing_at(rt: &HostRuntime, path: &str) -> bool {
    match fs::symlink_metadata(rt, path) {
        Ok(_) => false,
        Err(error) => error.kind() == ErrorKind::NotFound,
    }
}

// The status where a file isn't read.
fn reading_status(fault: &StoreError) -> Status
    ensures { result ≡ reading_status fault.now }
{
    match fault {
        StoreError::Busy | StoreError::Changed => Status::Busy,
        _ => Status::Refused,
    }
}

// The status where a file isn't changed.
fn change_status(fault: &StoreError) -> Status
    ensures { result ≡ change_status fault.now }
{
    match fault {
        StoreError::Busy => Status::Busy,
        _ => Status::Refused,
    }
}

/// The status after a file was made, or wasn't.
pub fn made_status(made: &Result<(), StoreError>) -> Status
    ensures { result ≡ made_status made.now }
{
    match made {
        Ok(()) | Err(StoreError::Unsynchronized(_)) => Status::Done,
        Err(StoreError::Exists) => Status::Missing,
        Err(StoreError::Busy) => Status::Busy,
        Err(_) => Status::Refused,
    }
}

/// Says that a key isn't there, as a word of a text of pairs has it.
pub fn tell_absent(rt: &(impl Eprint + AllocGlobal), path: &str, key: &Key) {
    let path = Escaped(path);
    match key_word(rt, key) {
        Ok(word) => {
            let _ = eprintln!(rt; "exhash: {path}: no key {word}");
        }
        Err(_) => {
            let _ = eprintln!(rt; "exhash: {path}: no such key");
        }
    }
}

/// Says that a key finds no room, as a word of a text of pairs has it.
pub fn tell_full(rt: &(impl Eprint + AllocGlobal), path: &str, key: &Key) {
    let path = Escaped(path);
    match key_word(rt, key) {
        Ok(word) => {
            let _ = eprintln!(rt; "exhash: {path}: no room for key {word}");
        }
        Err(_) => {
            let _ = eprintln!(rt; "exhash: {path}: no room for a key");
        }
    }
}

/// The word of a key in a text of pairs. An `AllocError` where memory is refused.
pub fn key_word(rt: &impl AllocGlobal, key: &Key) -> Result<String, AllocError> {
    let mut word = Vec::new(rt.alloc());
    push_value(&mut word, key.as_bytes())?;
    match String::from_utf8(word) {
        Ok(word) => Ok(word),
        Err(_) => Ok(String::new(rt.alloc())),
    }
}

/// Says that an answer isn't printed, and why, and whether a change is saved all the same, and gives the status with which the
/// program ends.
pub fn refuse_unprinted(run: &Run<'_>, is_saved: bool) -> Status
    ensures { result ≡ Status.Refused }
{
    let path = Escaped(run.path);
    let saved = if is_saved {
        "the change is saved, but "
    } else {
        ""
    };
    match run.reason.get() {
        Some(error) => {
            let _ = eprintln!(run.rt;
                "exhash: {path}: {saved}its answer isn't printed: {error} (refused 42)"
            );
        }
        None => {
            let _ = eprintln!(run.rt;
                "exhash: {path}: {saved}its answer isn't printed: out of memory (refused 10)"
            );
        }
    }
    Status::Refused
}

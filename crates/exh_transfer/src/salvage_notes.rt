//! What standard error says of a salvage.

use exh_run::{PageLog, Run, key_word};
use exh_salvage::{Salvage, SavedPair, repeats_in};
use exh_text::Escaped;
use std::alloc::AllocError;
use std::{fs, io};

/// Says which keys are met again, how many blocks were read and are live pages, and which are lost. An `AllocError` where
/// memory is refused.
pub(crate) fn tell_salvage(run: &Run<'_>, salvage: &Salvage, count: u32) -> Result<(), AllocError> {
    tell_repeats(run, &salvage.pairs)?;
    let path = Escaped(run.path);
    if salvage.lost > 0 {
        tell_lost(run, salvage)?;
    }
    let live = salvage.live;
    let lost = salvage.lost;
    let _ = eprintln!(run.rt;
        "exhash: {path}: {count} blocks, {live} live pages, {lost} lost blocks"
    );
    Ok(())
}

/// Says of a log beside the file that it is read too; and which is the first of its own blocks, where those of the file come
/// before.
pub(crate) fn tell_log_read(run: &Run<'_>, first: Option<u32>) {
    if let Ok(Some(log)) = log_of(run) {
        let path = Escaped(run.path);
        let log = Escaped(log.path());
        let _ = eprintln!(run.rt;
            "exhash: {path}: a log stands beside it, {log}, and is read with it"
        );
    }
    if let Some(first) = first {
        let path = Escaped(run.path);
        let _ = eprintln!(run.rt;
            "exhash: {path}: blocks from {first} on are those that the log changes"
        );
    }
}

/// Says of a log beside the file that it isn't read.
pub(crate) fn tell_log_unread(run: &Run<'_>) {
    if let Ok(Some(log)) = log_of(run) {
        let path = Escaped(run.path);
        let log = Escaped(log.path());
        let _ = eprintln!(run.rt;
            "exhash: {path}: a log stands beside it, {log}, and is not read: `exhash backup` makes a copy that has what a whole one has"
        );
    }
}

// The log beside the file, if one is there that may have a change.
fn log_of(run: &Run<'_>) -> io::Result<Option<PageLog>> {
    let whole = fs::canonicalize(run.rt, run.path)?;
    let log = PageLog::of(run.rt, whole.as_str())?;
    if log.has_change(run.rt)? {
        Ok(Some(log))
    } else {
        Ok(None)
    }
}

// Names each key that is met again, and both blocks.
fn tell_repeats(run: &Run<'_>, pairs: &[SavedPair]) -> Result<(), AllocError> {
    let path = Escaped(run.path);
    for repeat in repeats_in(run.rt.alloc(), pairs)? {
        let (Some(earlier), Some(later)) = (pairs.get(repeat.earlier), pairs.get(repeat.index))
        else {
            continue;
        };
        let word = key_word(run.rt, &later.key)?;
        let before = earlier.place;
        let place = later.place;
        let _ = eprintln!(run.rt;
            "exhash: {path}: key {word} is in block {before} and in block {place}: both pairs are printed, that of block {place} behind the other"
        );
    }
    Ok(())
}

// Names the first lost blocks.
fn tell_lost(run: &Run<'_>, salvage: &Salvage) -> Result<(), AllocError> {
    let path = Escaped(run.path);
    for place in salvage.first.as_slice() {
        let _ = eprintln!(run.rt; "exhash: {path}: block {place} is lost");
    }
    let shown = salvage.first.len() as u32;
    if salvage.lost > shown {
        let further = salvage.lost - shown;
        let _ = eprintln!(run.rt; "exhash: {path}: further lost blocks: {further}");
    }
    Ok(())
}

//! What a change left in the log whose commit didn't get there.

use crate::{Refused, recover_at};
use exh_paged::{ChangeFault, CommitFault};
use std::fs::File;

/// Cuts and removes the log of the locked file of a path without links, behind a change of which nothing was committed, so that
/// a full disk gets its room back. The answer is why the change wasn't made. Where the log can't be cut, it stays, and has no
/// change.
pub(crate) fn cut_unsaved(rt: &HostRuntime, whole: &str, file: &File, refused: Refused) -> Refused {
    if matches!(
        &refused,
        Refused::Change(ChangeFault::Commit(CommitFault::NotSaved(_)))
    ) {
        let _ = recover_at(rt, whole, file);
    }
    refused
}

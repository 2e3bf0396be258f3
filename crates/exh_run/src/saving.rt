//! The end of a change in a store.
ghost use Rattle.std.specs.Prelude.{◌≡◌};
ghost use Rattle.exh_run.specs.Saves.{IsSaved, saved_by};

use crate::Run;
use crate::refusal::tell_refused;
use exhash::{Store, StoreError};

/// Commits a store and lets its file go. Where only the folder isn't synchronized the change is saved, and standard error says
/// so.
pub fn save(run: &Run<'_>, store: Store<'_>) -> Result<(), StoreError>
    ensures { IsSaved store.entry.file result }
{
    let closed = store.close();
    end_save(run, closed)
}

// Ends a save by what the close of the store answers.
fn end_save(run: &Run<'_>, closed: Result<(), StoreError>) -> Result<(), StoreError>
    ensures { result ≡ saved_by closed }
{
    match closed {
        Err(fault @ StoreError::Unsynchronized(_)) => {
            tell_refused(run.rt, run.path, &fault);
            Ok(())
        }
        closed => closed,
    }
}

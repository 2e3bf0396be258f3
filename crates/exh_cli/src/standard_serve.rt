//! The run of a script over the program's standard streams.
ghost use Rattle.exh_everyday.specs.JobPath.{SavesAt};

use crate::serve_script::{ending_of, serve_script};
use exh_everyday::{Ending, FileWards, HeldFile, INPUT, JobPath, opened_at, tell_reason, warn};
use exh_text::{Expect, Notes, ReasonReader};
use std::cell::Cell;
use std::io;

/// Answers the script on standard input, over the page file of a path where one is to be opened, which is held
/// open. Whether its wards can be saved at their path is seen before.
pub(crate) fn serve<'w>(
    rt: &HostRuntime,
    open: Option<&'w str>,
    save: Option<JobPath<'w>>,
) -> (Ending<'w>, Option<HeldFile<'w>>)
    ensures { SavesAt save.entry result.0 }
{
    match opened_at(rt, open) {
        Ok((from, held)) => {
            warn(rt, save.map(|it| it.path()), held.as_ref());
            (serve_over(rt, from, save), held)
        }
        Err(status) => (Ending::Over(status), None),
    }
}

// Answers the script.
fn serve_over<'w>(
    rt: &HostRuntime,
    from: Option<FileWards>,
    save: Option<JobPath<'w>>,
) -> Ending<'w>
    ensures { SavesAt save.entry result }
{
    let reason = Cell::new(None);
    let mut reader = ReasonReader::new(rt.reader(), &reason);
    let mut notes = Notes::new(rt.stderr(), Expect::Keyword);
    let outcome = serve_script(
        rt.alloc(),
        from,
        &mut reader,
        &mut io::writer(rt),
        &mut notes,
    );
    notes.end();
    tell_reason(rt, INPUT, &reason);
    ending_of(outcome, save)
}

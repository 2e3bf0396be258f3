//! The run of an import.
ghost use Rattle.std.specs.Prelude.{◌≡◌, [], IsFalse, OnOk};
ghost use Rattle.exh_import.specs.LineReader.{EndsRight, waiting};
ghost use Rattle.exh_stream.specs.Output.{SameWriter, held, pending, writer_failed};
ghost use Rattle.exh_transfer.specs.Imports.{ImportEnds};

use crate::import_ending::end_import;
use crate::import_refusal::ImportRefusal;
use crate::outcome::Outcome;
use crate::pair_store::PairStore;
use crate::rejected::Rejected;
use crate::rejects_file::RejectsFile;
use exh_import::{Begun, Heading, ImportFault, ImportOptions, Imported, LineReader, take_heading};
use exh_pair_text::{Columns, FieldNames, Layout};
use exh_request::{GivenTexts, ImportWords};
use exh_run::{Reason, Run, Settings, Status, Store, StoreError, is_for_log, make, tell_refused};
use exh_stream::Output;
use exh_text::{Escaped, ReasonReader};
use std::cell::Cell;
use std::io::{Read, Write};

// Behind how many pairs the first commit comes; behind each other one at least as many come as it has in the file.
const BATCH: u64 = 16_384;

/// Puts the pairs of standard input into the page file, line by line. Lines that aren't put in are named on standard error, or
/// in a new file at the path for them.
pub fn import<W: Write>(
    run: &Run<'_>,
    words: &ImportWords,
    texts: &GivenTexts<'_>,
    output: &mut Output<'_, W>,
) -> Status
    requires open { IsFalse (writer_failed output.old) }
    requires empty { pending output.old ≡ [] }
    ensures same_writer { SameWriter output.old output.new }
    ensures ends { ImportEnds (held W.contents output.old) (held W.contents output.new) (writer_failed output.new) result }
{
    let reason = Cell::new(None);
    let outcome = outcome_of(run, words, texts, &reason);
    end_import(run, texts, outcome, &reason, output)
}

// What an import comes to.
fn outcome_of(
    run: &Run<'_>,
    words: &ImportWords,
    texts: &GivenTexts<'_>,
    reason: &Reason,
) -> Outcome {
    let (store, is_made) = match store_at(run, words.create) {
        Ok(opened) => opened,
        Err(fault) => return refused(ImportRefusal::Unopened(fault), false),
    };
    let file = match rejects_at(run, texts.rejects) {
        Ok(file) => file,
        Err(fault) => return refused(ImportRefusal::Unmade(fault), is_made),
    };
    let mut rejected = Rejected {
        run,
        file,
        named: 0,
        has_failed: false,
    };
    let imported = imported(run, words, texts, store, &mut rejected, reason);
    rejected.tell_named();
    Outcome {
        imported,
        is_made,
        is_unwritten: rejected.has_failed,
    }
}

// An import that didn't begin.
fn refused(refusal: ImportRefusal, is_made: bool) -> Outcome {
    Outcome {
        imported: Err(refusal),
        is_made,
        is_unwritten: false,
    }
}

// What the library makes of standard input.
fn imported(
    run: &Run<'_>,
    words: &ImportWords,
    texts: &GivenTexts<'_>,
    store: Store<'_>,
    rejected: &mut Rejected<'_, '_, '_>,
    reason: &Reason,
) -> Result<Imported, ImportRefusal> {
    let mut pairs = PairStore::new(run, store);
    let mut reader = ReasonReader::new(run.rt.reader(), reason);
    let mut lines = LineReader::new(run.rt.alloc(), &mut reader);
    let heading = match heading_of(run, words, texts, &mut lines) {
        Ok(heading) => heading,
        Err(fault) => return Err(refusal_of(fault, pairs)),
    };
    let options = options_of(run, words, texts, heading);
    match exh_import::import(run.rt.alloc(), &mut lines, &mut pairs, &options, rejected) {
        Ok(done) => Ok(done),
        Err(fault) => Err(refusal_of(fault, pairs)),
    }
}

// What stands before the pairs of standard input: a header, if one is to stand there.
fn heading_of<R: Read>(
    run: &Run<'_>,
    words: &ImportWords,
    texts: &GivenTexts<'_>,
    lines: &mut LineReader<'_, R>,
) -> Result<Heading, ImportFault>
    requires ends { EndsRight R.remaining lines.old }
    requires fresh { waiting lines.old ≡ [] }
    ensures ends { OnOk result (EndsRight R.remaining lines.new) }
{
    if !words.has_header {
        return Ok(Heading {
            begun: Begun::NOTHING,
            columns: Columns::two(),
        });
    }
    lines.pass_mark()?;
    match (texts.key, texts.value) {
        (Some(key), Some(value)) => {
            take_heading(run.rt.alloc(), lines, Some(&FieldNames { key, value }))
        }
        _ => take_heading(run.rt.alloc(), lines, None),
    }
}

// How the pairs behind a heading are imported.
fn options_of<'n>(
    run: &Run<'_>,
    words: &ImportWords,
    texts: &GivenTexts<'n>,
    heading: Heading,
) -> ImportOptions<'n> {
    let usual = Layout::usual().names;
    let names = FieldNames {
        key: texts.key.unwrap_or(usual.key),
        value: texts.value.unwrap_or(usual.value),
    };
    ImportOptions {
        format: words.format,
        is_hex: run.form.is_hex,
        layout: Layout {
            columns: heading.columns,
            names,
        },
        begun: heading.begun,
        is_atomic: words.is_atomic,
        batch: BATCH,
    }
}

// Why an import ended: what the store said, where it refused a call.
fn refusal_of(fault: ImportFault, store: PairStore<'_, '_>) -> ImportRefusal {
    let pairs = store.committed;
    match (fault, store.refusal()) {
        (ImportFault::Refused, Some(fault)) => ImportRefusal::Store { fault, pairs },
        (fault, _) => ImportRefusal::Text { fault, pairs },
    }
}

// The store of the file, and whether it was made, as it is where nothing is there, if settings are given.
fn store_at<'r>(run: &Run<'r>, create: Option<Settings>) -> Result<(Store<'r>, bool), StoreError> {
    match (Store::open_within(run.rt, run.path, run.seconds), create) {
        (Err(StoreError::Absent), Some(settings)) => {
            let is_made = make_new(run, settings)?;
            let store = Store::open_within(run.rt, run.path, run.seconds)?;
            Ok((store, is_made))
        }
        (opened, _) => Ok((opened?, false)),
    }
}

// Makes the file, and says whether it did: another process may have made it just now.
fn make_new(run: &Run<'_>, settings: Settings) -> Result<bool, StoreError> {
    match make(run.rt, run.path, settings) {
        Err(StoreError::Exists) => Ok(false),
        Err(fault @ StoreError::Unsynchronized(_)) => {
            tell_refused(run.rt, run.path, &fault);
            Ok(true)
        }
        Ok(()) => Ok(true),
        Err(fault) => Err(fault),
    }
}

// The new file for lines that aren't put in, if there is to be one. Where it isn't made, standard error says so.
fn rejects_at<'w>(
    run: &Run<'_>,
    path: Option<&'w str>,
) -> Result<Option<RejectsFile<'w>>, StoreError> {
    let Some(path) = path else {
        return Ok(None);
    };
    if is_for_log(run, path) {
        let name = Escaped(path);
        let _ = eprintln!(run.rt;
            "exhash: {name}: the page file's log has this name: name another file"
        );
        return Err(StoreError::Exists);
    }
    match RejectsFile::made(run.rt, path) {
        Ok(file) => Ok(Some(file)),
        Err(fault) => {
            tell_refused(run.rt, path, &fault);
            Err(fault)
        }
    }
}

//! How the run of an import ends: what is printed and said, and the status.
ghost use Rattle.std.specs.Prelude.{◌≡◌, [], IfOk, IsFalse};
ghost use Rattle.exh_stream.specs.Output.{SameWriter, held, pending, writer_failed};
ghost use Rattle.exh_run.specs.Ends.{Ends, change_status};
ghost use Rattle.exh_transfer.specs.Imports.{done_ended, import_ended, import_line, import_status, lines_of, status_told, unimported_status};

use crate::import_refusal::ImportRefusal;
use crate::outcome::Outcome;
use exh_import::{ImportFault, Imported};
use exh_pair_text::{Field, WrongHeader};
use exh_request::GivenTexts;
use exh_run::{INPUT, Reason, Run, Status, StoreError, made_status, refuse_change, tell_text};
use exh_stream::Output;
use exh_text::{Escaped, push_number, push_text};
use std::alloc::{AllocError, Global};
use std::io::Write;

/// Ends an import that was asked for so by what it came to, and why standard input wasn't read, if it wasn't.
pub(crate) fn end_import<W: Write>(
    run: &Run<'_>,
    texts: &GivenTexts<'_>,
    outcome: Outcome,
    reason: &Reason,
    output: &mut Output<'_, W>,
) -> Status
    requires open { IsFalse (writer_failed output.old) }
    requires empty { pending output.old ≡ [] }
    ensures same_writer { SameWriter output.old output.new }
    ensures ends { Ends (import_ended outcome) (held W.contents output.old) (held W.contents output.new) (writer_failed output.new) result }
{
    let Outcome {
        imported,
        is_made,
        is_unwritten,
    } = outcome;
    match imported {
        Ok(done) => end_done(run, &done, is_made, is_unwritten, output),
        Err(refusal) => refuse_import(run, texts, refusal, is_made, reason),
    }
}

// The same of an import that read all lines.
fn end_done<W: Write>(
    run: &Run<'_>,
    done: &Imported,
    is_made: bool,
    is_unwritten: bool,
    output: &mut Output<'_, W>,
) -> Status
    requires open { IsFalse (writer_failed output.old) }
    requires empty { pending output.old ≡ [] }
    ensures same_writer { SameWriter output.old output.new }
    ensures ends { Ends (done_ended is_unwritten done.now) (held W.contents output.old) (held W.contents output.new) (writer_failed output.new) result }
{
    if done.is_cut_off {
        tell_cut_off(run, done, is_made);
        return Status::Refused;
    }
    if !done.is_committed {
        let path = Escaped(run.path);
        let _ = eprintln!(run.rt; "exhash: {path}: nothing is put in, since not all lines can be");
        tell_made(run, is_made);
        return status_told(is_unwritten, Status::Missing);
    }
    let line = done_line(run.rt.alloc(), done);
    let status = status_told(is_unwritten, import_status(done));
    tell_text(run, line, status, true, output)
}

// A status, or that of a refusal where lines couldn't be named in their file.
fn status_told(is_unwritten: bool, status: Status) -> Status
    ensures { result ≡ status_told is_unwritten status }
{
    if is_unwritten {
        Status::Refused
    } else {
        status
    }
}

// Says that the text was cut off, and how many of its pairs are in the file.
fn tell_cut_off(run: &Run<'_>, done: &Imported, is_made: bool) {
    let path = Escaped(run.path);
    let pairs = if done.is_committed { done.pairs } else { 0 };
    let _ = eprintln!(run.rt;
        "exhash: {INPUT}: the text is cut off: its last line is not the one that `exhash export` ends with"
    );
    let _ = eprintln!(run.rt; "exhash: {path}: {pairs} pairs of it are put in");
    tell_made(run, is_made && pairs == 0);
}

// Says that a file was made that has nothing, where one was.
fn tell_made(run: &Run<'_>, is_made: bool) {
    if is_made {
        let path = Escaped(run.path);
        let _ = eprintln!(run.rt; "exhash: {path}: the file is made, and has no pairs");
    }
}

// The status of an import whose pairs are in the file.
fn import_status(done: &Imported) -> Status
    ensures { result ≡ import_status done.now }
{
    if done.rejected == 0 && done.full == 0 {
        Status::Done
    } else {
        Status::Partly
    }
}

// The line of how many pairs are in the file.
fn done_line(alloc: Global, done: &Imported) -> Result<Vec<u8>, AllocError>
    ensures { IfOk result (λ line. line.items ≡ import_line done.now) }
{
    let mut line = Vec::new(alloc);
    push_text(&mut line, "imported ")?;
    push_number(&mut line, done.pairs)?;
    push_text(&mut line, " of ")?;
    push_number(&mut line, lines_of(done))?;
    push_text(&mut line, "\n")?;
    Ok(line)
}

// How many lines stood for pairs.
fn lines_of(done: &Imported) -> u64
    ensures { result ≡ lines_of done.now }
{
    done.pairs
        .saturating_add(done.rejected)
        .saturating_add(done.full)
}

// Says why an import ended before its end, and gives the status with which the program ends.
fn refuse_import(
    run: &Run<'_>,
    texts: &GivenTexts<'_>,
    refusal: ImportRefusal,
    is_made: bool,
    reason: &Reason,
) -> Status
    ensures { result ≡ unimported_status refusal }
{
    match refusal {
        ImportRefusal::Unopened(fault) => refuse_change(run, fault),
        ImportRefusal::Unmade(fault) => {
            tell_made(run, is_made);
            made_status(&Err(fault))
        }
        ImportRefusal::Text { fault, pairs } => {
            tell_fault(run, texts, &fault, reason);
            tell_pairs(run, pairs, is_made);
            Status::Refused
        }
        ImportRefusal::Store { fault, pairs } => refuse_store(run, fault, pairs, is_made),
    }
}

// The same where the store refused a call.
fn refuse_store(run: &Run<'_>, fault: StoreError, pairs: u64, is_made: bool) -> Status
    ensures { result ≡ change_status fault }
{
    let is_sure = !matches!(fault, StoreError::Unsure(_));
    let status = refuse_change(run, fault);
    if is_sure {
        tell_pairs(run, pairs, is_made);
    } else {
        let path = Escaped(run.path);
        let _ = eprintln!(run.rt; "exhash: {path}: {pairs} pairs were put in before that change");
    }
    status
}

// Says how many pairs were committed, before what was said ended the import.
fn tell_pairs(run: &Run<'_>, pairs: u64, is_made: bool) {
    let path = Escaped(run.path);
    if pairs == 0 {
        let _ = eprintln!(run.rt; "exhash: {path}: nothing is put in");
        tell_made(run, is_made);
    } else {
        let _ = eprintln!(run.rt; "exhash: {path}: {pairs} pairs were put in until then");
    }
}

// Says why a text isn't imported to its end.
fn tell_fault(run: &Run<'_>, texts: &GivenTexts<'_>, fault: &ImportFault, reason: &Reason) {
    match fault {
        ImportFault::Memory => {
            let _ = eprintln!(run.rt; "exhash: {INPUT}: out of memory (refused 10)");
        }
        ImportFault::Read => tell_unread(run, reason),
        ImportFault::Header(wrong) => tell_header(run, texts, wrong),
        _ => {
            let _ = eprintln!(run.rt; "exhash: {INPUT}: {fault}");
        }
    }
}

// Says why a header gives no columns.
fn tell_header(run: &Run<'_>, texts: &GivenTexts<'_>, wrong: &WrongHeader) {
    let _ = match wrong {
        WrongHeader::NoColumn(field) => {
            let name = Escaped(name_of(texts, *field));
            eprintln!(run.rt; "exhash: {INPUT}: the header has no column `{name}`")
        }
        WrongHeader::TwoColumns(field) => {
            let name = Escaped(name_of(texts, *field));
            eprintln!(run.rt; "exhash: {INPUT}: the header has more than one column `{name}`")
        }
        WrongHeader::NotTwo { count } => eprintln!(run.rt;
            "exhash: {INPUT}: 2 columns are wanted without --key and --value, and the header has {count}"
        ),
        WrongHeader::NoRecord(wrong) => eprintln!(run.rt; "exhash: {INPUT}: the header: {wrong}"),
    };
}

// The name of a key's column, or of a value's.
fn name_of<'w>(texts: &GivenTexts<'w>, field: Field) -> &'w str {
    match field {
        Field::Key => texts.key.unwrap_or_default(),
        Field::Value => texts.value.unwrap_or_default(),
    }
}

// Says why standard input isn't read.
fn tell_unread(run: &Run<'_>, reason: &Reason) {
    match reason.get() {
        Some(error) => {
            let _ = eprintln!(run.rt; "exhash: {INPUT}: {error} (refused 41)");
        }
        None => {
            let _ = eprintln!(run.rt; "exhash: {INPUT}: it can't be read (refused 41)");
        }
    }
}

ghost use Rattle.std.specs.Prelude.{◌≡◌, ◌↔◌, ◌∷◌, [], Err, IfOk, IsErrOf, IsFalse, IsTrue};
ghost use Rattle.std.specs.Io.KnownBytes.{Appends};
ghost use Rattle.exh_format.specs.FileParts.{file_of};
ghost use Rattle.exh_format.specs.PageFile.{IsKnownFile, PageFile};
ghost use Rattle.exh_stream.specs.Output.{AppendsBeginning, SameWriter, Takes, TakesBeginning, held, pending, writer_failed};
ghost use Rattle.exh_report.specs.Check.{check_lines};
ghost use Rattle.exh_report.specs.Dump.{dump_lines};
ghost use Rattle.exh_report.specs.Finding.{IsVerdictOf, refusal_words, told_lines};
ghost use Rattle.exh_report.specs.ReportLines.{Lines, TakesLines};
ghost use Rattle.exh_report.specs.PairsText.{pairs_lines};
ghost use Rattle.exh_report.specs.Report.{Reports, Tells, topic_lines};

use crate::check::check_parts;
use crate::dump::dump_parts;
use crate::pairs::pairs_parts;
use crate::refusal_line::push_refusal;
use crate::{OtherSettings, ReportFault, Verdict};
use exh_format::{FileParts, LegalFileFault};
use exh_page::Page;
use exh_stream::Output;
use exh_versions::{legal_bytes_are_files, read_any_file};
use std::alloc::Global;
use std::io::{Read, Write};

/// What is told of a legal file.
#[derive(Clone, Copy)]
enum Topic {
    /// How much it has.
    Size,
    /// What it has.
    Content,
    /// Its pairs, with these in place of its settings.
    Pairs(OtherSettings),
}

/// Says of all bytes that a reader has left whether they are a legal page file: how much that has, or the refusal. A
/// reader that fails is refused too. The output holds nothing back, before and after, and its writer hasn't failed.
///
/// `Write`: the writer failed or took no bytes, and got a beginning of the text. `Memory`: a growth was refused, and
/// the writer got a beginning of its lines, each line whole.
pub fn check_onto<R: Read, W: Write>(
    alloc: Global,
    reader: &mut R,
    output: &mut Output<'_, W>,
) -> Result<Verdict, ReportFault>
    requires open { IsFalse (writer_failed output.old) }
    requires empty { pending output.old ≡ [] }
    ensures same_writer { SameWriter output.old output.new }
    ensures told { Reports check_lines (held W.contents output.old) (held W.contents output.new) (R.remaining reader.old) result }
    ensures failed { IsErrOf result ReportFault.Write ↔ IsTrue (writer_failed output.new) }
    ensures empty { IsFalse (writer_failed output.new) → pending output.new ≡ [] }
{
    report(alloc, Topic::Size, reader, output)
}

/// Tells what the legal page file has that all bytes are which a reader has left: its settings, the pages of each ward
/// with their pairs, and its table; or the refusal, as `check_onto` does.
///
/// `Write`: the writer failed or took no bytes, and got a beginning of the text. `Memory`: a growth was refused, and
/// the writer got a beginning of its lines, each line whole.
pub fn dump_onto<R: Read, W: Write>(
    alloc: Global,
    reader: &mut R,
    output: &mut Output<'_, W>,
) -> Result<Verdict, ReportFault>
    requires open { IsFalse (writer_failed output.old) }
    requires empty { pending output.old ≡ [] }
    ensures same_writer { SameWriter output.old output.new }
    ensures told { Reports dump_lines (held W.contents output.old) (held W.contents output.new) (R.remaining reader.old) result }
    ensures failed { IsErrOf result ReportFault.Write ↔ IsTrue (writer_failed output.new) }
    ensures empty { IsFalse (writer_failed output.new) → pending output.new ≡ [] }
{
    report(alloc, Topic::Content, reader, output)
}

/// Tells the pairs of the legal page file that all bytes are which a reader has left, as the text that a load takes:
/// its settings, or others in their place, and each record in the order of its pages; or the refusal, as `check_onto`
/// does.
///
/// `Write`: the writer failed or took no bytes, and got a beginning of the text. `Memory`: a growth was refused, and
/// the writer got a beginning of its lines, each line whole.
pub fn pairs_onto<R: Read, W: Write>(
    alloc: Global,
    other: &OtherSettings,
    reader: &mut R,
    output: &mut Output<'_, W>,
) -> Result<Verdict, ReportFault>
    requires open { IsFalse (writer_failed output.old) }
    requires empty { pending output.old ≡ [] }
    ensures same_writer { SameWriter output.old output.new }
    ensures told { Reports (pairs_lines other.now) (held W.contents output.old) (held W.contents output.new) (R.remaining reader.old) result }
    ensures failed { IsErrOf result ReportFault.Write ↔ IsTrue (writer_failed output.new) }
    ensures empty { IsFalse (writer_failed output.new) → pending output.new ≡ [] }
{
    report(alloc, Topic::Pairs(*other), reader, output)
}

// Tells of a reader's bytes. What waits is written after want of memory too.
fn report<R: Read, W: Write>(
    alloc: Global,
    topic: Topic,
    reader: &mut R,
    output: &mut Output<'_, W>,
) -> Result<Verdict, ReportFault>
    requires open { IsFalse (writer_failed output.old) }
    requires empty { pending output.old ≡ [] }
    ensures same_writer { SameWriter output.old output.new }
    ensures told { Reports (topic_lines topic) (held W.contents output.old) (held W.contents output.new) (R.remaining reader.old) result }
    ensures failed { IsErrOf result ReportFault.Write ↔ IsTrue (writer_failed output.new) }
    ensures empty { IsFalse (writer_failed output.new) → pending output.new ≡ [] }
{
    let told = tell(alloc, topic, reader, output);
    output.finish()?;
    told
}

// The same, as far as an output takes it.
fn tell<R: Read, W: Write>(
    alloc: Global,
    topic: Topic,
    reader: &mut R,
    output: &mut Output<'_, W>,
) -> Result<Verdict, ReportFault>
    requires { IsFalse (writer_failed output.old) }
    ensures same_writer { SameWriter output.old output.new }
    ensures told { Tells (Takes W.contents output.old output.new) (TakesBeginning W.contents output.old output.new) (topic_lines topic) (R.remaining reader.old) result }
    ensures failed { IsErrOf result ReportFault.Write ↔ IsTrue (writer_failed output.new) }
{
    legal_bytes_are_files();
    match read_any_file(alloc, reader) {
        Ok(found) => tell_parts(alloc, topic, output, &found.file.parts),
        Err(fault) => refuse(alloc, output, fault),
    }
}

// Tells of a legal file.
fn tell_parts<W: Write>(
    alloc: Global,
    topic: Topic,
    output: &mut Output<'_, W>,
    parts: &FileParts<Vec<Page>>,
) -> Result<Verdict, ReportFault>
    requires open { IsFalse (writer_failed output.old) }
    requires file { IsKnownFile (file_of parts.now) }
    ensures same_writer { SameWriter output.old output.new }
    ensures told { TakesLines W.contents output.old output.new (topic_lines topic (file_of parts.now)) result }
    ensures verdict { IfOk result (λ verdict. verdict ≡ Verdict.Legal) }
    ensures failed { IsErrOf result ReportFault.Write ↔ IsTrue (writer_failed output.new) }
{
    match topic {
        Topic::Size => check_parts(alloc, output, parts)?,
        Topic::Content => dump_parts(alloc, output, parts)?,
        Topic::Pairs(other) => pairs_parts(alloc, output, &other, parts)?,
    }
    Ok(Verdict::Legal)
}

// Tells of a refusal. Of want of memory nothing is told.
fn refuse<W: Write>(
    alloc: Global,
    output: &mut Output<'_, W>,
    fault: LegalFileFault,
) -> Result<Verdict, ReportFault>
    requires { IsFalse (writer_failed output.old) }
    ensures same_writer { SameWriter output.old output.new }
    ensures told { (lines : PageFile → Lines) → TakesLines W.contents output.old output.new (told_lines lines (Err fault)) result }
    ensures verdict { IfOk result (IsVerdictOf (Err fault)) }
    ensures failed { IsErrOf result ReportFault.Write ↔ IsTrue (writer_failed output.new) }
{
    match fault {
        LegalFileFault::Memory => Err(ReportFault::Memory),
        LegalFileFault::File(_) | LegalFileFault::Illegal(_) | LegalFileFault::Read =>
            print_refusal(alloc, output, fault),
    }
}

fn print_refusal<W: Write>(
    alloc: Global,
    output: &mut Output<'_, W>,
    fault: LegalFileFault,
) -> Result<Verdict, ReportFault>
    requires { IsFalse (writer_failed output.old) }
    ensures same_writer { SameWriter output.old output.new }
    ensures told { TakesLines W.contents output.old output.new (refusal_words fault ∷ []) result }
    ensures verdict { IfOk result (λ verdict. verdict ≡ Verdict.Refused) }
    ensures failed { IsErrOf result ReportFault.Write ↔ IsTrue (writer_failed output.new) }
{
    let mut text = Vec::new(alloc);
    push_refusal(&mut text, fault)?;
    output.push(&text)?;
    Ok(Verdict::Refused)
}

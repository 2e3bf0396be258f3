//! Prints what is in a page file, to the program's end, and answers its status.
ghost use Rattle.std.specs.Prelude.{◌≡◌, ◌↔◌, [], IfErr, IfOk, IsErrOf, IsFalse, IsTrue};
ghost use Rattle.exh_stream.specs.Output.{SameWriter, held, pending, writer_failed};
ghost use Rattle.exh_report.specs.Report.{Reports};
ghost use Rattle.exh_job.specs.OpenRun.{EndsUnopened};
ghost use Rattle.exh_job.specs.FileRun.{EndsTelling, FileRunPrints, lines_about};
ghost use Rattle.exh_job.specs.PairsAgain.{TellsAgain};

use crate::laws::pairs_load_again;
use crate::{Status, UNOPENED, print_line, print_out_of_memory};
use exh_report::{OtherSettings, ReportFault, Verdict, check_onto, dump_onto, pairs_onto};
use exh_stream::Output;
use std::alloc::Global;
use std::io;
use std::io::{Read, Write};

/// What a command prints of a legal page file.
#[derive(Clone, Copy)]
pub enum Topic {
    /// How much it has.
    Size,
    /// What it has.
    Content,
    /// Its pairs, with these in place of its settings.
    Pairs(OtherSettings),
}

/// Prints what is in a page file on an output that holds nothing back and whose writer hasn't failed, and answers the
/// status with which the program ends; `opened` is the result of opening the file. Where memory ran out the last line is
/// `refused 10`, on the same writer. After a fault of the writer nothing more is printed.
pub fn tell_file<F: Read + Drop, W: Write>(
    alloc: Global,
    topic: Topic,
    opened: io::Result<F>,
    output: &mut Output<'_, W>,
) -> Status
    requires open { IsFalse (writer_failed output.old) }
    requires empty { pending output.old ≡ [] }
    ensures same_writer { SameWriter output.old output.new }
    ensures read { IfOk opened (λ file.
        EndsTelling (held W.contents output.old) (held W.contents output.new) (writer_failed output.new) (lines_about topic) (F.remaining file) result) }
    ensures unopened { IfErr opened (λ fault.
        EndsUnopened (held W.contents output.old) (held W.contents output.new) (writer_failed output.new) result) }
    ensures again { TellsAgain topic }
{
    pairs_load_again();
    match opened {
        Ok(mut file) => Status::of_file(run(alloc, topic, &mut file, output)),
        Err(_) => {
            let _ = print_line(output, UNOPENED);
            Status::Refused
        }
    }
}

// The run over an opened file. Where the last line can't be written, that is a fault of the writer.
fn run<R: Read, W: Write>(
    alloc: Global,
    topic: Topic,
    reader: &mut R,
    output: &mut Output<'_, W>,
) -> Result<Verdict, ReportFault>
    requires open { IsFalse (writer_failed output.old) }
    requires empty { pending output.old ≡ [] }
    ensures same_writer { SameWriter output.old output.new }
    ensures printed { FileRunPrints (held W.contents output.old) (held W.contents output.new) (lines_about topic) (R.remaining reader.old) result }
    ensures failed { IsErrOf result ReportFault.Write ↔ IsTrue (writer_failed output.new) }
{
    match tell(alloc, topic, reader, output) {
        Err(ReportFault::Memory) => {
            print_out_of_memory(output)?;
            Err(ReportFault::Memory)
        }
        told => told,
    }
}

// The text alone.
fn tell<R: Read, W: Write>(
    alloc: Global,
    topic: Topic,
    reader: &mut R,
    output: &mut Output<'_, W>,
) -> Result<Verdict, ReportFault>
    requires open { IsFalse (writer_failed output.old) }
    requires empty { pending output.old ≡ [] }
    ensures same_writer { SameWriter output.old output.new }
    ensures told { Reports (lines_about topic) (held W.contents output.old) (held W.contents output.new) (R.remaining reader.old) result }
    ensures failed { IsErrOf result ReportFault.Write ↔ IsTrue (writer_failed output.new) }
    ensures empty { IsFalse (writer_failed output.new) → pending output.new ≡ [] }
{
    match topic {
        Topic::Size => check_onto(alloc, reader, output),
        Topic::Content => dump_onto(alloc, reader, output),
        Topic::Pairs(other) => pairs_onto(alloc, &other, reader, output),
    }
}

ghost use Rattle.exh_report.specs.Check.{check_lines};
ghost use Rattle.exh_report.specs.Dump.{dump_lines};
ghost use Rattle.exh_report.specs.Report.{Reports};

use crate::{ReportFault, Verdict, check_onto, dump_onto};
use exh_stream::Output;
use std::alloc::Global;
use std::io::{Read, Write};

/// Writes to a writer what `check_onto` says of all bytes that a reader has left: how much the legal page file has that
/// they are, or the refusal, which is 41 where the reader fails.
///
/// `Write`: the writer failed or took no bytes, and got a beginning of the text. `Memory`: a growth was refused, and
/// the writer got a beginning of its lines, each line whole.
pub fn check_text<R: Read, W: Write>(
    alloc: Global,
    reader: &mut R,
    writer: &mut W,
) -> Result<Verdict, ReportFault>
    ensures told { Reports check_lines (W.contents writer.old) (W.contents writer.new) (R.remaining reader.old) result }
{
    let mut output = Output::new(writer);
    check_onto(alloc, reader, &mut output)
}

/// Writes to a writer what `dump_onto` tells of all bytes that a reader has left: the settings, the pages with their
/// pairs and the table of the legal page file that they are, or the refusal, which is 41 where the reader fails.
///
/// `Write`: the writer failed or took no bytes, and got a beginning of the text. `Memory`: a growth was refused, and
/// the writer got a beginning of its lines, each line whole.
pub fn dump_text<R: Read, W: Write>(
    alloc: Global,
    reader: &mut R,
    writer: &mut W,
) -> Result<Verdict, ReportFault>
    ensures told { Reports dump_lines (W.contents writer.old) (W.contents writer.new) (R.remaining reader.old) result }
{
    let mut output = Output::new(writer);
    dump_onto(alloc, reader, &mut output)
}

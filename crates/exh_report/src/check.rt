ghost use Rattle.std.specs.Prelude.{◌≡◌, ◌↔◌, ◌++◌, IsErrOf, IsFalse, IsTrue, OnOk};
ghost use Rattle.exh_stream.specs.Output.{SameWriter, writer_failed};
ghost use Rattle.exh_format.specs.FileParts.{file_of};
ghost use Rattle.exh_format.specs.PageFile.{IsKnownFile};
ghost use Rattle.exh_report.specs.Check.{check_lines};
ghost use Rattle.exh_report.specs.ReportLines.{TakesLines, lines_text};

use crate::ReportFault;
use crate::counts::Counts;
use crate::file_lines::push_legal;
use exh_format::FileParts;
use exh_page::Page;
use exh_stream::Output;
use std::alloc::{AllocError, Global};
use std::io::Write;

/// Tells how much a legal file has, by one pass over its pages.
pub(crate) fn check_parts<W: Write>(
    alloc: Global,
    output: &mut Output<'_, W>,
    parts: &FileParts<Vec<Page>>,
) -> Result<(), ReportFault>
    requires open { IsFalse (writer_failed output.old) }
    requires file { IsKnownFile (file_of parts.now) }
    ensures same_writer { SameWriter output.old output.new }
    ensures told { TakesLines W.contents output.old output.new (check_lines (file_of parts.now)) result }
    ensures failed { IsErrOf result ReportFault.Write ↔ IsTrue (writer_failed output.new) }
{
    let mut text = Vec::new(alloc);
    push_check(&mut text, parts)?;
    output.push(&text)?;
    Ok(())
}

fn push_check(out: &mut Vec<u8>, parts: &FileParts<Vec<Page>>) -> Result<(), AllocError>
    requires { IsKnownFile (file_of parts.now) }
    ensures { OnOk result (out.new.items ≡ out.old.items ++ lines_text (check_lines (file_of parts.now))) }
{
    let counts = Counts::of_wards(&parts.wards);
    push_legal(out, parts.wards.len(), &counts, parts.entries.len())
}

ghost use Rattle.std.specs.Prelude.{◌≡◌, ◌↔◌, ◌∷◌, [], map, flat_map, IsErrOf, IsFalse, IsTrue};
ghost use Rattle.exh_stream.specs.Output.{SameWriter, writer_failed};
ghost use Rattle.exh_format.specs.FileParts.{file_of};
ghost use Rattle.exh_report.specs.ReportLines.{TakesLines};
ghost use Rattle.exh_report.specs.PairsText.{first_words, pairs_lines, records_lines};

use crate::file_lines::{push_first, push_records};
use crate::{OtherSettings, ReportFault};
use exh_format::FileParts;
use exh_keyer::AnyKeyer;
use exh_page::{FileSettings, Page};
use exh_stream::Output;
use std::alloc::Global;
use std::io::Write;

/// Tells the pairs of a file, behind its settings or others in their place.
pub(crate) fn pairs_parts<W: Write>(
    alloc: Global,
    output: &mut Output<'_, W>,
    other: &OtherSettings,
    parts: &FileParts<Vec<Page>>,
) -> Result<(), ReportFault>
    requires open { IsFalse (writer_failed output.old) }
    ensures same_writer { SameWriter output.old output.new }
    ensures told { TakesLines W.contents output.old output.new (pairs_lines other.now (file_of parts.now)) result }
    ensures failed { IsErrOf result ReportFault.Write ↔ IsTrue (writer_failed output.new) }
{
    let mut text = Vec::new(alloc);
    tell_first(output, &mut text, &other.over(&parts.header.settings))?;
    tell_wards(output, &mut text, &parts.wards)
}

// The records of wards, over a text that is given for their lines.
fn tell_wards<W: Write>(
    output: &mut Output<'_, W>,
    text: &mut Vec<u8>,
    wards: &[Vec<Page>],
) -> Result<(), ReportFault>
    requires { IsFalse (writer_failed output.old) }
    ensures same_writer { SameWriter output.old output.new }
    ensures told { TakesLines W.contents output.old output.new (flat_map (flat_map records_lines) (map (λ ward. ward.items) wards.now)) result }
    ensures failed { IsErrOf result ReportFault.Write ↔ IsTrue (writer_failed output.new) }
{
    for ward in wards {
        tell_pages(output, text, ward)?;
    }
    Ok(())
}

// The same of the pages of one ward.
fn tell_pages<W: Write>(
    output: &mut Output<'_, W>,
    text: &mut Vec<u8>,
    pages: &[Page],
) -> Result<(), ReportFault>
    requires { IsFalse (writer_failed output.old) }
    ensures same_writer { SameWriter output.old output.new }
    ensures told { TakesLines W.contents output.old output.new (flat_map records_lines pages.now) result }
    ensures failed { IsErrOf result ReportFault.Write ↔ IsTrue (writer_failed output.new) }
{
    for page in pages {
        tell_records(output, text, page)?;
    }
    Ok(())
}

// The first line.
fn tell_first<W: Write>(
    output: &mut Output<'_, W>,
    text: &mut Vec<u8>,
    settings: &FileSettings<AnyKeyer>,
) -> Result<(), ReportFault>
    requires { IsFalse (writer_failed output.old) }
    ensures same_writer { SameWriter output.old output.new }
    ensures told { TakesLines W.contents output.old output.new (first_words settings.now ∷ []) result }
    ensures failed { IsErrOf result ReportFault.Write ↔ IsTrue (writer_failed output.new) }
{
    text.clear();
    push_first(text, settings)?;
    output.push(text)?;
    Ok(())
}

// The records of a page, which go out together.
fn tell_records<W: Write>(
    output: &mut Output<'_, W>,
    text: &mut Vec<u8>,
    page: &Page,
) -> Result<(), ReportFault>
    requires { IsFalse (writer_failed output.old) }
    ensures same_writer { SameWriter output.old output.new }
    ensures told { TakesLines W.contents output.old output.new (records_lines page.now) result }
    ensures failed { IsErrOf result ReportFault.Write ↔ IsTrue (writer_failed output.new) }
{
    text.clear();
    push_records(text, page)?;
    output.push(text)?;
    Ok(())
}

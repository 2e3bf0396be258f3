ghost use Rattle.std.specs.Prelude.{◌≡◌, ◌↔◌, ◌∷◌, [], ◌++◌, ◌<◌, ◌≤◌, ◌^◌, length, map, flat_map, All, IsErrOf, IsFalse, IsTrue};
ghost use Rattle.std.specs.List.{enumerate_from};
ghost use Rattle.exh_stream.specs.Output.{SameWriter, writer_failed};
ghost use Rattle.exh_format.specs.FileParts.{file_of};
ghost use Rattle.exh_format.specs.PageFile.{IsKnownFile};
ghost use Rattle.exh_report.specs.Dump.{dump_lines, file_words, item_words, page_lines, ward_lines, ward_words};
ghost use Rattle.exh_report.specs.ReportLines.{TakesLines};

use crate::ReportFault;
use crate::file_lines::{push_file, push_page, push_ward};
use exh_format::{FileEntry, FileParts, Header};
use exh_page::Page;
use exh_prefix::PageNo;
use exh_stream::Output;
use exh_text::push_entry_line;
use std::alloc::Global;
use std::io::Write;

/// Tells what a file has.
pub(crate) fn dump_parts<W: Write>(
    alloc: Global,
    output: &mut Output<'_, W>,
    parts: &FileParts<Vec<Page>>,
) -> Result<(), ReportFault>
    requires open { IsFalse (writer_failed output.old) }
    requires file { IsKnownFile (file_of parts.now) }
    ensures same_writer { SameWriter output.old output.new }
    ensures told { TakesLines W.contents output.old output.new (dump_lines (file_of parts.now)) result }
    ensures failed { IsErrOf result ReportFault.Write ↔ IsTrue (writer_failed output.new) }
{
    dump_settings(alloc, output, &parts.header)?;
    dump_wards(alloc, output, &parts.wards)?;
    dump_entries(alloc, output, &parts.entries)
}

fn dump_settings<W: Write>(
    alloc: Global,
    output: &mut Output<'_, W>,
    header: &Header,
) -> Result<(), ReportFault>
    requires { IsFalse (writer_failed output.old) }
    ensures same_writer { SameWriter output.old output.new }
    ensures told { TakesLines W.contents output.old output.new (file_words header.now ∷ []) result }
    ensures failed { IsErrOf result ReportFault.Write ↔ IsTrue (writer_failed output.new) }
{
    let mut text = Vec::new(alloc);
    push_file(&mut text, header)?;
    output.push(&text)?;
    Ok(())
}

fn dump_wards<W: Write>(
    alloc: Global,
    output: &mut Output<'_, W>,
    wards: &[Vec<Page>],
) -> Result<(), ReportFault>
    requires open { IsFalse (writer_failed output.old) }
    requires wards { length wards.now ≤ 16 }
    requires pages { All (λ ward. length ward.items < 2 ^ 32) wards.now }
    ensures same_writer { SameWriter output.old output.new }
    ensures told { TakesLines W.contents output.old output.new
        (flat_map ward_lines (enumerate_from 0 (map (λ ward. ward.items) wards.now))) result }
    ensures failed { IsErrOf result ReportFault.Write ↔ IsTrue (writer_failed output.new) }
{
    for (number, ward) in wards.iter().enumerate() {
        dump_ward(alloc, output, number as u32, ward)?;
    }
    Ok(())
}

fn dump_ward<W: Write>(
    alloc: Global,
    output: &mut Output<'_, W>,
    ward: u32,
    pages: &[Page],
) -> Result<(), ReportFault>
    requires open { IsFalse (writer_failed output.old) }
    requires few { length pages.now < 2 ^ 32 }
    ensures same_writer { SameWriter output.old output.new }
    ensures told { TakesLines W.contents output.old output.new (ward_lines (ward, pages.now)) result }
    ensures failed { IsErrOf result ReportFault.Write ↔ IsTrue (writer_failed output.new) }
{
    let mut text = Vec::new(alloc);
    tell_ward(output, &mut text, ward, pages.len())?;
    for (number, page) in pages.iter().enumerate() {
        tell_page(output, &mut text, ward, number as u32, page)?;
    }
    Ok(())
}

fn dump_entries<W: Write>(
    alloc: Global,
    output: &mut Output<'_, W>,
    entries: &[FileEntry],
) -> Result<(), ReportFault>
    requires { IsFalse (writer_failed output.old) }
    ensures same_writer { SameWriter output.old output.new }
    ensures told { TakesLines W.contents output.old output.new (map item_words entries.now) result }
    ensures failed { IsErrOf result ReportFault.Write ↔ IsTrue (writer_failed output.new) }
{
    let mut text = Vec::new(alloc);
    for item in entries {
        tell_entry(output, &mut text, item)?;
    }
    Ok(())
}

// The line of a ward with so many pages, over a text that is given for it.
fn tell_ward<W: Write>(
    output: &mut Output<'_, W>,
    text: &mut Vec<u8>,
    ward: u32,
    count: usize,
) -> Result<(), ReportFault>
    requires { IsFalse (writer_failed output.old) }
    ensures same_writer { SameWriter output.old output.new }
    ensures told { TakesLines W.contents output.old output.new (ward_words ward count ∷ []) result }
    ensures failed { IsErrOf result ReportFault.Write ↔ IsTrue (writer_failed output.new) }
{
    text.clear();
    push_ward(text, ward, count)?;
    output.push(text)?;
    Ok(())
}

// The lines of a page, which go out together.
fn tell_page<W: Write>(
    output: &mut Output<'_, W>,
    text: &mut Vec<u8>,
    ward: u32,
    number: PageNo,
    page: &Page,
) -> Result<(), ReportFault>
    requires { IsFalse (writer_failed output.old) }
    ensures same_writer { SameWriter output.old output.new }
    ensures told { TakesLines W.contents output.old output.new (page_lines ward (number, page.now)) result }
    ensures failed { IsErrOf result ReportFault.Write ↔ IsTrue (writer_failed output.new) }
{
    text.clear();
    push_page(text, ward, number, page)?;
    output.push(text)?;
    Ok(())
}

// The line of an entry.
fn tell_entry<W: Write>(
    output: &mut Output<'_, W>,
    text: &mut Vec<u8>,
    item: &FileEntry,
) -> Result<(), ReportFault>
    requires { IsFalse (writer_failed output.old) }
    ensures same_writer { SameWriter output.old output.new }
    ensures told { TakesLines W.contents output.old output.new (item_words item.now ∷ []) result }
    ensures failed { IsErrOf result ReportFault.Write ↔ IsTrue (writer_failed output.new) }
{
    text.clear();
    push_entry_line(text, &item.prefix, &item.entry)?;
    output.push(text)?;
    Ok(())
}

ghost use Rattle.std.specs.Prelude.{◌≡◌, ◌++◌, [], ◌∷◌, OnOk, map, length};
ghost use Rattle.exh_page.specs.Page.{records_of};
ghost use Rattle.exh_text.specs.Contents.{on_line};
ghost use Rattle.exh_report.specs.Check.{legal_words, pages_text, totals_text};
ghost use Rattle.exh_report.specs.Dump.{file_words, page_lines, live_pages_told, pair_words, ward_words};
ghost use Rattle.exh_report.specs.ReportLines.{lines_text};
ghost use Rattle.exh_report.specs.PairsText.{first_words, record_words, records_lines};

use crate::counts::Counts;
use exh_format::Header;
use exh_keyer::AnyKeyer;
use exh_page::{FileSettings, Page, Record};
use exh_prefix::PageNo;
use exh_text::{push_forward_page, push_live_page, push_number, push_text, push_value};
use std::alloc::AllocError;

/// Adds the line that tells how much a legal file has.
pub(crate) fn push_legal(
    out: &mut Vec<u8>,
    wards: usize,
    counts: &Counts,
    entries: usize,
) -> Result<(), AllocError>
    ensures { OnOk result (out.new.items ≡ out.old.items
        ++ on_line (legal_words wards counts.now.pages counts.now.live counts.now.forward counts.now.records entries)) }
{
    push_text(out, "legal wards ")?;
    push_number(out, wards as u64)?;
    push_text(out, " pages ")?;
    push_pages(out, counts)?;
    push_totals(out, counts.records, entries)?;
    push_text(out, "\n")
}

fn push_pages(out: &mut Vec<u8>, counts: &Counts) -> Result<(), AllocError>
    ensures { OnOk result (out.new.items ≡ out.old.items ++ pages_text counts.now.pages counts.now.live counts.now.forward) }
{
    push_number(out, counts.pages)?;
    push_text(out, " live ")?;
    push_number(out, counts.live)?;
    push_text(out, " forward ")?;
    push_number(out, counts.forward)
}

fn push_totals(out: &mut Vec<u8>, records: u64, entries: usize) -> Result<(), AllocError>
    ensures { OnOk result (out.new.items ≡ out.old.items ++ totals_text records entries) }
{
    push_text(out, " records ")?;
    push_number(out, records)?;
    push_text(out, " entries ")?;
    push_number(out, entries as u64)
}

/// Adds the line of a file's settings.
pub(crate) fn push_file(out: &mut Vec<u8>, header: &Header) -> Result<(), AllocError>
    ensures { OnOk result (out.new.items ≡ out.old.items ++ on_line (file_words header.now)) }
{
    push_text(out, "file cap=")?;
    push_number(out, u64::from(header.settings.cap))?;
    push_text(out, " wards=")?;
    push_number(out, u64::from(header.settings.ward_bits))?;
    push_text(out, " keyer=")?;
    push_text(out, header.settings.keyer.word())?;
    push_text(out, "\n")
}

/// Adds the line of a ward with so many pages.
pub(crate) fn push_ward(out: &mut Vec<u8>, ward: u32, count: usize) -> Result<(), AllocError>
    ensures { OnOk result (out.new.items ≡ out.old.items ++ on_line (ward_words ward count)) }
{
    push_text(out, "ward ")?;
    push_number(out, u64::from(ward))?;
    push_text(out, " pages ")?;
    push_number(out, count as u64)?;
    push_text(out, "\n")
}

/// Adds the lines of a page: what it holds or where it sends callers on to, and its records.
pub(crate) fn push_page(
    out: &mut Vec<u8>,
    ward: u32,
    number: PageNo,
    page: &Page,
) -> Result<(), AllocError>
    ensures { OnOk result (out.new.items ≡ out.old.items ++ lines_text (page_lines ward (number, page.now))) }
{
    match page {
        Page::Live {
            prefix,
            right,
            records,
        } => {
            push_live_page(out, ward, number, prefix, *right, records.len())?;
            for item in records.iter() {
                push_pair(out, &item)?;
            }
            Ok(())
        }
        Page::Forward { target, .. } => push_forward_page(out, ward, number, *target),
    }
}

fn push_pair(out: &mut Vec<u8>, item: &Record) -> Result<(), AllocError>
    ensures { OnOk result (out.new.items ≡ out.old.items ++ on_line (pair_words item.now)) }
{
    push_text(out, "pair ")?;
    push_record(out, item)
}

// A record as a line of its key and its value.
fn push_record(out: &mut Vec<u8>, item: &Record) -> Result<(), AllocError>
    ensures { OnOk result (out.new.items ≡ out.old.items ++ on_line (record_words item.now)) }
{
    push_value(out, item.key.as_bytes())?;
    push_text(out, " ")?;
    push_value(out, item.value.as_bytes())?;
    push_text(out, "\n")
}

/// Adds the records of a page, each as a line. A forwarding page has none.
pub(crate) fn push_records(out: &mut Vec<u8>, page: &Page) -> Result<(), AllocError>
    ensures { OnOk result (out.new.items ≡ out.old.items ++ lines_text (records_lines page.now)) }
{
    match page {
        Page::Live { records, .. } => {
            for item in records.iter() {
                push_record(out, &item)?;
            }
            Ok(())
        }
        Page::Forward { .. } => Ok(()),
    }
}

/// Adds the first line of a text of pairs, for one copy of the directory.
pub(crate) fn push_first(
    out: &mut Vec<u8>,
    settings: &FileSettings<AnyKeyer>,
) -> Result<(), AllocError>
    ensures { OnOk result (out.new.items ≡ out.old.items ++ on_line (first_words settings.now)) }
{
    push_text(out, "file cap=")?;
    push_number(out, u64::from(settings.cap))?;
    push_text(out, " wards=")?;
    push_number(out, u64::from(settings.ward_bits))?;
    push_text(out, " copies=1 keyer=")?;
    push_text(out, settings.keyer.word())?;
    push_text(out, "\n")
}

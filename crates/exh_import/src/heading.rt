//! What stands before the pairs of a text of comma-separated fields: its header, behind an opening where there is one.
ghost use Rattle.std.specs.Prelude.{◌≡◌, List, ℕ, IfErr, IfOk, OnOk};
ghost use Rattle.exh_stream.specs.Source.{SameReader};
ghost use Rattle.exh_pair_text.specs.Header.{names_of};
ghost use Rattle.exh_import.specs.Header.{Heads, IsBehind, IsBehindCause, IsHeadCause, IsHeaded, IsHeadingCause, IsLineRead, IsLongCause, IsOpening, IsOpeningCause, StandBefore, bare};
ghost use Rattle.exh_import.specs.LineReader.{EndsRight, text_left};

use crate::line_reader::LineReader;
use crate::taking::first_opening;
use crate::{Begun, ImportFault};
use exh_pair_text::{Columns, FieldNames, Layout, PairFormat, columns_of, line_of};
use std::alloc::Global;
use std::io::Read;

const FORMAT: PairFormat = PairFormat::Csv;

/// What was taken before the pairs of a text, and the columns of its records.
#[derive(Clone, Copy, Debug, PartialEq, Eq)]
pub struct Heading {
    pub begun: Begun,
    pub columns: Columns,
}

// Before a text in which nothing says what its columns are.
fn bare(is_opened: bool) -> Heading
    ensures { result ≡ bare is_opened }
{
    Heading {
        begun: Begun {
            is_opened,
            has_header: false,
        },
        columns: Columns::two(),
    }
}

/// Takes the header of a text of comma-separated fields, and the opening of an export that stands before it: the first line, or
/// the first two. A text that has no such line is at its end then.
///
/// `Header`: the header gives no columns. `OtherFormat`: the opening names another format. `LongLine`: a line has more than
/// 65,536 bytes. `Read`: the reader failed, now or before. `Memory`: a growth was refused.
pub fn take_heading<R: Read>(
    alloc: Global,
    lines: &mut LineReader<'_, R>,
    names: Option<&FieldNames<'_>>,
) -> Result<Heading, ImportFault>
    requires ends { EndsRight R.remaining lines.old }
    ensures same_reader { SameReader lines.old.source lines.new.source }
    ensures ends { OnOk result (EndsRight R.remaining lines.new) }
    ensures heading { IfOk result (λ heading. (front : List (List ℕ)) × (IsHeaded (names_of names.entry) (text_left R.remaining lines.new) front heading
        × StandBefore front (text_left R.remaining lines.old) (text_left R.remaining lines.new))) }
    ensures cause { IfErr result (IsHeadingCause (names_of names.entry) (text_left R.remaining lines.old) (text_left R.remaining lines.new) lines.new) }
{
    if !take_line(lines, 1)? {
        return Ok(bare(false));
    }
    if is_opening(alloc, lines.line())? {
        take_header(alloc, lines, names)
    } else {
        heading_of(alloc, false, names, lines.line())
    }
}

// Takes the header behind an opening.
fn take_header<R: Read>(
    alloc: Global,
    lines: &mut LineReader<'_, R>,
    names: Option<&FieldNames<'_>>,
) -> Result<Heading, ImportFault>
    requires ends { EndsRight R.remaining lines.old }
    ensures same_reader { SameReader lines.old.source lines.new.source }
    ensures ends { OnOk result (EndsRight R.remaining lines.new) }
    ensures heading { IfOk result (λ heading. (front : List (List ℕ)) × (IsBehind (names_of names.entry) (text_left R.remaining lines.new) front heading
        × StandBefore front (text_left R.remaining lines.old) (text_left R.remaining lines.new))) }
    ensures cause { IfErr result (IsBehindCause (names_of names.entry) (text_left R.remaining lines.old) (text_left R.remaining lines.new) lines.new) }
{
    if take_line(lines, 2)? {
        heading_of(alloc, true, names, lines.line())
    } else {
        Ok(bare(true))
    }
}

// Takes the next line, which has this number, and says whether there is one.
fn take_line<R: Read>(lines: &mut LineReader<'_, R>, number: u64) -> Result<bool, ImportFault>
    requires ends { EndsRight R.remaining lines.old }
    ensures same_reader { SameReader lines.old.source lines.new.source }
    ensures ends { OnOk result (EndsRight R.remaining lines.new) }
    ensures line { IfOk result (IsLineRead lines.new.line.items (text_left R.remaining lines.old) (text_left R.remaining lines.new)) }
    ensures cause { IfErr result (IsLongCause number (text_left R.remaining lines.old) (text_left R.remaining lines.new) lines.new) }
{
    if lines.is_over()? {
        return Ok(false);
    }
    lines.next_line(FORMAT, number)?;
    Ok(true)
}

// Whether a text's first line opens an export of comma-separated fields.
fn is_opening(alloc: Global, line: &[u8]) -> Result<bool, ImportFault>
    ensures opening { IfOk result (IsOpening line.now) }
    ensures cause { IfErr result (IsOpeningCause line.now) }
{
    let read = line_of(alloc, FORMAT, false, &Layout::usual(), line)?;
    match first_opening(true, &read) {
        None => Ok(false),
        Some(PairFormat::Csv) => Ok(true),
        Some(found) => Err(ImportFault::OtherFormat { found }),
    }
}

// The heading of a header.
fn heading_of(
    alloc: Global,
    is_opened: bool,
    names: Option<&FieldNames<'_>>,
    header: &[u8],
) -> Result<Heading, ImportFault>
    ensures heading { IfOk result (Heads (names_of names.entry) is_opened header.now) }
    ensures cause { IfErr result (IsHeadCause (names_of names.entry) header.now) }
{
    match columns_of(alloc, names, header)? {
        Ok(columns) => Ok(Heading {
            begun: Begun {
                is_opened,
                has_header: true,
            },
            columns,
        }),
        Err(wrong) => Err(ImportFault::Header(wrong)),
    }
}

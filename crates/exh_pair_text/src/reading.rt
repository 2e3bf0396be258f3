//! What a line of a text of pairs reads as.
ghost use Rattle.std.specs.Prelude.{◌≡◌, ◌+◌, ◌<◌, length, IfOk, IfSome};
ghost use Rattle.std.specs.Option.{option_and_then};
ghost use Rattle.exh_text.specs.Numbers.{after_prefix, index_spelled};
ghost use Rattle.exh_pair_text.specs.Lines.{end_words, opening_words};
ghost use Rattle.exh_pair_text.specs.Formats.{format_named};
ghost use Rattle.exh_pair_text.specs.Parts.{parts_of};
ghost use Rattle.exh_pair_text.specs.Reading.{cut_at, end_in, json_end_in, line_read, opening_in, own_text, pair_in, pair_or_wrong, separated_pair, text_read};
ghost use Rattle.exh_pair_text.specs.Reads.{cut_lists};

use crate::csv_reading::csv_pair;
use crate::json_reading::json_pair;
use crate::separated::Separated;
use crate::spelled::Spelled;
use crate::{Field, Layout, Line, PairFormat, WrongLine};
use exh_page::{Key, Value};
use exh_text::parse_u64;
use memchr::memchr;
use std::alloc::{AllocError, Global};

const JSON_OPENING: &str = "{\"exhash\":\"export\",\"format\":\"jsonl\"}";

/// What a line without its newline reads as, where keys and values are written in this format, or in hexadecimal digits, and in
/// these parts of a record or an object. An opening or an end is one whatever the format. An `Err`, which comes of `jsonl` and
/// `csv` alone: out of memory.
pub fn line_of(
    alloc: Global,
    format: PairFormat,
    is_hex: bool,
    layout: &Layout<'_>,
    line: &[u8],
) -> Result<Line, AllocError>
    ensures { IfOk result (λ read. read ≡ line_read format is_hex (parts_of layout.now) line.now) }
{
    text_of(alloc, format, is_hex, layout, own_text(format, line))
}

// What a line reads as without what stands before its newline for some programs alone.
#[tactic(auto, unfolding(crate::specs::Reading::text_read))]
fn text_of(
    alloc: Global,
    format: PairFormat,
    is_hex: bool,
    layout: &Layout<'_>,
    line: &[u8],
) -> Result<Line, AllocError>
    ensures { IfOk result (λ read. read ≡ text_read format is_hex (parts_of layout.now) line.now) }
{
    if line.is_empty() {
        return Ok(Line::Empty);
    }
    if let Some(format) = opening_in(line) {
        return Ok(Line::Opening(format));
    }
    if let Some(count) = end_in(line) {
        return Ok(Line::End(count));
    }
    Ok(pair_or_wrong(pair_in(alloc, format, is_hex, layout, line)?))
}

// Of comma-separated fields the line without a carriage return at its end.
#[tactic(auto, unfolding(crate::specs::Reading::without_return))]
pub(crate) fn own_text(format: PairFormat, line: &[u8]) -> &[u8]
    ensures { result.now ≡ own_text format line.now }
{
    match (format, line) {
        (PairFormat::Csv, [text @ .., b'\r']) => text,
        _ => line,
    }
}

// A pair, or why there is none.
fn pair_or_wrong(pair: Result<(Key, Value), WrongLine>) -> Line
    ensures { result ≡ pair_or_wrong pair }
{
    match pair {
        Ok((key, value)) => Line::Pair { key, value },
        Err(wrong) => Line::Wrong(wrong),
    }
}

// The format that the first line of an export names.
#[tactic(auto, unfolding(crate::specs::Reading::opening_in))]
fn opening_in(line: &[u8]) -> Option<PairFormat>
    ensures { result ≡ opening_in line.now }
{
    if line == JSON_OPENING.as_bytes() {
        return Some(PairFormat::Jsonl);
    }
    words_opening_in(line)
}

// The same of one that is no JSON.
fn words_opening_in(line: &[u8]) -> Option<PairFormat>
    ensures { result ≡ option_and_then format_named (after_prefix opening_words line.now) }
{
    PairFormat::named(line.strip_prefix(b"# exhash export ")?)
}

// The number of the last line of an export.
#[tactic(auto, unfolding(crate::specs::Reading::end_in))]
fn end_in(line: &[u8]) -> Option<u64>
    ensures { result ≡ end_in line.now }
{
    match words_end_in(line) {
        Some(count) => Some(count),
        None => json_end_in(line),
    }
}

// The same of one that is no JSON.
fn words_end_in(line: &[u8]) -> Option<u64>
    ensures { result ≡ option_and_then index_spelled (after_prefix end_words line.now) }
{
    parse_u64(line.strip_prefix(b"# exhash end ")?)
}

// The same of one that is an object.
#[tactic(auto, unfolding(crate::specs::Reading::json_end_in))]
fn json_end_in(line: &[u8]) -> Option<u64>
    ensures { result ≡ json_end_in line.now }
{
    let (digits, rest) = cut_at(b'}', line.strip_prefix(b"{\"exhash\":\"end\",\"pairs\":")?)?;
    if rest.is_empty() {
        parse_u64(digits)
    } else {
        None
    }
}

// The pair of a line.
fn pair_in(
    alloc: Global,
    format: PairFormat,
    is_hex: bool,
    layout: &Layout<'_>,
    line: &[u8],
) -> Result<Result<(Key, Value), WrongLine>, AllocError>
    ensures { IfOk result (λ pair. pair ≡ pair_in format is_hex (parts_of layout.now) line.now) }
{
    match format {
        PairFormat::Words => Ok(separated_pair(Separated::Words, is_hex, line)),
        PairFormat::Tsv => Ok(separated_pair(Separated::Tsv, is_hex, line)),
        PairFormat::Jsonl => json_pair(alloc, is_hex, &layout.names, line),
        PairFormat::Csv => csv_pair(alloc, is_hex, layout.columns, line),
    }
}

// The pair of a line whose key and value have a separating byte between them.
#[tactic(auto, unfolding(crate::specs::Reading::separated_pair))]
fn separated_pair(format: Separated, is_hex: bool, line: &[u8]) -> Result<(Key, Value), WrongLine>
    ensures { result ≡ separated_pair format is_hex line.now }
{
    let (key, value) = cut_at(format.separator(), line).ok_or(WrongLine::NoValue)?;
    let at = key.len() + 2;
    let key = Spelled::read(format, is_hex, Field::Key, 1, key)?.key()?;
    let value = Spelled::read(format, is_hex, Field::Value, at, value)?.value()?;
    Ok((key, value))
}

// What stands before the first such byte, and behind it.
fn cut_at(mark: u8, line: &[u8]) -> Option<(&[u8], &[u8])>
    ensures parts { cut_lists result ≡ cut_at mark line.now }
    ensures within { IfSome result (λ parts. length parts.0.now + length parts.1.now < length line.now) }
{
    let end = memchr(mark, line)?;
    Some((&line[..end], &line[end + 1..]))
}

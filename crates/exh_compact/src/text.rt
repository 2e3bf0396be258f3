//! What a file has, as lines of words and numbers.
ghost use Rattle.std.specs.Prelude.{◌≡◌, ◌++◌, IfOk, OnOk, codes, decimal, length, replicate};
ghost use Rattle.exh_keyer.specs.Pseudokey.{keyer_word};
ghost use Rattle.exh_prefix.specs.Prefix.{prefix_text};
ghost use Rattle.exh_compact.specs.Text.{bar_len, bar_line, bar_text, bars_text, body_text, by_bits_text, by_records_text, bytes_text, depth_text, each_from, head_text, limit_text, line_text, most_in, pages_text, pair_text, ward_text, settings_text, stats_text};

use crate::{BIT_COUNTS, RECORD_COUNTS, Stats, WardCounts};
use exh_prefix::Prefix;
use exh_text::{push_number, push_prefix, push_text};
use std::alloc::{AllocError, Global};

// How wide the longest bar is.
const WIDTH: u64 = 40;

/// Lines of a file's settings and totals, of how many pages there are of each number of records and of each length of a
/// prefix, with bars, and of its wards. It takes memory for them.
pub fn text_of(alloc: Global, stats: &Stats) -> Result<Vec<u8>, AllocError>
    ensures { IfOk result (λ text. text.items ≡ stats_text stats.now) }
{
    let mut out = Vec::new(alloc);
    push_head(&mut out, stats)?;
    push_body(&mut out, stats)?;
    Ok(out)
}

// Adds the lines of its settings and totals.
fn push_head(out: &mut Vec<u8>, stats: &Stats) -> Result<(), AllocError>
    ensures { OnOk result (out.new.items ≡ out.old.items ++ head_text stats.now) }
{
    push_settings(out, stats)?;
    push_pages(out, stats)?;
    push_depth(out, stats)?;
    push_limit(out, stats)
}

// Adds the lines of its bytes, its counts and its wards.
fn push_body(out: &mut Vec<u8>, stats: &Stats) -> Result<(), AllocError>
    ensures { OnOk result (out.new.items ≡ out.old.items ++ body_text stats.now) }
{
    push_bytes(out, stats)?;
    push_by_records(out, stats)?;
    push_by_bits(out, stats)?;
    push_wards(out, &stats.wards)
}

// Adds the lines of its version and its settings.
fn push_settings(out: &mut Vec<u8>, stats: &Stats) -> Result<(), AllocError>
    ensures { OnOk result (out.new.items ≡ out.old.items ++ settings_text stats.now) }
{
    push_numbers(out, stats)?;
    push_keyer(out, stats)
}

// Adds the lines of its version, its cap and its wards.
fn push_numbers(out: &mut Vec<u8>, stats: &Stats) -> Result<(), AllocError>
    ensures { OnOk result (out.new.items ≡ out.old.items ++ (line_text (codes "version ") stats.now.version ++ (line_text (codes "cap ") stats.now.settings.cap ++ line_text (codes "wards ") (length stats.now.wards.items)))) }
{
    push_line(out, "version ", u64::from(stats.version))?;
    push_line(out, "cap ", u64::from(stats.settings.cap))?;
    push_line(out, "wards ", stats.wards.len() as u64)
}

// Adds the line of its keyer.
fn push_keyer(out: &mut Vec<u8>, stats: &Stats) -> Result<(), AllocError>
    ensures { OnOk result (out.new.items ≡ out.old.items ++ (codes "keyer " ++ (keyer_word stats.now.settings.keyer ++ codes "\n"))) }
{
    push_text(out, "keyer ")?;
    push_text(out, stats.settings.keyer.word())?;
    push_text(out, "\n")
}

// Adds the lines of how many records and pages it has.
fn push_pages(out: &mut Vec<u8>, stats: &Stats) -> Result<(), AllocError>
    ensures { OnOk result (out.new.items ≡ out.old.items ++ pages_text stats.now) }
{
    push_line(out, "records ", stats.records)?;
    push_pair(out, "pages ", stats.live, " live, ", stats.forwarding)?;
    push_text(out, " forwarding\n")
}

// Adds the line of how deep its pages are.
fn push_depth(out: &mut Vec<u8>, stats: &Stats) -> Result<(), AllocError>
    ensures { OnOk result (out.new.items ≡ out.old.items ++ depth_text stats.now) }
{
    push_depth_of(out, &stats.longest)?;
    push_longest(out, &stats.longest)
}

// Adds how long a prefix is.
fn push_depth_of(out: &mut Vec<u8>, prefix: &Prefix) -> Result<(), AllocError>
    ensures { OnOk result (out.new.items ≡ out.old.items ++ (codes "depth " ++ decimal (length prefix.now))) }
{
    push_text(out, "depth ")?;
    push_number(out, u64::from(prefix.len()))
}

// Adds the rest of the line: the prefix.
fn push_longest(out: &mut Vec<u8>, prefix: &Prefix) -> Result<(), AllocError>
    ensures { OnOk result (out.new.items ≡ out.old.items ++ (codes ", longest prefix " ++ (prefix_text prefix.now ++ codes "\n"))) }
{
    push_text(out, ", longest prefix ")?;
    push_prefix(out, prefix)?;
    push_text(out, "\n")
}

// Adds the line of the pages that can't be split.
fn push_limit(out: &mut Vec<u8>, stats: &Stats) -> Result<(), AllocError>
    ensures { OnOk result (out.new.items ≡ out.old.items ++ limit_text stats.now) }
{
    let words = "pages that can't be split ";
    push_pair(out, words, stats.at_limit, ", full ", stats.full_at_limit)?;
    push_text(out, "\n")
}

// Adds the line of how many bytes of the pages' blocks the records take.
fn push_bytes(out: &mut Vec<u8>, stats: &Stats) -> Result<(), AllocError>
    ensures { OnOk result (out.new.items ≡ out.old.items ++ bytes_text stats.now) }
{
    let more = " of records in ";
    push_pair(out, "bytes ", stats.record_bytes, more, stats.page_bytes)?;
    push_text(out, " of pages\n")
}

// Adds a line for each number of records that a page may have.
fn push_by_records(out: &mut Vec<u8>, stats: &Stats) -> Result<(), AllocError>
    ensures { OnOk result (out.new.items ≡ out.old.items ++ by_records_text stats.now) }
{
    let end = RECORD_COUNTS.min(usize::from(stats.settings.cap) + 1);
    push_bars(out, "pages with records ", &stats.by_records[..end])
}

// Adds a line for each length of a prefix, up to the longest.
fn push_by_bits(out: &mut Vec<u8>, stats: &Stats) -> Result<(), AllocError>
    ensures { OnOk result (out.new.items ≡ out.old.items ++ by_bits_text stats.now) }
{
    let end = BIT_COUNTS.min(usize::from(stats.longest.len()) + 1);
    push_bars(out, "pages with bits ", &stats.by_bits[..end])
}

// Adds the lines of the wards of the file.
fn push_wards(out: &mut Vec<u8>, wards: &[WardCounts]) -> Result<(), AllocError>
    ensures { OnOk result (out.new.items ≡ out.old.items ++ each_from ward_text 0 wards.now) }
{
    for number in 0..wards.len() {
        push_ward(out, number, &wards[number])?;
    }
    Ok(())
}

// Adds the line of a ward of the file.
fn push_ward(out: &mut Vec<u8>, number: usize, ward: &WardCounts) -> Result<(), AllocError>
    ensures { OnOk result (out.new.items ≡ out.old.items ++ ward_text number ward.now) }
{
    push_pair(out, "ward ", number as u64, ": pages ", ward.pages)?;
    push_line(out, ", records ", ward.records)
}

// Adds a line of words and a number.
fn push_line(out: &mut Vec<u8>, words: &str, number: u64) -> Result<(), AllocError>
    ensures { OnOk result (out.new.items ≡ out.old.items ++ line_text words.now number) }
{
    push_text(out, words)?;
    push_number(out, number)?;
    push_text(out, "\n")
}

// Adds words and a number, twice.
fn push_pair(
    out: &mut Vec<u8>,
    words: &str,
    number: u64,
    more: &str,
    other: u64,
) -> Result<(), AllocError>
    ensures { OnOk result (out.new.items ≡ out.old.items ++ pair_text words.now number more.now other) }
{
    push_text(out, words)?;
    push_number(out, number)?;
    push_text(out, more)?;
    push_number(out, other)
}

// Adds a line for each count.
fn push_bars(out: &mut Vec<u8>, words: &str, counts: &[u64]) -> Result<(), AllocError>
    ensures { OnOk result (out.new.items ≡ out.old.items ++ bars_text words.now counts.now) }
{
    let most = most_of(counts);
    for what in 0..counts.len() {
        push_bar(out, words, most, what, counts[what])?;
    }
    Ok(())
}

// Adds the line of a count, with a bar as long as it is beside the greatest.
fn push_bar(
    out: &mut Vec<u8>,
    words: &str,
    most: u64,
    what: usize,
    count: u64,
) -> Result<(), AllocError>
    ensures { OnOk result (out.new.items ≡ out.old.items ++ bar_line words.now most what count) }
{
    push_pair(out, words, what as u64, ": ", count)?;
    push_signs(out, count, most)?;
    push_text(out, "\n")
}

// Adds a space and the bar of a count, if it isn't 0.
fn push_signs(out: &mut Vec<u8>, count: u64, most: u64) -> Result<(), AllocError>
    ensures { OnOk result (out.new.items ≡ out.old.items ++ bar_text count most) }
{
    if count == 0 {
        return Ok(());
    }
    push_text(out, " ")?;
    push_bar_of(out, bar_len(count, most))
}

// Adds a bar so long.
fn push_bar_of(out: &mut Vec<u8>, len: u64) -> Result<(), AllocError>
    ensures { OnOk result (out.new.items ≡ out.old.items ++ replicate len 35) }
{
    'signs: for sign in 0..len {
        push_text(out, "#")?;
    }
    Ok(())
}

// How long the bar of a count is: of the greatest `WIDTH`, of others in proportion, and at least 1.
fn bar_len(count: u64, most: u64) -> u64
    ensures { result ≡ bar_len count most }
{
    let whole = u128::from(count) * 39 / u128::from(most.max(1)) + 1;
    whole.min(u128::from(WIDTH)) as u64
}

// The greatest of some counts, or 0.
fn most_of(counts: &[u64]) -> u64
    ensures { result ≡ most_in counts.now }
{
    let mut most = 0u64;
    for count in counts {
        most = most.max(*count);
    }
    most
}

ghost use Rattle.std.specs.Prelude.{◌≡◌, IfOk, IsTrue};
ghost use Rattle.exh_text.specs.LineFault.{ranged};
ghost use Rattle.exh_text.specs.FileLine.{file_line_of, keyer_of, settings_in_range, spelled_settings, telling_of};

use crate::{LineFault, Parts, Settings, parse_u32_after, split_words};
use exh_keyer::AnyKeyer;
use exh_page::{CAP_LIMIT, Config, keyer_named};
use exh_prefix::WARD_BITS_LIMIT;

/// The most copies of the directory that a file has.
pub const COPIES_LIMIT: u32 = 8;

/// Reads the settings of the first line of a script, without its newline. What isn't a file line is `Syntax`; a file line with a number
/// out of its range is `Range`.
#[tactic(auto, unfolding(crate::specs::FileLine::file_line_of, crate::specs::FileLine::spelled_file))]
pub fn parse_file_line(line: &[u8]) -> Result<Settings, LineFault>
    ensures line { result ≡ file_line_of line.now }
    ensures range { IfOk result (λ settings. IsTrue (settings_in_range settings)) }
{
    let mut words = split_words(line).ok_or(LineFault::Syntax)?;
    match words.next() {
        Some(b"file") => parse_settings(words),
        _ => Err(LineFault::Syntax),
    }
}

// `cap=N wards=N copies=N keyer=K`, and `moves=yes` behind it or nothing
#[tactic(auto, unfolding(crate::specs::FileLine::spelled_settings))]
fn parse_settings(mut words: Parts<'_>) -> Result<Settings, LineFault>
    ensures { result ≡ ranged settings_in_range (spelled_settings words.entry) }
{
    let cap = words.next().ok_or(LineFault::Syntax)?;
    let ward_bits = words.next().ok_or(LineFault::Syntax)?;
    let copies = words.next().ok_or(LineFault::Syntax)?;
    let keyer = words.next().ok_or(LineFault::Syntax)?;
    let cap = parse_u32_after(b"cap=", cap).ok_or(LineFault::Syntax)?;
    let ward_bits = parse_u32_after(b"wards=", ward_bits).ok_or(LineFault::Syntax)?;
    let copies = parse_u32_after(b"copies=", copies).ok_or(LineFault::Syntax)?;
    let keyer = parse_keyer(keyer).ok_or(LineFault::Syntax)?;
    let tells_moves = parse_telling(words).ok_or(LineFault::Syntax)?;
    if cap == 0
        || cap > CAP_LIMIT as u32
        || ward_bits > u32::from(WARD_BITS_LIMIT)
        || copies == 0
        || copies > COPIES_LIMIT
    {
        return Err(LineFault::Range);
    }
    let file = Config {
        cap: cap as u8,
        ward_bits: ward_bits as u8,
        copies,
        keyer,
    };
    Ok(Settings { file, tells_moves })
}

// `moves=yes`, or no word more: whether the moves of a reply's request are told.
#[tactic(auto, unfolding(crate::specs::FileLine::telling_of))]
fn parse_telling(mut words: Parts<'_>) -> Option<bool>
    ensures { result ≡ telling_of words.entry }
{
    let Some(word) = words.next() else {
        return Some(false);
    };
    if words.next().is_some() || word != b"moves=yes".as_slice() {
        return None;
    }
    Some(true)
}

#[tactic(auto, unfolding(crate::specs::FileLine::keyer_of))]
fn parse_keyer(word: &[u8]) -> Option<AnyKeyer>
    ensures { result ≡ keyer_of word.now }
{
    keyer_named(word.strip_prefix(b"keyer=")?)
}

ghost use Rattle.std.specs.Prelude.{◌≡◌, option_map};
ghost use Rattle.std.specs.Result.{result_map_both};
ghost use Rattle.exh_walk.specs.declared.event.Event.TheVariants.{Deliver, Hop as HopOn};
ghost use Rattle.exh_text.specs.LineFault.{ranged};
ghost use Rattle.exh_line.specs.Grammar.{call_in_range, line_in_range, line_of, spelled_begin, spelled_call, spelled_change, spelled_copy_step, spelled_deliver, spelled_hop, spelled_in_flight, spelled_number, spelled_pair_of_numbers, spelled_view};
ghost use Rattle.exh_line.specs.declared.line.Line.TheVariants.{Step};

use crate::{CallWords, View};
use exh_calls::Call;
use exh_text::{LineFault, Parts, parse_u32, parse_u32_after, parse_u64};
use exh_walk::Event;

/// A line of a script after its first, its numbers, key and value in their ranges. There may be no such
/// request, copy, table, ward or page.
#[derive(Clone, Copy)]
pub enum Line {
    /// `begin`, `hop`, `split`, `merge`, `deliver`, `send`, `combine` or `restart`.
    Step(Event),
    /// `show`, `page` or `inflight`.
    View(View),
}

/// Reads a later line, without its newline. A line outside the grammar is `Syntax`, whatever its numbers are; one in it
/// with a number, key or value out of its range is `Range`.
#[tactic(auto, unfolding(crate::specs::Grammar::spelled))]
pub fn parse_line(line: &[u8]) -> Result<Line, LineFault>
    ensures { result ≡ line_of line.now }
{
    // An empty word spells nothing wherever it stands, so none is looked for before the words are read.
    let mut words = Parts::new(b' ', line);
    let keyword = words.next().ok_or(LineFault::Syntax)?;
    match keyword {
        b"begin" => parse_begin(words),
        b"hop" => Ok(Line::Step(Event::Hop {
            name: parse_hop(words)?,
        })),
        _ => parse_change(keyword, words),
    }
}

// `rN cN COPY CALL`
#[tactic(auto, unfolding(crate::specs::Grammar::spelled_begin))]
fn parse_begin(mut words: Parts<'_>) -> Result<Line, LineFault>
    ensures { result ≡ ranged line_in_range (spelled_begin words.entry) }
{
    let name = words.next().ok_or(LineFault::Syntax)?;
    let client = words.next().ok_or(LineFault::Syntax)?;
    let copy = words.next().ok_or(LineFault::Syntax)?;
    let name = parse_u32_after(b"r", name).ok_or(LineFault::Syntax)?;
    let client = parse_u32_after(b"c", client).ok_or(LineFault::Syntax)?;
    let copy = parse_u32(copy).ok_or(LineFault::Syntax)?;
    match &parse_call(words) {
        Ok(_) if name == 0 || client == 0 => Err(LineFault::Range),
        Ok(call) => Ok(Line::Step(Event::Begin {
            name,
            client,
            copy,
            call: *call,
        })),
        Err(fault) => Err(*fault),
    }
}

// `rN`
#[tactic(auto, unfolding(crate::specs::Grammar::spelled_hop))]
pub(crate) fn parse_hop(mut words: Parts<'_>) -> Result<u32, LineFault>
    ensures { result_map_both (λ name. Step (HopOn name)) (λ fault. fault) result ≡ ranged line_in_range (spelled_hop words.entry) }
{
    let name = words.next().ok_or(LineFault::Syntax)?;
    let name = parse_u32_after(b"r", name).ok_or(LineFault::Syntax)?;
    if words.next().is_some() {
        return Err(LineFault::Syntax);
    }
    if name == 0 {
        return Err(LineFault::Range);
    }
    Ok(name)
}

// A split or merge, or what comes below.
#[tactic(auto, unfolding(crate::specs::Grammar::spelled_change))]
fn parse_change(keyword: &[u8], words: Parts<'_>) -> Result<Line, LineFault>
    ensures { result ≡ ranged line_in_range (spelled_change keyword.now words.entry) }
{
    match keyword {
        b"split" => {
            let (ward, page) = parse_two(words).ok_or(LineFault::Syntax)?;
            Ok(Line::Step(Event::Split { ward, page }))
        }
        b"merge" => {
            let (ward, page) = parse_two(words).ok_or(LineFault::Syntax)?;
            Ok(Line::Step(Event::Merge { ward, page }))
        }
        _ => parse_copy_step(keyword, words),
    }
}

// What a copy of the directory is told, sends or loses, or what comes below.
#[tactic(auto, unfolding(crate::specs::Grammar::spelled_copy_step))]
fn parse_copy_step(keyword: &[u8], words: Parts<'_>) -> Result<Line, LineFault>
    ensures { result ≡ ranged line_in_range (spelled_copy_step keyword.now words.entry) }
{
    if keyword == b"deliver".as_slice() {
        let (copy, ward, index) = parse_deliver(words).ok_or(LineFault::Syntax)?;
        return Ok(Line::Step(Event::Deliver { copy, ward, index }));
    }
    if keyword == b"send".as_slice() {
        return Ok(Line::Step(Event::Send {
            copy: parse_one(words).ok_or(LineFault::Syntax)?,
        }));
    }
    if keyword == b"combine".as_slice() {
        let (copy, table) = parse_two(words).ok_or(LineFault::Syntax)?;
        return Ok(Line::Step(Event::Combine { copy, table }));
    }
    if keyword == b"restart".as_slice() {
        return Ok(Line::Step(Event::Restart {
            copy: parse_one(words).ok_or(LineFault::Syntax)?,
        }));
    }
    let view = parse_view(keyword, words).ok_or(LineFault::Syntax)?;
    Ok(Line::View(view))
}

// A view of the world.
#[tactic(auto, unfolding(crate::specs::Grammar::spelled_view))]
fn parse_view(keyword: &[u8], words: Parts<'_>) -> Option<View>
    ensures { result ≡ spelled_view keyword.now words.entry }
{
    if keyword == b"show".as_slice() {
        return Some(View::Copy {
            copy: parse_one(words)?,
        });
    }
    if keyword == b"page".as_slice() {
        let (ward, page) = parse_two(words)?;
        return Some(View::Page { ward, page });
    }
    if keyword == b"inflight".as_slice() {
        return parse_in_flight(words);
    }
    None
}

// A number alone.
#[tactic(auto, unfolding(crate::specs::Grammar::spelled_number))]
fn parse_one(mut words: Parts<'_>) -> Option<u32>
    ensures { result ≡ spelled_number words.entry }
{
    let number = words.next()?;
    if words.next().is_some() {
        return None;
    }
    parse_u32(number)
}

// Two numbers.
#[tactic(auto, unfolding(crate::specs::Grammar::spelled_pair_of_numbers))]
pub(crate) fn parse_two(mut words: Parts<'_>) -> Option<(u32, u32)>
    ensures { result ≡ spelled_pair_of_numbers words.entry }
{
    let first = words.next()?;
    let second = words.next()?;
    if words.next().is_some() {
        return None;
    }
    Some((parse_u32(first)?, parse_u32(second)?))
}

// `COPY WARD INDEX`
#[tactic(auto, unfolding(crate::specs::Grammar::spelled_deliver))]
pub(crate) fn parse_deliver(mut words: Parts<'_>) -> Option<(u32, u32, u64)>
    ensures { option_map (λ told. Step (Deliver told.0 told.1 told.2)) result ≡ spelled_deliver words.entry }
{
    let copy = words.next()?;
    let ward = words.next()?;
    let index = words.next()?;
    if words.next().is_some() {
        return None;
    }
    Some((parse_u32(copy)?, parse_u32(ward)?, parse_u64(index)?))
}

// No word more.
#[tactic(auto, unfolding(crate::specs::Grammar::spelled_in_flight))]
fn parse_in_flight(mut words: Parts<'_>) -> Option<View>
    ensures { result ≡ spelled_in_flight words.entry }
{
    match words.next() {
        Some(_) => None,
        None => Some(View::InFlight),
    }
}

/// Reads the words of a call: `get KEY`, `put KEY VALUE`, `del KEY` or `swap KEY OLD NEW`. Words that spell none are
/// `Syntax`; where its key or a value is out of its range, that is `Range`.
pub fn parse_call(words: Parts<'_>) -> Result<Call, LineFault>
    ensures { result ≡ ranged call_in_range (spelled_call words.entry) }
{
    match CallWords::split(words) {
        Some(call) => call.read(),
        None => Err(LineFault::Syntax),
    }
}

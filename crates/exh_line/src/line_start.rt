ghost use Rattle.std.specs.Prelude.{IfSome};
ghost use Rattle.exh_line.specs.LineStart.{IsStartOf, IsBeginOf};

use crate::ShortStep;
use crate::line::{parse_deliver, parse_hop, parse_two};
use exh_text::{Parts, parse_u32, parse_u32_after};

/// What a right line of one of the kinds that scripts have most asks for, as far as it is read without its call: so that
/// no room for a call is cleared and moved where a line has none, and a call is made where it was read.
#[derive(Drop)]
pub enum LineStart<'a> {
    /// `begin`, a request's name, its client and its copy, where what comes then spells a call.
    Begin(BeginWords<'a>),
    /// `hop`, `split` or `deliver`.
    Step(ShortStep),
}

/// The words of a `begin`.
#[derive(Drop)]
pub struct BeginWords<'a> {
    pub name: u32,
    pub client: u32,
    pub copy: u32,
    /// Those of the call.
    pub call: Parts<'a>,
}

impl<'a> LineStart<'a> {
    /// The start of a later line, without its newline. `None` says nothing of the line: it may be a wrong one of these.
    #[tactic(auto, unfolding(crate::specs::Grammar::spelled, crate::specs::Grammar::spelled_change, crate::specs::Grammar::spelled_copy_step))]
    pub fn parse(line: &'a [u8]) -> Option<LineStart<'a>>
        ensures { IfSome result (IsStartOf line.now) }
    {
        let mut words = Parts::new(b' ', line);
        match words.next()? {
            b"begin" => Some(LineStart::Begin(parse_begin_words(words)?)),
            b"hop" => Some(LineStart::Step(ShortStep::Hop {
                name: parse_hop(words).ok()?,
            })),
            b"split" => {
                let (ward, page) = parse_two(words)?;
                Some(LineStart::Step(ShortStep::Split { ward, page }))
            }
            b"deliver" => {
                let (copy, ward, index) = parse_deliver(words)?;
                Some(LineStart::Step(ShortStep::Deliver { copy, ward, index }))
            }
            _ => None,
        }
    }
}

// `rN cN COPY` and the words of a call
#[inline(always)]
#[tactic(auto, unfolding(crate::specs::Grammar::spelled_begin))]
fn parse_begin_words(mut words: Parts<'_>) -> Option<BeginWords<'_>>
    ensures { IfSome result (IsBeginOf words.entry) }
{
    let name = words.next()?;
    let client = words.next()?;
    let copy = words.next()?;
    let name = parse_u32_after(b"r", name)?;
    let client = parse_u32_after(b"c", client)?;
    let copy = parse_u32(copy)?;
    if name == 0 || client == 0 {
        return None;
    }
    Some(BeginWords {
        name,
        client,
        copy,
        call: words,
    })
}

ghost use Rattle.std.specs.Prelude.{◌≡◌, ◌++◌, OnOk, decimal};
ghost use Rattle.exh_line.specs.LineAnswer.{answer_text, answer_words, copy_text, moves_text, notice_text, outcome_answer, request_in, request_text};
ghost use Rattle.exh_line.specs.LineStart.{short_event};
ghost use Rattle.exh_line.specs.declared.answer.Answer.TheVariants.{Begun, Refused, Replied};
ghost use Rattle.exh_text.specs.Printing.{Keeps, place_text};

use crate::{Answer, Moves, Refusal, ShortStep, Told};
use exh_calls::Reply;
use exh_notice::Notice;
use exh_prefix::PageNo;
use exh_text::{push_entry, push_number, push_refused, push_reply, push_text};
use exh_walk::Outcome;
use std::alloc::AllocError;

/// Adds the line that an answer prints.
pub fn push_answer(out: &mut Vec<u8>, answer: &Answer) -> Result<(), AllocError>
    ensures ok { OnOk result (out.new.items ≡ out.old.items ++ answer_text answer.now) }
    ensures kept { Keeps out.old.items out.new.items }
{
    push_words(out, answer)?;
    push_text(out, "\n")
}

/// Adds the line of a request that stands at a page of a ward, as the answer `Begun` prints it.
pub fn push_standing(out: &mut Vec<u8>, name: u32, ward: u8, page: PageNo) -> Result<(), AllocError>
    ensures ok { OnOk result (out.new.items ≡ out.old.items ++ answer_text (Begun name ward page)) }
    ensures kept { Keeps out.old.items out.new.items }
{
    push_named(out, "r", name, " at ")?;
    push_place(out, u32::from(ward), u64::from(page))?;
    push_text(out, "\n")
}

/// Adds the line that a step without a call prints where it isn't refused. A reply is printed from where it stands, and
/// no answer is made that holds it.
pub fn push_outcome(
    out: &mut Vec<u8>,
    step: ShortStep,
    outcome: &Outcome,
    tells_moves: bool,
) -> Result<(), AllocError>
    ensures ok { OnOk result (out.new.items ≡ out.old.items ++ answer_text (outcome_answer tells_moves (short_event step) outcome.now)) }
    ensures kept { Keeps out.old.items out.new.items }
{
    match outcome {
        Outcome::Replied {
            reply,
            moves,
            bound,
            ..
        } => {
            let told = tells_moves.then_some(Moves {
                made: *moves,
                bound: *bound,
            });
            push_replied(out, request_of(step), reply, told)?;
            push_text(out, "\n")
        }
        _ => push_answer(out, &Answer::of_short(step, outcome, tells_moves)),
    }
}

// The request that a step names, 0 where it names none.
fn request_of(step: ShortStep) -> u32
    ensures { result ≡ request_in (short_event step) }
{
    match step {
        ShortStep::Hop { name } => name,
        ShortStep::Split { .. } | ShortStep::Deliver { .. } => 0,
    }
}

// The line without its end.
fn push_words(out: &mut Vec<u8>, answer: &Answer) -> Result<(), AllocError>
    ensures ok { OnOk result (out.new.items ≡ out.old.items ++ answer_words answer.now) }
    ensures kept { Keeps out.old.items out.new.items }
{
    match answer {
        Answer::Begun { name, ward, page } => {
            push_named(out, "r", *name, " at ")?;
            push_place(out, u32::from(*ward), u64::from(*page))
        }
        Answer::Replied { name, reply, told } => push_replied(out, *name, reply, *told),
        Answer::Moved { name, ward, page } => {
            push_named(out, "r", *name, " moved ")?;
            push_place(out, u32::from(*ward), u64::from(*page))
        }
        Answer::MustSplit { name } => push_named(out, "r", *name, " split"),
        Answer::Stray { name } => push_named(out, "r", *name, " stray"),
        Answer::Changed(notice) => push_notice(out, notice),
        Answer::Taken { copy, ward, index } => {
            push_named(out, "copy ", *copy, " took ")?;
            push_place(out, u32::from(*ward), *index)
        }
        Answer::Sent { table } => push_named(out, "table ", *table, ""),
        Answer::Joined { copy, table } => {
            push_named(out, "copy ", *copy, " joined ")?;
            push_number(out, u64::from(*table))
        }
        Answer::Restarted { copy } => push_named(out, "copy ", *copy, " restarted"),
        Answer::Refused(refusal) => push_refused(out, refusal.number()),
    }
}

// A request's reply, and its moves where they are told.
#[inline(always)]
fn push_replied(out: &mut Vec<u8>, name: u32, reply: &Reply, told: Told) -> Result<(), AllocError>
    ensures ok { OnOk result (out.new.items ≡ out.old.items ++ answer_words (Replied name reply.now told)) }
    ensures kept { Keeps out.old.items out.new.items }
{
    push_named(out, "r", name, " ")?;
    push_reply(out, reply)?;
    push_moves(out, told)
}

// A ward and the number of a page or of a notice of it: most have one digit.
#[inline(always)]
fn push_place(out: &mut Vec<u8>, ward: u32, number: u64) -> Result<(), AllocError>
    ensures ok { OnOk result (out.new.items ≡ out.old.items ++ place_text ward number) }
    ensures kept { Keeps out.old.items out.new.items }
{
    push_short(out, u64::from(ward))?;
    push_text(out, "/")?;
    push_short(out, number)
}

// A number that mostly has one digit.
#[inline(always)]
#[tactic(auto, using(std::proofs::lemmas::Fmt::decimal_digit))]
fn push_short(out: &mut Vec<u8>, number: u64) -> Result<(), AllocError>
    ensures ok { OnOk result (out.new.items ≡ out.old.items ++ decimal number) }
    ensures kept { Keeps out.old.items out.new.items }
{
    if number >= 10 {
        return push_number(out, number);
    }
    out.push(b'0' + number as u8)?;
    Ok(())
}

// A request, copy or table by its number, and what it did.
#[inline(always)]
fn push_named(out: &mut Vec<u8>, kind: &str, number: u32, did: &str) -> Result<(), AllocError>
    ensures ok { OnOk result (out.new.items ≡ out.old.items ++ (kind.now ++ (decimal number ++ did.now))) }
    ensures kept { Keeps out.old.items out.new.items }
{
    push_text(out, kind)?;
    push_number(out, u64::from(number))?;
    push_text(out, did)
}

/// Adds the line of a refusal.
pub fn push_refusal(out: &mut Vec<u8>, refusal: Refusal) -> Result<(), AllocError>
    ensures ok { OnOk result (out.new.items ≡ out.old.items ++ answer_text (Refused refusal)) }
    ensures kept { Keeps out.old.items out.new.items }
{
    push_refused(out, refusal.number())?;
    push_text(out, "\n")
}

/// Adds the name of a request.
pub fn push_request(out: &mut Vec<u8>, name: u32) -> Result<(), AllocError>
    ensures ok { OnOk result (out.new.items ≡ out.old.items ++ request_text name) }
    ensures kept { Keeps out.old.items out.new.items }
{
    push_text(out, "r")?;
    push_number(out, u64::from(name))
}

/// Adds the number of a copy.
pub(crate) fn push_copy(out: &mut Vec<u8>, copy: u32) -> Result<(), AllocError>
    ensures ok { OnOk result (out.new.items ≡ out.old.items ++ copy_text copy) }
    ensures kept { Keeps out.old.items out.new.items }
{
    push_text(out, "copy ")?;
    push_number(out, u64::from(copy))
}

fn push_notice(out: &mut Vec<u8>, notice: &Notice) -> Result<(), AllocError>
    ensures ok { OnOk result (out.new.items ≡ out.old.items ++ notice_text notice.now) }
    ensures kept { Keeps out.old.items out.new.items }
{
    push_text(out, "notice ")?;
    push_place(out, u32::from(notice.ward), notice.index)?;
    push_text(out, " prefix ")?;
    push_entry(out, &notice.prefix, notice.number, &notice.kind)
}

// The moves of a request and their bound, where they are told.
fn push_moves(out: &mut Vec<u8>, told: Told) -> Result<(), AllocError>
    ensures ok { OnOk result (out.new.items ≡ out.old.items ++ moves_text told) }
    ensures kept { Keeps out.old.items out.new.items }
{
    let Some(moves) = told else {
        return Ok(());
    };
    push_text(out, " moves ")?;
    push_number(out, moves.made)?;
    push_text(out, " of ")?;
    push_number(out, moves.bound)
}

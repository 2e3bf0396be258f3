use crate::line_fault::LineFault;
use exh_calls::Reply;
use exh_text::{push_number, push_reply, push_text, push_value};
use exhash::{Keyer, Pairs, Settings};
use std::alloc::{AllocError, Global};

/// What a line is answered.
#[derive(Drop)]
pub(crate) enum Answer {
    /// It is done, and there is nothing to tell.
    Done,
    Reply(Reply),
    Len(usize),
    Pairs(Pairs),
    Settings(Settings),
}

/// Adds the line of an answer.
pub(crate) fn push_answer(
    alloc: Global,
    text: &mut Vec<u8>,
    answer: &Result<Answer, LineFault>,
) -> Result<(), AllocError> {
    match answer {
        Ok(Answer::Done) => push_text(text, "done")?,
        Ok(Answer::Reply(reply)) => push_reply(text, reply)?,
        Ok(Answer::Len(len)) => push_len(text, *len)?,
        Ok(Answer::Pairs(pairs)) => push_pairs(text, pairs)?,
        Ok(Answer::Settings(settings)) => push_settings(text, settings)?,
        Err(fault) => push_text(text, &format!(in alloc; "refused: {fault}")?)?,
    }
    push_text(text, "\n")
}

fn push_len(text: &mut Vec<u8>, len: usize) -> Result<(), AllocError> {
    push_text(text, "len ")?;
    push_number(text, len as u64)
}

// Adds each pair, its key and its value.
fn push_pairs(text: &mut Vec<u8>, pairs: &Pairs) -> Result<(), AllocError> {
    push_text(text, "pairs")?;
    for (key, value) in pairs.iter() {
        push_text(text, " ")?;
        push_value(text, key.as_bytes())?;
        push_text(text, " ")?;
        push_value(text, value.as_bytes())?;
    }
    Ok(())
}

// Adds settings, as the line that asks for a new file has them.
fn push_settings(text: &mut Vec<u8>, settings: &Settings) -> Result<(), AllocError> {
    push_text(text, "settings ")?;
    push_number(text, u64::from(settings.cap))?;
    push_text(text, " ")?;
    push_number(text, u64::from(settings.ward_bits))?;
    match settings.keyer {
        Keyer::Sha => push_text(text, " sha"),
        Keyer::Plain => push_text(text, " plain"),
    }
}

//! What the library answers to a change of one key, as it is printed.
ghost use Rattle.std.specs.Prelude.{◌≡◌, IfOk};
ghost use Rattle.exh_everyday.specs.Answers.{answer_line, answer_status, put_answer, put_new_answer, swap_answer, was_answer};

use crate::shown::push_answer;
use exh_page::Value;
use exh_text::push_text;
use exh_transfer::{Put, PutNew, Status, Swap};
use std::alloc::{AllocError, Global};

/// The answer to a change of one key.
#[derive(Clone, Copy)]
pub(crate) enum Answer {
    /// The key had no value, and has the given one now.
    New,
    /// It had this value, which is replaced or taken out.
    Was(Value),
    /// There is no room for it.
    Full,
    /// It has a value, which stays.
    Exists,
    /// It has none.
    Absent,
    /// It had the old value, and has the new one now.
    Swapped,
    /// It has this value, and not the old one.
    Differs(Value),
}

impl Answer {
    /// What a put came to.
    pub(crate) fn of_put(put: Put) -> Answer
        ensures { result ≡ put_answer put }
    {
        match put {
            Put::New => Answer::New,
            Put::Was(value) => Answer::Was(value),
            Put::Full => Answer::Full,
        }
    }

    /// What a put came to that replaces no value.
    pub(crate) fn of_put_new(put: PutNew) -> Answer
        ensures { result ≡ put_new_answer put }
    {
        match put {
            PutNew::New => Answer::New,
            PutNew::Is(_) => Answer::Exists,
            PutNew::Full => Answer::Full,
        }
    }

    /// What a call came to that replaces or takes out this value, if there is one.
    pub(crate) fn of_was(was: Option<Value>) -> Answer
        ensures { result ≡ was_answer was }
    {
        match was {
            Some(value) => Answer::Was(value),
            None => Answer::Absent,
        }
    }

    /// What a swap came to.
    pub(crate) fn of_swap(swap: Swap) -> Answer
        ensures { result ≡ swap_answer swap }
    {
        match swap {
            Swap::Swapped => Answer::Swapped,
            Swap::Differs(value) => Answer::Differs(value),
            Swap::None => Answer::Absent,
        }
    }

    /// The status behind it: whether the change is made.
    pub(crate) fn status(&self) -> Status
        ensures { result ≡ answer_status self.now }
    {
        match self {
            Answer::New | Answer::Was(_) | Answer::Swapped => Status::Done,
            Answer::Full | Answer::Exists | Answer::Absent | Answer::Differs(_) => Status::Missing,
        }
    }

    /// Its line, a value in hexadecimal digits where that is asked for. It takes memory for the line.
    pub(crate) fn line(&self, alloc: Global, is_hex: bool) -> Result<Vec<u8>, AllocError>
        ensures { IfOk result (λ line. line.items ≡ answer_line is_hex self.now) }
    {
        let mut line = Vec::new(alloc);
        match self {
            Answer::New => push_text(&mut line, "new")?,
            Answer::Was(value) => push_answer(&mut line, "was ", is_hex, value)?,
            Answer::Full => push_text(&mut line, "full")?,
            Answer::Exists => push_text(&mut line, "exists")?,
            Answer::Absent => push_text(&mut line, "none")?,
            Answer::Swapped => push_text(&mut line, "swapped")?,
            Answer::Differs(value) => push_answer(&mut line, "differs ", is_hex, value)?,
        }
        push_text(&mut line, "\n")?;
        Ok(line)
    }
}

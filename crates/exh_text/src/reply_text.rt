//! What is printed of a reply.
ghost use Rattle.std.specs.Prelude.{◌≡◌, ◌++◌, OnOk};
ghost use Rattle.exh_text.specs.Printing.{Keeps};
ghost use Rattle.exh_text.specs.ReplyText.{reply_text};

use crate::printing::{push_text, push_value};
use exh_calls::Reply;
use std::alloc::AllocError;

/// Adds a reply at the end: its word, and its value as one word.
pub fn push_reply(out: &mut Vec<u8>, reply: &Reply) -> Result<(), AllocError>
    ensures ok { OnOk result (out.new.items ≡ out.old.items ++ reply_text reply.now) }
    ensures kept { Keeps out.old.items out.new.items }
{
    match reply {
        Reply::Is(value) => {
            push_text(out, "is ")?;
            push_value(out, value.as_bytes())
        }
        Reply::None => push_text(out, "none"),
        Reply::New => push_text(out, "new"),
        Reply::Was(value) => {
            push_text(out, "was ")?;
            push_value(out, value.as_bytes())
        }
        Reply::Full => push_text(out, "full"),
        Reply::Swapped => push_text(out, "swapped"),
        Reply::Differs(value) => {
            push_text(out, "differs ")?;
            push_value(out, value.as_bytes())
        }
    }
}

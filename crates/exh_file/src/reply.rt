ghost use Rattle.std.specs.Prelude.{◌≡◌, IfOk};
ghost use Rattle.exh_file.specs.ReplyLine.{is_done, reply_line};

use exh_calls::Reply;
use exh_text::{push_reply, push_text};
use std::alloc::{AllocError, Global};

/// Whether a reply says that the call did what it asks for: `new`, `was` and `swapped` do. It takes no memory.
pub fn is_done(reply: &Reply) -> bool
    ensures { result ≡ is_done reply.now }
{
    match reply {
        Reply::New | Reply::Was(_) | Reply::Swapped => true,
        Reply::Is(_) | Reply::None | Reply::Full | Reply::Differs(_) => false,
    }
}

/// The line of a reply: its word, and its value as one word. An `AllocError` where memory is refused.
pub fn reply_line(alloc: Global, reply: &Reply) -> Result<Vec<u8>, AllocError>
    ensures { IfOk result (λ line. line.items ≡ reply_line reply.now) }
{
    let mut line = Vec::new(alloc);
    push_reply(&mut line, reply)?;
    push_text(&mut line, "\n")?;
    Ok(line)
}

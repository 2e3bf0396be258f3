ghost use Rattle.std.specs.Prelude.{◌≡◌, ◌++◌, OnOk};
ghost use Rattle.exh_load.specs.Loading.{pair_told, put_text};

use exh_calls::Reply;
use exh_page::{Key, Value};
use exh_text::{LineFault, parse_pair, push_text, push_value, split_words};
use std::alloc::AllocError;

/// The pair that a line spells, as `KEY VALUE`. `Syntax`: it spells none. `Range`: the key has none or
/// more than 64 bytes, or the value more than 128.
#[tactic(auto, unfolding(crate::specs::Loading::pair_told))]
pub(crate) fn parse_pair_line(line: &[u8]) -> Result<(Key, Value), LineFault>
    ensures { result ≡ pair_told line.now }
{
    let mut words = split_words(line).ok_or(LineFault::Syntax)?;
    let key = words.next().ok_or(LineFault::Syntax)?;
    let value = words.next().ok_or(LineFault::Syntax)?;
    if words.next().is_some() {
        return Err(LineFault::Syntax);
    }
    parse_pair(key, value)
}

/// Adds what is printed of a pair: a line where its key is turned away, else nothing.
pub(crate) fn push_reply(out: &mut Vec<u8>, key: &Key, reply: &Reply) -> Result<(), AllocError>
    ensures { OnOk result (out.new.items ≡ out.old.items ++ put_text key.now reply.now) }
{
    if let Reply::Full = reply {
        push_text(out, "full ")?;
        push_value(out, key.as_bytes())?;
        push_text(out, "\n")?;
    }
    Ok(())
}

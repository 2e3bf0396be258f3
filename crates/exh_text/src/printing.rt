ghost use Rattle.std.specs.Prelude.{◌≡◌, ◌++◌, OnOk, OnErr, decimal};
ghost use Rattle.exh_prefix.specs.Prefix.{prefix_text};
ghost use Rattle.exh_text.specs.Printing.{AppendsFrontOf, Keeps, is_plain, place_text, printed, refused_text};

use exh_prefix::Prefix;
use itoa::Buffer;
use std::alloc::AllocError;

/// Adds a text at the end, or nothing where memory runs out.
pub fn push_text(out: &mut Vec<u8>, text: &str) -> Result<(), AllocError>
    ensures ok { OnOk result (out.new.items ≡ out.old.items ++ text.now) }
    ensures err { OnErr result (out.new.items ≡ out.old.items) }
    ensures kept { Keeps out.old.items out.new.items }
{
    out.extend_from_slice(text.as_bytes())
}

/// Adds a number in decimal digits at the end, or nothing where memory runs out.
pub fn push_number(out: &mut Vec<u8>, number: u64) -> Result<(), AllocError>
    ensures ok { OnOk result (out.new.items ≡ out.old.items ++ decimal number) }
    ensures err { OnErr result (out.new.items ≡ out.old.items) }
    ensures kept { Keeps out.old.items out.new.items }
{
    push_text(out, Buffer::new().format(number))
}

/// Adds a value or a key at the end: as it is where it is a word of bytes 21 to 7e that doesn't begin with `#`, else as
/// `#` and two hexadecimal digits a byte. Where memory runs out, a beginning of that is added.
#[tactic(auto, unfolding(crate::specs::Printing::printed))]
pub fn push_value(out: &mut Vec<u8>, value: &[u8]) -> Result<(), AllocError>
    ensures ok { OnOk result (out.new.items ≡ out.old.items ++ printed value.now) }
    ensures err { OnErr result (AppendsFrontOf (printed value.now) out.old.items out.new.items) }
    ensures kept { Keeps out.old.items out.new.items }
{
    if is_plain(value) {
        out.extend_from_slice(value)?;
        return Ok(());
    }
    out.push(b'#')?;
    let mut digits = [0; 2];
    for byte in value {
        hex::encode_to_slice([*byte].as_slice(), &mut digits).unwrap();
        out.extend_from_slice(&digits)?;
    }
    Ok(())
}

fn is_plain(bytes: &[u8]) -> bool
    ensures { result ≡ is_plain bytes.now }
{
    match bytes {
        [] | [b'#', ..] => false,
        _ => bytes.iter().all(u8::is_ascii_graphic),
    }
}

/// Adds a prefix at the end: its bits, the empty one as `-`. Where memory runs out, a beginning of that is added.
pub fn push_prefix(out: &mut Vec<u8>, prefix: &Prefix) -> Result<(), AllocError>
    ensures ok { OnOk result (out.new.items ≡ out.old.items ++ prefix_text prefix.now) }
    ensures kept { Keeps out.old.items out.new.items }
{
    if prefix.is_empty() {
        return push_text(out, "-");
    }
    for place in 0..prefix.len() {
        let is_one = (prefix.low() >> (63 - place)) % 2 == 1;
        push_text(out, if is_one { "1" } else { "0" })?;
    }
    Ok(())
}

/// Adds a place at the end: a ward and the number of a page or of a notice of it.
pub fn push_place(out: &mut Vec<u8>, ward: u32, number: u64) -> Result<(), AllocError>
    ensures ok { OnOk result (out.new.items ≡ out.old.items ++ place_text ward number) }
    ensures kept { Keeps out.old.items out.new.items }
{
    push_number(out, u64::from(ward))?;
    push_text(out, "/")?;
    push_number(out, number)
}

/// Adds a refusal at the end, as `refused 60`.
pub fn push_refused(out: &mut Vec<u8>, number: u32) -> Result<(), AllocError>
    ensures ok { OnOk result (out.new.items ≡ out.old.items ++ refused_text number) }
    ensures kept { Keeps out.old.items out.new.items }
{
    push_text(out, "refused ")?;
    push_number(out, u64::from(number))
}

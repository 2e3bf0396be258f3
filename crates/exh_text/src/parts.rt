ghost use Rattle.std.specs.Prelude.{◌≡◌, ◌∷◌};
ghost use Rattle.std.specs.Iterator.{YieldsFirstRef, item_count};
ghost use Rattle.std.specs.Option.{option_copied};
ghost use Rattle.exh_text.specs.TextLines.{parts_at, parts_left};

use std::marker::Model;

/// The parts of bytes that one byte cuts, from the first on. Bytes without it are one part.
#[derive(Drop)]
pub struct Parts<'a> {
    byte: u8,
    rest: Option<&'a [u8]>,
}

impl<'a> Model for Parts<'a> {
    ghost use Rattle.std.specs.Prelude.{ℕ, List};
    ghost use Rattle.std.specs.Option.{option_copied};
    ghost use Rattle.exh_text.specs.TextLines.{parts_left};

    ghost Value = { List (List ℕ) };

    ghost view = { λ parts. parts_left parts.byte (option_copied parts.rest) };
}

impl<'a> Parts<'a> {
    /// The parts that `byte` cuts.
    pub fn new(byte: u8, bytes: &'a [u8]) -> Self
        ensures { result ≡ parts_at byte bytes.now }
    {
        Parts {
            byte,
            rest: Some(bytes),
        }
    }
}

impl<'a> Iterator for Parts<'a> {
    type Item = &'a [u8];

    ghost next_gives = { YieldsFirstRef (λ parts. parts) };

    ghost remaining = { item_count (λ parts. parts) };

    fn next(&mut self) -> Option<&'a [u8]> {
        let rest = self.rest?;
        let (part, rest) = first_part(self.byte, rest);
        self.rest = rest;
        Some(part)
    }
}

// What stands before the first such byte, and what stands after it.
fn first_part(byte: u8, bytes: &[u8]) -> (&[u8], Option<&[u8]>)
    ensures { parts_at byte bytes.now ≡ result.0.now ∷ parts_left byte (option_copied result.1) }
{
    match bytes.iter().position(|b| *b == byte) {
        Some(end) => (&bytes[..end], Some(&bytes[end + 1..])),
        None => (bytes, None),
    }
}

ghost use Rattle.std.specs.Prelude.{◌≡◌, ◌∷◌};
ghost use Rattle.std.specs.Iterator.{YieldsFirstRef, item_count};
ghost use Rattle.std.specs.Option.{option_copied};
ghost use Rattle.memchr.specs.Find.{IsFirstByte, is_byte};
ghost use Rattle.exh_text.specs.TextLines.{lines_of, newline, parts_at, parts_left, without_empty, words_of};

use crate::Parts;
use memchr::memchr;
use std::marker::Model;

/// The lines of a text, from the first on. Empty ones are skipped.
#[derive(Drop)]
pub struct Lines<'a> {
    rest: Option<&'a [u8]>,
}

impl<'a> Model for Lines<'a> {
    ghost use Rattle.std.specs.Prelude.{ℕ, List};
    ghost use Rattle.std.specs.Option.{option_copied};
    ghost use Rattle.exh_text.specs.TextLines.{newline, parts_left, without_empty};

    ghost Value = { List (List ℕ) };

    ghost view = { λ lines. without_empty (parts_left newline (option_copied lines.rest)) };
}

impl<'a> Lines<'a> {
    /// The lines that newlines part. The last may lack its newline.
    #[tactic(auto, unfolding(crate::specs::TextLines::lines_of))]
    pub fn new(text: &'a [u8]) -> Self
        ensures { result ≡ lines_of text.now }
    {
        Lines { rest: Some(text) }
    }
}

impl<'a> Iterator for Lines<'a> {
    type Item = &'a [u8];

    ghost next_gives = { YieldsFirstRef (λ lines. lines) };

    ghost remaining = { item_count (λ lines. lines) };

    fn next(&mut self) -> Option<&'a [u8]> {
        while let Some(rest) = self.rest {
            let (line, after) = first_line(rest);
            self.rest = after;
            if !line.is_empty() {
                return Some(line);
            }
        }
        None
    }
}

// What stands before the first newline, and what stands after it.
fn first_line(bytes: &[u8]) -> (&[u8], Option<&[u8]>)
    ensures { parts_at newline bytes.now ≡ result.0.now ∷ parts_left newline (option_copied result.1) }
{
    match newline_in(bytes) {
        Some(end) => (&bytes[..end], Some(&bytes[end + 1..])),
        None => (bytes, None),
    }
}

// Where the first newline stands. A line is cut from all that is left of a text, so many bytes are looked at at once.
// It is kept apart: the search is long, and would keep what reads lines from being one piece of code.
#[inline(never)]
fn newline_in(bytes: &[u8]) -> Option<usize>
    ensures { IsFirstByte (is_byte newline) bytes.now result }
{
    memchr(b'\n', bytes)
}

/// The words of a line, which single spaces part. `None` where a word would be empty.
pub fn split_words(line: &[u8]) -> Option<Parts<'_>>
    ensures { result ≡ words_of line.now }
{
    if Parts::new(b' ', line).any(|word| word.is_empty()) {
        return None;
    }
    Some(Parts::new(b' ', line))
}

ghost use Rattle.std.specs.Prelude.{◌≡◌, ◌+◌, ◌≤◌, ◌++◌, length, decimal, map};
ghost use Rattle.exh_text.specs.Note.{dots, front, shown, visible};

use arrayvec::ArrayVec;
use itoa::Buffer;

/// The most bytes of a note.
pub(crate) const NOTE_LEN: usize = 160;

/// The most bytes of a word that are shown.
pub(crate) const SHOWN_LEN: usize = 32;

pub(crate) type Note = ArrayVec<u8, NOTE_LEN>;

// Adds bytes.
pub(crate) fn put(note: &mut Note, bytes: &[u8])
    requires { length note.old.items + length bytes.now ≤ NOTE_LEN }
    ensures { note.new.items ≡ note.old.items ++ bytes.now }
{
    note.try_extend_from_slice(bytes).unwrap();
}

// Adds a number.
pub(crate) fn put_number(note: &mut Note, number: u64)
    requires { length note.old.items + 20 ≤ NOTE_LEN }
    ensures text { note.new.items ≡ note.old.items ++ decimal number }
    ensures few { length (decimal number) ≤ 20 }
{
    put(note, Buffer::new().format(number).as_bytes());
}

// Adds a word as it is shown: bytes that aren't printed as they stand are `?`, and of a long one two dots stand for the
// rest.
pub(crate) fn put_word(note: &mut Note, word: &[u8])
    requires { length note.old.items + SHOWN_LEN + 2 ≤ NOTE_LEN }
    ensures text { note.new.items ≡ note.old.items ++ shown word.now }
    ensures few { length note.new.items ≤ length note.old.items + SHOWN_LEN + 2 }
{
    put_visible(note, front(word, SHOWN_LEN));
    put(note, dots(word, SHOWN_LEN));
}

// The first bytes of a word.
#[tactic(auto, unfolding(crate::specs::Note::front))]
fn front(word: &[u8], most: usize) -> &[u8]
    ensures is { result.now ≡ front most word.now }
    ensures few { length result.now ≤ most }
{
    if word.len() <= most {
        word
    } else {
        word.split_at(most).0
    }
}

// Two dots where there are more.
fn dots(word: &[u8], most: usize) -> &'static [u8]
    ensures is { result.now ≡ dots most word.now }
    ensures few { length result.now ≤ 2 }
{
    if word.len() <= most { b"" } else { b".." }
}

// Adds these bytes, or `?` where one isn't printed as it stands.
fn put_visible(note: &mut Note, bytes: &[u8])
    requires { length note.old.items + length bytes.now ≤ NOTE_LEN }
    ensures text { note.new.items ≡ note.old.items ++ map visible bytes.now }
    ensures len { length note.new.items ≡ length note.old.items + length bytes.now }
{
    let mut rest = bytes;
    while let [byte, bytes @ ..] = rest {
        put(note, [visible(*byte)].as_slice());
        rest = bytes;
    }
}

fn visible(byte: u8) -> u8
    ensures { result ≡ visible byte }
{
    if 32 <= byte && byte <= 126 {
        byte
    } else {
        b'?'
    }
}

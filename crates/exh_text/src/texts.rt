//! The texts, each a line.
ghost use Rattle.std.specs.Prelude.{◌≡◌, ◌≤◌, ◌++◌, length};
ghost use Rattle.std.specs.Option.{option_copied};
ghost use Rattle.exh_text.specs.Texts.{counted_text, keyer_differs_text, keyer_words, kind_words, more_text, number_differs_text, other_number_text, place_text, setting_text, spread_text, turned_away_text, unanswered_text, wrong_line_text};

use crate::Kind;
use crate::note::{Note, put, put_number, put_word};
use arrayvec::ArrayVec;
use exh_keyer::AnyKeyer;

/// Of a text that is above its limits.
pub(crate) const TOO_LONG: &[u8] =
    b"exhash: standard input has more than 1048576 bytes, or has no end\n";

// A line of this number and kind, with the word of it that is meant, if it is one.
pub(crate) fn wrong_line(number: u64, kind: Kind, word: Option<&[u8]>) -> Note
    ensures { result.items ≡ wrong_line_text number kind (option_copied word.entry) }
{
    let mut note = ArrayVec::new();
    put(&mut note, b"exhash: line ");
    put_number(&mut note, number);
    put(&mut note, b": ");
    put(&mut note, kind_words(kind));
    put_place(&mut note, word);
    note
}

// Ends a note with a word, or with the end of its line.
fn put_place(note: &mut Note, word: Option<&[u8]>)
    requires { length note.old.items ≤ 100 }
    ensures { note.new.items ≡ note.old.items ++ place_text (option_copied word.entry) }
{
    match word {
        Some(word) => {
            put(note, b" at '");
            put_word(note, word);
            put(note, b"'\n");
        }
        None => put(note, b" at its end\n"),
    }
}

fn kind_words(kind: Kind) -> &'static [u8]
    ensures words { result.now ≡ kind_words kind }
    ensures few { length (kind_words kind) ≤ 10 }
{
    match kind {
        Kind::Syntax => b"refused 60",
        Kind::Range => b"refused 61",
        Kind::Full => b"full",
    }
}

// How many lines of a kind there are behind those that were told.
pub(crate) fn more(kind: Kind, count: u64) -> Note
    ensures { result.items ≡ more_text kind count }
{
    let mut note = ArrayVec::new();
    put(&mut note, b"exhash: further lines that are ");
    put(&mut note, kind_words(kind));
    put_count(&mut note, count);
    note
}

// How many requests a script leaves.
pub(crate) fn unanswered(count: u64) -> Note
    ensures { result.items ≡ unanswered_text count }
{
    let mut note = ArrayVec::new();
    put(&mut note, b"exhash: requests begun and not answered");
    put_count(&mut note, count);
    note
}

// How many pairs found no room in a page of so many records.
pub(crate) fn turned_away(count: u64, cap: u8) -> Note
    ensures { result.items ≡ turned_away_text count cap }
{
    let mut note = ArrayVec::new();
    put(
        &mut note,
        b"exhash: pairs that aren't in the file, a page having room for cap=",
    );
    put_number(&mut note, u64::from(cap));
    put_count(&mut note, count);
    note
}

// Why pages can't be split further: by what a keyer parts keys.
pub(crate) fn spread(keyer: AnyKeyer) -> &'static [u8]
    ensures { result.now ≡ spread_text keyer }
{
    match keyer {
        AnyKeyer::Plain =>
            b"exhash: keyer=plain parts keys by their first two and a half bytes alone\n",
        AnyKeyer::Sha =>
            b"exhash: keyer=sha parts keys by two and a half bytes of a digest of theirs\n",
    }
}

// A number that is another in a script than in the opened file.
pub(crate) fn number_differs(name: &[u8], script: u64, opened: u64) -> Note
    requires { length name.now ≤ 8 }
    ensures { result.items ≡ number_differs_text name.now script opened }
{
    let mut note = ArrayVec::new();
    put(&mut note, b"exhash: ");
    put_setting(&mut note, name, script);
    put_other(&mut note, name, opened);
    note
}

// Ends a note of a setting in a script with that of the opened file.
fn put_other(note: &mut Note, name: &[u8], number: u64)
    requires room { length note.old.items ≤ 40 }
    requires short { length name.now ≤ 8 }
    ensures { note.new.items ≡ note.old.items ++ other_number_text name.now number }
{
    put(note, b" in the script, ");
    put_setting(note, name, number);
    put(note, b" in the opened file\n");
}

// Adds a setting, its name having the `=` behind it.
#[tactic(auto, unfolding(crate::specs::Texts::setting_text))]
fn put_setting(note: &mut Note, name: &[u8], number: u64)
    requires room { length note.old.items ≤ 60 }
    requires short { length name.now ≤ 8 }
    ensures text { note.new.items ≡ note.old.items ++ setting_text name.now number }
    ensures few { length (setting_text name.now number) ≤ 28 }
{
    put(note, name);
    put_number(note, number);
}

// The keyer of a script, which isn't that of the opened file.
pub(crate) fn keyer_differs(script: AnyKeyer, opened: AnyKeyer) -> Note
    ensures { result.items ≡ keyer_differs_text script opened }
{
    let mut note = ArrayVec::new();
    put(&mut note, b"exhash: ");
    put(&mut note, keyer_words(script));
    put(&mut note, b" in the script, ");
    put(&mut note, keyer_words(opened));
    put(&mut note, b" in the opened file\n");
    note
}

fn keyer_words(keyer: AnyKeyer) -> &'static [u8]
    ensures words { result.now ≡ keyer_words keyer }
    ensures few { length (keyer_words keyer) ≤ 11 }
{
    match keyer {
        AnyKeyer::Plain => b"keyer=plain",
        AnyKeyer::Sha => b"keyer=sha",
    }
}

// Ends a note with a count.
fn put_count(note: &mut Note, count: u64)
    requires { length note.old.items ≤ 100 }
    ensures { note.new.items ≡ note.old.items ++ counted_text count }
{
    put(note, b": ");
    put_number(note, count);
    put(note, b"\n");
}

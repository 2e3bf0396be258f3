//! What words a line of a text may have, one after the other.
ghost use Rattle.std.specs.Prelude.{◌≡◌};
ghost use Rattle.exh_text.specs.Expect.{after_keyword, after_view, after_word, fault_in, fault_of, fault_of_file_word, fault_of_word, fault_unless, is_change, is_verb, next_word};

use crate::{
    COPIES_LIMIT, LineFault, parse_key, parse_pair, parse_u32, parse_u32_after, parse_u64,
};
use exh_page::CAP_LIMIT;
use exh_prefix::WARD_BITS_LIMIT;

/// Which word of a line comes next.
#[derive(Clone, Copy)]
pub enum Expect {
    /// The words of a `file` line.
    File,
    Cap,
    Wards,
    Copies,
    Keyer,
    Moves,
    /// The first word of a later line of a script.
    Keyword,
    /// The words behind `begin`, and the one behind `hop`.
    Request,
    Client,
    Copy,
    Verb,
    OnlyRequest,
    /// The key of a `get` or `del`; a key with a value behind it; a key with two, and the first of
    /// these; the last value.
    OnlyKey,
    Key,
    SwapKey,
    Old,
    Value,
    /// The words behind `deliver`.
    CopyWardIndex,
    WardIndex,
    Index,
    /// Numbers.
    TwoNumbers,
    Number,
    /// None.
    End,
}

impl Expect {
    // Why a word can't stand here, if it can't.
    pub(crate) fn fault_of_word(self, word: &[u8]) -> Option<LineFault>
        ensures { result ≡ fault_of_word self word.now }
    {
        match self {
            Expect::Keyword => fault_unless(after_keyword(word).is_some()),
            Expect::Request | Expect::OnlyRequest => {
                fault_in(1, u32::MAX, parse_u32_after(b"r", word))
            }
            Expect::Client => fault_in(1, u32::MAX, parse_u32_after(b"c", word)),
            Expect::Verb => fault_unless(is_verb(word)),
            Expect::OnlyKey | Expect::Key | Expect::SwapKey => fault_of(parse_key(word)),
            Expect::Old | Expect::Value => fault_of(parse_pair(b"k", word)),
            Expect::Index => fault_unless(parse_u64(word).is_some()),
            Expect::Copy
            | Expect::CopyWardIndex
            | Expect::WardIndex
            | Expect::TwoNumbers
            | Expect::Number => fault_in(0, u32::MAX, parse_u32(word)),
            _ => self.fault_of_file_word(word),
        }
    }

    // Why a word can't stand here in a `file` line.
    fn fault_of_file_word(self, word: &[u8]) -> Option<LineFault>
        ensures { result ≡ fault_of_file_word self word.now }
    {
        match self {
            Expect::File => fault_unless(word == b"file".as_slice()),
            Expect::Cap => fault_in(1, CAP_LIMIT as u32, parse_u32_after(b"cap=", word)),
            Expect::Wards => fault_in(
                0,
                u32::from(WARD_BITS_LIMIT),
                parse_u32_after(b"wards=", word),
            ),
            Expect::Copies => fault_in(1, COPIES_LIMIT, parse_u32_after(b"copies=", word)),
            Expect::Keyer => fault_unless(
                word == b"keyer=sha".as_slice() || word == b"keyer=plain".as_slice(),
            ),
            Expect::Moves => fault_unless(word == b"moves=yes".as_slice()),
            _ => Some(LineFault::Syntax),
        }
    }

    // What comes behind a word that stands here.
    pub(crate) fn after_word(self, word: &[u8]) -> Expect
        ensures { result ≡ next_word self word.now }
    {
        match self {
            Expect::Keyword => match after_keyword(word) {
                Some(next) => next,
                None => Expect::End,
            },
            Expect::Verb if word == b"put".as_slice() => Expect::Key,
            Expect::Verb if word == b"swap".as_slice() => Expect::SwapKey,
            Expect::Verb => Expect::OnlyKey,
            _ => self.next(),
        }
    }

    // What comes behind any word that stands here.
    fn next(self) -> Expect
        ensures { result ≡ after_word self }
    {
        match self {
            Expect::File => Expect::Cap,
            Expect::Cap => Expect::Wards,
            Expect::Wards => Expect::Copies,
            Expect::Copies => Expect::Keyer,
            Expect::Keyer => Expect::Moves,
            Expect::Request => Expect::Client,
            Expect::Client => Expect::Copy,
            Expect::Copy => Expect::Verb,
            Expect::Key | Expect::Old => Expect::Value,
            Expect::SwapKey => Expect::Old,
            Expect::CopyWardIndex => Expect::WardIndex,
            Expect::WardIndex => Expect::Index,
            Expect::TwoNumbers => Expect::Number,
            _ => Expect::End,
        }
    }
}

// What comes behind the first word of a later line of a script.
fn after_keyword(word: &[u8]) -> Option<Expect>
    ensures { result ≡ after_keyword word.now }
{
    if word == b"begin".as_slice() {
        Some(Expect::Request)
    } else if word == b"hop".as_slice() {
        Some(Expect::OnlyRequest)
    } else if is_change(word) {
        Some(Expect::TwoNumbers)
    } else if word == b"deliver".as_slice() {
        Some(Expect::CopyWardIndex)
    } else {
        after_view(word)
    }
}

// Whether a line with this first word names two numbers.
fn is_change(word: &[u8]) -> bool
    ensures { result ≡ is_change word.now }
{
    word == b"split".as_slice() || word == b"merge".as_slice() || word == b"combine".as_slice()
}

// The same of the other lines.
fn after_view(word: &[u8]) -> Option<Expect>
    ensures { result ≡ after_view word.now }
{
    if word == b"send".as_slice() || word == b"restart".as_slice() || word == b"show".as_slice() {
        Some(Expect::Number)
    } else if word == b"page".as_slice() {
        Some(Expect::TwoNumbers)
    } else if word == b"inflight".as_slice() {
        Some(Expect::End)
    } else {
        None
    }
}

fn is_verb(word: &[u8]) -> bool
    ensures { result ≡ is_verb word.now }
{
    word == b"get".as_slice()
        || word == b"put".as_slice()
        || word == b"del".as_slice()
        || word == b"swap".as_slice()
}

fn fault_unless(right: bool) -> Option<LineFault>
    ensures { result ≡ fault_unless right }
{
    if right { None } else { Some(LineFault::Syntax) }
}

// The fault of a word that spells this number, or none, where one from the least to the greatest may stand.
fn fault_in(least: u32, greatest: u32, number: Option<u32>) -> Option<LineFault>
    ensures { result ≡ fault_in least greatest number }
{
    match number {
        None => Some(LineFault::Syntax),
        Some(number) if least <= number && number <= greatest => None,
        Some(_) => Some(LineFault::Range),
    }
}

fn fault_of<T: Copy>(read: Result<T, LineFault>) -> Option<LineFault>
    ensures { result ≡ fault_of read }
{
    match read {
        Ok(_) => None,
        Err(fault) => Some(fault),
    }
}

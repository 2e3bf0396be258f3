//! The text of a line. What finds no room in a narrow terminal is cut there, and doesn't begin another line, which
//! nothing would take away.
ghost use Rattle.std.specs.Prelude.{◌≡◌, ◌+◌, ◌*◌, ◌≤◌, ◌++◌, [], length, decimal, codes};
ghost use Rattle.exh_stream.specs.Line.{digit_text, has_comma, in_threes, line_text, number_text, of_text, storm_text};

use crate::Work;
use crate::storm_counts::StormCounts;
use arrayvec::ArrayVec;
use itoa::Buffer;

/// The most bytes of a line.
pub(crate) const LINE_LEN: usize = 320;

/// The most bytes of a number.
const NUMBER_LEN: usize = 80;

/// What takes the line away.
pub(crate) const CLEARED: &[u8] = b"\r\x1b[K";

pub(crate) type Line = ArrayVec<u8, LINE_LEN>;

// The line of work of which so much is done.
pub(crate) fn line(work: Work, amount: u64) -> Line
    ensures { result.items ≡ line_text work amount }
{
    let mut line = ArrayVec::new();
    put(&mut line, b"\r\x1b[?7lexhash: ");
    put_number(&mut line, work.unit.count(amount));
    if let Some(of) = work.of {
        put(&mut line, b" of ");
        put_number(&mut line, of);
    }
    put(&mut line, work.unit.words());
    put(&mut line, b"\x1b[K\x1b[?7h");
    line
}

// The line of a storm that is so far.
pub(crate) fn storm_line(counts: StormCounts) -> Line
    ensures { result.items ≡ storm_text counts }
{
    let mut line = ArrayVec::new();
    put(&mut line, b"\r\x1b[?7lexhash: ");
    put_number(&mut line, counts.calls);
    put(&mut line, b" calls answered, ");
    put_number(&mut line, counts.merges);
    put(&mut line, b" merges, ");
    put_number(&mut line, counts.notices);
    put(&mut line, b" notices carried\x1b[K\x1b[?7h");
    line
}

// Adds bytes.
fn put(line: &mut Line, bytes: &[u8])
    requires { length line.old.items + length bytes.now ≤ LINE_LEN }
    ensures { line.new.items ≡ line.old.items ++ bytes.now }
{
    line.try_extend_from_slice(bytes).unwrap();
}

// Adds a number, with a comma between each three digits.
#[tactic(auto, using(crate::proofs::Digits::twice_at_most))]
fn put_number(line: &mut Line, number: u64)
    requires { length line.old.items + NUMBER_LEN ≤ LINE_LEN }
    ensures text { line.new.items ≡ line.old.items ++ number_text number }
    ensures few { length (number_text number) ≤ NUMBER_LEN }
{
    let mut buffer = Buffer::new();
    let mut rest = buffer.format(number).as_bytes();
    while let [digit, digits @ ..] = rest {
        put_digit(line, *digit, digits.len());
        rest = digits;
    }
}

// Adds a digit, and a comma where a multiple of three digits follow.
fn put_digit(line: &mut Line, digit: u8, count: usize)
    requires { length line.old.items + 2 ≤ LINE_LEN }
    ensures text { line.new.items ≡ line.old.items ++ digit_text digit count }
    ensures few { length (digit_text digit count) ≤ 2 }
{
    if has_comma(count) {
        put(line, [digit, b','].as_slice());
    } else {
        put(line, [digit].as_slice());
    }
}

// Whether a comma stands before the last so many digits.
fn has_comma(count: usize) -> bool
    ensures { result ≡ has_comma count }
{
    count != 0 && count % 3 == 0
}

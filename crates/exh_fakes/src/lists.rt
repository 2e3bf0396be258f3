//! The steps of stories of one caller.

use crate::live_step::LiveStep::{
    self, Anew, Call, Carried, Closed, Held, Idle, Kept, KeptIn, Named, Often, Refilled, Refused,
    Stale, Tell, Within,
};
use exh_fixtures::Said::{self, Absent, Is, New, Was};

/// Three puts, of which the third takes one split where a page has two records: page 0 has `#00` and `#40`
/// then, page 1 has `#80`.
pub static THREE_KEYS: [LiveStep; 3] = [
    Call(New(b"\0", b"a")),
    Call(New(b"\x80", b"b")),
    Call(New(b"\x40", b"x")),
];

/// After the three keys, of which the copy is told nothing: the page that is named is left at each move, and
/// at a page that isn't there the call goes on at page 0.
pub static TOLD_COPY: [LiveStep; 7] = [
    Held(1, b"\x80"),
    Within(2, Is(b"\x80", b"b")),
    Tell(1, "", 1),
    Within(1, Is(b"\x80", b"b")),
    Tell(2, "1", 9),
    Held(2, b"\xc0"),
    Within(3, Absent(b"\xc0")),
];

/// After the three keys a round carries the one notice, and the next round none; then that of a merge.
pub static COURIER: [LiveStep; 10] = [
    Carried(1),
    Named(b"\x80", 1),
    Within(1, Is(b"\x80", b"b")),
    Carried(0),
    Call(Was(b"\x40", b"x")),
    Call(Was(b"\x80", b"b")),
    Kept(1),
    Carried(1),
    Named(b"\x80", 0),
    Carried(0),
];

/// After the three keys ten rounds are refused: where the notice is copied, is kept, is counted and is taken, and where
/// what is pending is published. Told looks show nothing of it, and calls are answered as before. Then a round
/// carries the one notice, which is pending some seven times, and a told look shows it; and the next round carries none.
pub static REFUSED_COURIER: [LiveStep; 19] = [
    Refused(1),
    Refused(2),
    Refused(3),
    Named(b"\x80", 0),
    Refused(4),
    Refused(5),
    Named(b"\x80", 0),
    Within(2, Is(b"\x80", b"b")),
    Refused(4),
    Refused(4),
    Refused(5),
    Refused(4),
    Refused(4),
    Named(b"\x80", 0),
    Carried(1),
    Named(b"\x80", 1),
    Within(1, Is(b"\x80", b"b")),
    Carried(0),
    Named(b"\x40", 0),
];

/// After the three keys and deletes of two a round makes one merge, and the next none. Where three pages are
/// empty but for one record, a round merges two, and the next round what that left.
pub static KEEPER: [LiveStep; 16] = [
    Kept(0),
    Call(Was(b"\x40", b"x")),
    Call(Was(b"\x80", b"b")),
    Kept(1),
    Kept(0),
    Call(Absent(b"\x80")),
    Call(New(b"\x80", b"b")),
    Call(New(b"\x40", b"x")),
    Call(New(b"\x20", b"y")),
    Kept(0),
    Call(Was(b"\x20", b"y")),
    Call(Was(b"\x40", b"x")),
    Call(Was(b"\x80", b"b")),
    Kept(1),
    Kept(1),
    Kept(0),
];

/// Three puts in each of the wards 0, 1, 6 and 15 of sixteen, of which the third takes one split.
pub static THREE_KEYS_EACH: [LiveStep; 12] = [
    Call(New(b"\0", b"a")),
    Call(New(b"\x08", b"b")),
    Call(New(b"\x04", b"x")),
    Call(New(b"\x10", b"a")),
    Call(New(b"\x18", b"b")),
    Call(New(b"\x14", b"x")),
    Call(New(b"\x60", b"a")),
    Call(New(b"\x68", b"b")),
    Call(New(b"\x64", b"x")),
    Call(New(b"\xf0", b"a")),
    Call(New(b"\xf8", b"b")),
    Call(New(b"\xf4", b"x")),
];

/// After those keys a round carries a notice of each of the four wards; and once a keeper's round in each has
/// merged what deletes left, the next round carries as many.
pub static FOUR_WARDS: [LiveStep; 29] = [
    Carried(4),
    Named(b"\x08", 1),
    Named(b"\x18", 1),
    Named(b"\x68", 1),
    Named(b"\xf8", 1),
    Within(1, Is(b"\x08", b"b")),
    Within(1, Is(b"\x18", b"b")),
    Within(1, Is(b"\x68", b"b")),
    Within(1, Is(b"\xf8", b"b")),
    Carried(0),
    Call(Was(b"\x04", b"x")),
    Call(Was(b"\x08", b"b")),
    Call(Was(b"\x14", b"x")),
    Call(Was(b"\x18", b"b")),
    Call(Was(b"\x64", b"x")),
    Call(Was(b"\x68", b"b")),
    Call(Was(b"\xf4", b"x")),
    Call(Was(b"\xf8", b"b")),
    KeptIn(0, 1),
    KeptIn(1, 1),
    KeptIn(6, 1),
    KeptIn(15, 1),
    KeptIn(2, 0),
    Carried(4),
    Named(b"\x08", 0),
    Named(b"\x18", 0),
    Named(b"\x68", 0),
    Named(b"\xf8", 0),
    Carried(0),
];

/// Two puts in each of sixteen wards, of which the second takes one split where a page has one record.
pub static TWO_KEYS_EACH: [LiveStep; 32] = [
    Call(New(b"\0", b"a")),
    Call(New(b"\x08", b"b")),
    Call(New(b"\x10", b"a")),
    Call(New(b"\x18", b"b")),
    Call(New(b"\x20", b"a")),
    Call(New(b"\x28", b"b")),
    Call(New(b"\x30", b"a")),
    Call(New(b"\x38", b"b")),
    Call(New(b"\x40", b"a")),
    Call(New(b"\x48", b"b")),
    Call(New(b"\x50", b"a")),
    Call(New(b"\x58", b"b")),
    Call(New(b"\x60", b"a")),
    Call(New(b"\x68", b"b")),
    Call(New(b"\x70", b"a")),
    Call(New(b"\x78", b"b")),
    Call(New(b"\x80", b"a")),
    Call(New(b"\x88", b"b")),
    Call(New(b"\x90", b"a")),
    Call(New(b"\x98", b"b")),
    Call(New(b"\xa0", b"a")),
    Call(New(b"\xa8", b"b")),
    Call(New(b"\xb0", b"a")),
    Call(New(b"\xb8", b"b")),
    Call(New(b"\xc0", b"a")),
    Call(New(b"\xc8", b"b")),
    Call(New(b"\xd0", b"a")),
    Call(New(b"\xd8", b"b")),
    Call(New(b"\xe0", b"a")),
    Call(New(b"\xe8", b"b")),
    Call(New(b"\xf0", b"a")),
    Call(New(b"\xf8", b"b")),
];

// The second key of each of these.
const SECOND_KEYS: [&[u8]; 16] = [
    b"\x08", b"\x18", b"\x28", b"\x38", b"\x48", b"\x58", b"\x68", b"\x78", b"\x88", b"\x98",
    b"\xa8", b"\xb8", b"\xc8", b"\xd8", b"\xe8", b"\xf8",
];

/// After those keys a round carries the notice of each of the sixteen wards, and the copy names the right page in each; so
/// does another copy, to which a round carries them too.
pub static SIXTEEN_WARDS: [LiveStep; 35] = [
    Carried(16),
    Named(b"\x08", 1),
    Named(b"\x18", 1),
    Named(b"\x28", 1),
    Named(b"\x38", 1),
    Named(b"\x48", 1),
    Named(b"\x58", 1),
    Named(b"\x68", 1),
    Named(b"\x78", 1),
    Named(b"\x88", 1),
    Named(b"\x98", 1),
    Named(b"\xa8", 1),
    Named(b"\xb8", 1),
    Named(b"\xc8", 1),
    Named(b"\xd8", 1),
    Named(b"\xe8", 1),
    Named(b"\xf8", 1),
    Within(1, Is(b"\x08", b"b")),
    Within(1, Is(b"\x18", b"b")),
    Within(1, Is(b"\x28", b"b")),
    Within(1, Is(b"\x38", b"b")),
    Within(1, Is(b"\x48", b"b")),
    Within(1, Is(b"\x58", b"b")),
    Within(1, Is(b"\x68", b"b")),
    Within(1, Is(b"\x78", b"b")),
    Within(1, Is(b"\x88", b"b")),
    Within(1, Is(b"\x98", b"b")),
    Within(1, Is(b"\xa8", b"b")),
    Within(1, Is(b"\xb8", b"b")),
    Within(1, Is(b"\xc8", b"b")),
    Within(1, Is(b"\xd8", b"b")),
    Within(1, Is(b"\xe8", b"b")),
    Within(1, Is(b"\xf8", b"b")),
    Anew(16, &SECOND_KEYS, 1),
    Carried(0),
];

/// After the three keys the notice of a further split is carried by the courier's 2,000th round. A call is asked
/// 20,001 times. Over a copy that is closed a call begins at page 0, and goes by the right links of two pages.
pub static LONG: [LiveStep; 8] = [
    Carried(1),
    Idle(1_998),
    Call(New(b"\x20", b"y")),
    Carried(1),
    Named(b"\x40", 2),
    Often(20_001, Is(b"\x80", b"b")),
    Within(1, Is(b"\x80", b"b")),
    Closed(2, Is(b"\x80", b"b")),
];

/// Of the three keys these are deleted, which leaves one record in both pages.
pub(crate) static EMPTIED: [Said<'static>; 2] = [Was(b"\x40", b"x"), Was(b"\x80", b"b")];

/// They are put again, which takes a split where the pages were merged.
pub(crate) static FILLED: [Said<'static>; 2] = [New(b"\x80", b"b"), New(b"\x40", b"x")];

/// After the three keys and 300 merges and splits a round carries all 601 notices, and after 128 more all 256.
pub static FAR_BEHIND: [LiveStep; 9] = [
    Refilled(300),
    Carried(601),
    Named(b"\x80", 1),
    Within(1, Is(b"\x80", b"b")),
    Carried(0),
    Refilled(128),
    Carried(256),
    Named(b"\x80", 1),
    Carried(0),
];

/// One record in the left page and, after the split, as many in the right one as a page may have, four. They
/// are deleted down to three in both, which are too many, and down to two, which are half.
pub static EVEN_HALF: [LiveStep; 12] = [
    Call(New(b"\0", b"b")),
    Call(New(b"\x80", b"b")),
    Call(New(b"\x81", b"b")),
    Call(New(b"\x82", b"b")),
    Call(New(b"\x83", b"b")),
    Call(Was(b"\x82", b"b")),
    Call(Was(b"\x83", b"b")),
    Kept(0),
    Call(Was(b"\x81", b"b")),
    Kept(1),
    Kept(0),
    Within(1, Is(b"\x80", b"b")),
];

/// The same of five.
pub static ODD_HALF: [LiveStep; 14] = [
    Call(New(b"\0", b"b")),
    Call(New(b"\x80", b"b")),
    Call(New(b"\x81", b"b")),
    Call(New(b"\x82", b"b")),
    Call(New(b"\x83", b"b")),
    Call(New(b"\x84", b"b")),
    Call(Was(b"\x82", b"b")),
    Call(Was(b"\x83", b"b")),
    Call(Was(b"\x84", b"b")),
    Kept(0),
    Call(Was(b"\x81", b"b")),
    Kept(1),
    Kept(0),
    Within(1, Is(b"\x80", b"b")),
];

/// A round carries nothing of what the table tells. Of six puts each third takes one split, of page 0 and of
/// page 1: these are carried at once, and then one more. A courier with the cursor of a copy that was told of
/// nothing finds no notice that is next, and carries none.
pub static OPENED_COURIER: [LiveStep; 18] = [
    Named(b"\x80", 1),
    Carried(0),
    Call(New(b"\0", b"a")),
    Call(New(b"\x10", b"b")),
    Call(New(b"\x40", b"b")),
    Call(New(b"\x80", b"b")),
    Call(New(b"\x90", b"b")),
    Call(New(b"\xc0", b"b")),
    Stale(0),
    Carried(2),
    Named(b"\0", 0),
    Named(b"\x40", 2),
    Named(b"\x80", 1),
    Named(b"\xc0", 3),
    Carried(0),
    Call(New(b"\xa0", b"z")),
    Carried(1),
    Named(b"\xa0", 4),
];

/// A round carries nothing of what the table tells, the split and its merge that were changes 3 and 4. The third
/// key takes one split, change 5, which is carried, as is its merge.
pub static MERGED_COURIER: [LiveStep; 14] = [
    Named(b"\x80", 0),
    Carried(0),
    Call(New(b"\0", b"a")),
    Call(New(b"\x80", b"b")),
    Call(New(b"\x40", b"x")),
    Carried(1),
    Named(b"\x80", 1),
    Within(1, Is(b"\x80", b"b")),
    Call(Was(b"\x40", b"x")),
    Call(Was(b"\x80", b"b")),
    Kept(1),
    Carried(1),
    Named(b"\x80", 0),
    Carried(0),
];

/// After the three keys neither the split nor its merge is carried, of which the table tells; what comes after
/// them is.
pub static LATE_COURIER: [LiveStep; 11] = [
    Carried(0),
    Call(Was(b"\x40", b"x")),
    Call(Was(b"\x80", b"b")),
    Kept(1),
    Carried(0),
    Named(b"\x80", 0),
    Call(New(b"\x80", b"b")),
    Call(New(b"\x40", b"x")),
    Carried(1),
    Named(b"\x80", 1),
    Carried(0),
];

/// Both pages are empty, and stay: a later get finds the right one. Pages below are merged, which a courier
/// carries.
pub static WORN_KEEPER: [LiveStep; 15] = [
    Kept(0),
    Call(New(b"\xc0", b"y")),
    Within(1, Is(b"\xc0", b"y")),
    Call(New(b"\0", b"a")),
    Call(New(b"\x10", b"b")),
    Call(New(b"\x40", b"x")),
    Kept(0),
    Call(Was(b"\x10", b"b")),
    Call(Was(b"\x40", b"x")),
    Kept(1),
    Call(Was(b"\xc0", b"y")),
    Kept(0),
    Carried(2),
    Named(b"\x40", 0),
    Within(1, Is(b"\0", b"a")),
];

/// The file has no key, and the copy names page 9, which isn't there: a get goes on at page 0, and is answered at its
/// second turn.
pub static WRONG_HINT: [LiveStep; 3] = [
    Tell(1, "", 9),
    Held(1, b"\x80"),
    Within(2, Absent(b"\x80")),
];

/// The third put takes seven splits, of the pages of the prefixes with no zero up to six: a round carries them all, and
/// each right half has its page.
pub static SEVEN_SPLITS: [LiveStep; 9] = [
    Call(New(b"\0", b"a")),
    Call(New(b"\x01", b"b")),
    Call(New(b"\x02", b"x")),
    Carried(7),
    Named(b"\x01", 0),
    Named(b"\x80", 1),
    Named(b"\x02", 7),
    Within(1, Is(b"\x02", b"x")),
    Carried(0),
];

/// How many steps the next list has.
pub const FAULT_COUNT: usize = 17;

/// Puts that take one split, deletes that leave a merge, and a put that takes two splits, of which one makes a page live
/// again that was merged away.
pub static FAULTS: [LiveStep; FAULT_COUNT] = [
    Call(New(b"\0", b"a")),
    Call(New(b"\x80", b"b")),
    Call(New(b"\x40", b"x")),
    Carried(1),
    Kept(0),
    Call(Was(b"\x40", b"x")),
    Call(Was(b"\x80", b"b")),
    Kept(1),
    Kept(0),
    Carried(1),
    Call(New(b"\x40", b"x")),
    Call(New(b"\x20", b"y")),
    Carried(2),
    Call(Is(b"\0", b"a")),
    Call(Is(b"\x20", b"y")),
    Call(Is(b"\x40", b"x")),
    Call(Absent(b"\x80")),
];

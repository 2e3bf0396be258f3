//! Lists of events of a new file of one ward, of pages of two records and of keyer plain, with two copies: what each comes
//! to, worked out by hand from docs/DEFINITIONS.md.

use crate::row::Change;
use crate::row::Row::{
    self, Begin, Done, Joined, Merge, Moved, MustSplit, NoMerge, NoSplit, Restarted, Sent, Split,
    Taken,
};
use exh_fixtures::Said::{self, Absent, Changed, Differs, Full, Is, New, Swapped, Unswapped, Was};
use exh_ward::WardFault;

/// A list of events, those that it has in common with others and those of its own, what it is called, and at least how
/// many calls of pages they make.
#[derive(Clone, Copy)]
pub(crate) struct List {
    pub(crate) name: &'static str,
    pub(crate) rows: [&'static [Row]; 2],
    pub(crate) least: u64,
}

/// All lists. Of the calls of pages there are, list by list: those of begun requests, of hops, of splits, of merges and of
/// refused changes.
pub(crate) const LISTS: [List; 5] = [
    List {
        name: "revived page",
        rows: [&THREE_KEYS, &REVIVED],
        least: 5 + 10 + 4 + 3,
    },
    List {
        name: "late table",
        rows: [&THREE_KEYS, &LATE_TABLE],
        least: 4 + 9 + 2 + 3,
    },
    List {
        name: "all splits",
        rows: [&[], &ALL_SPLITS],
        least: 4 + 9 + 40 + 1,
    },
    List {
        name: "swaps",
        rows: [&THREE_KEYS, &SWAPS],
        least: 9 + 18 + 2,
    },
    List {
        name: "restarted copy",
        rows: [&THREE_KEYS, &RESTARTED_COPY],
        least: 7 + 14 + 2 + 3 + 3,
    },
];

const PUT_A: Said<'static> = New(b"\0", b"a");

const PUT_B: Said<'static> = New(b"\x80", b"b");

const PUT_X: Said<'static> = New(b"\x40", b"x");

const DEL_X: Said<'static> = Was(b"\x40", b"x");

const GET_B: Said<'static> = Is(b"\x80", b"b");

// The changes at the root: a split, a merge, and the split by which page 1 is live again.
const FIRST: Change = Change(1, "", 1, Some(1));

const SECOND: Change = Change(2, "", 2, None);

const THIRD: Change = Change(3, "", 3, Some(1));

// Three keys, for the last of which the root is split.
const THREE_KEYS: [Row; 8] = [
    Begin(1, 1, PUT_A, 0),
    Done(1, PUT_A, 0, 0),
    Begin(2, 1, PUT_B, 0),
    Done(2, PUT_B, 0, 0),
    Begin(3, 1, PUT_X, 0),
    MustSplit(3),
    Split(0, FIRST),
    Done(3, PUT_X, 0, 1),
];

// The page of the prefix 1 is merged away under a request, and live again.
const REVIVED: [Row; 7] = [
    Taken(1, FIRST),
    Begin(5, 1, GET_B, 1),
    Begin(6, 1, DEL_X, 0),
    Done(6, DEL_X, 0, 0),
    Merge(0, SECOND),
    Split(0, THIRD),
    Done(5, GET_B, 0, 2),
];

// A table that was sent before a merge reaches a copy behind its notice.
const LATE_TABLE: [Row; 8] = [
    Taken(1, FIRST),
    Sent(1, 1),
    Begin(4, 1, DEL_X, 0),
    Done(4, DEL_X, 0, 0),
    Merge(0, SECOND),
    Taken(1, SECOND),
    Taken(2, SECOND),
    Joined(2, 1),
];

// Keys of equal pseudokeys.
const ONE: Said<'static> = New(b"\0\0", b"a");

const OTHER: Said<'static> = New(b"\0\0\0", b"b");

const NO_ROOM: Said<'static> = Full(b"\0\0\0\0", b"c");

const CHANGED: Said<'static> = Changed(b"\0\0", b"d", b"a");

// Two keys of equal pseudokeys fill a page: no split helps a third one, not the sixteenth and not the last, and then it is
// turned away, and no more split is made.
const ALL_SPLITS: [Row; 31] = [
    Begin(1, 1, ONE, 0),
    Done(1, ONE, 0, 0),
    Begin(2, 1, OTHER, 0),
    Done(2, OTHER, 0, 0),
    Begin(3, 1, NO_ROOM, 0),
    MustSplit(3),
    Split(0, Change(1, "", 1, Some(1))),
    Split(0, Change(2, "0", 1, Some(2))),
    Split(0, Change(3, "00", 1, Some(3))),
    Split(0, Change(4, "000", 1, Some(4))),
    Split(0, Change(5, "0000", 1, Some(5))),
    Split(0, Change(6, "00000", 1, Some(6))),
    Split(0, Change(7, "000000", 1, Some(7))),
    Split(0, Change(8, "0000000", 1, Some(8))),
    Split(0, Change(9, "00000000", 1, Some(9))),
    Split(0, Change(10, "000000000", 1, Some(10))),
    Split(0, Change(11, "0000000000", 1, Some(11))),
    Split(0, Change(12, "00000000000", 1, Some(12))),
    Split(0, Change(13, "000000000000", 1, Some(13))),
    Split(0, Change(14, "0000000000000", 1, Some(14))),
    Split(0, Change(15, "00000000000000", 1, Some(15))),
    Split(0, Change(16, "000000000000000", 1, Some(16))),
    MustSplit(3),
    Split(0, Change(17, "0000000000000000", 1, Some(17))),
    Split(0, Change(18, "00000000000000000", 1, Some(18))),
    Split(0, Change(19, "000000000000000000", 1, Some(19))),
    Split(0, Change(20, "0000000000000000000", 1, Some(20))),
    Done(3, NO_ROOM, 0, 20),
    Begin(4, 1, CHANGED, 0),
    Done(4, CHANGED, 0, 0),
    NoSplit(0, WardFault::AtLimit),
];

const SWAP_B: Said<'static> = Swapped(b"\x80", b"b", b"c");

const SWAP_OTHER: Said<'static> = Differs(b"\0", b"b", b"c", b"a");

const SWAP_ABSENT: Said<'static> = Unswapped(b"\x20", b"a", b"b");

const PUT_D: Said<'static> = Changed(b"\x80", b"d", b"c");

const SWAP_X: Said<'static> = Swapped(b"\x40", b"x", b"y");

const GET_NONE: Said<'static> = Absent(b"\xc0");

// After the three keys, of which no copy is told: swaps of the value that stands, of another one, and of none.
const SWAPS: [Row; 14] = [
    Begin(4, 2, SWAP_B, 0),
    Moved(4, 1),
    Done(4, SWAP_B, 1, 1),
    Begin(5, 1, SWAP_OTHER, 0),
    Done(5, SWAP_OTHER, 0, 0),
    Begin(6, 1, SWAP_ABSENT, 0),
    Done(6, SWAP_ABSENT, 0, 0),
    Begin(7, 1, PUT_D, 0),
    Moved(7, 1),
    Done(7, PUT_D, 1, 1),
    Begin(8, 2, SWAP_X, 0),
    Done(8, SWAP_X, 0, 0),
    Begin(9, 1, GET_NONE, 0),
    Moved(9, 1),
];

// What the lists above lack: a split and a merge that are refused for the page's records, requests that are begun at a
// copy which the late table told nothing, and at a page that is merged away, and a copy that restarts and is told of the
// split by that table.
const RESTARTED_COPY: [Row; 19] = [
    NoSplit(1, WardFault::NotFull),
    NoMerge(0, WardFault::TooMany(3)),
    Taken(1, FIRST),
    Sent(1, 1),
    Begin(4, 1, DEL_X, 0),
    Done(4, DEL_X, 0, 0),
    Merge(0, SECOND),
    Taken(2, SECOND),
    Joined(2, 1),
    Begin(5, 2, GET_B, 0),
    Done(5, GET_B, 0, 0),
    Begin(6, 1, GET_B, 1),
    Moved(6, 0),
    Done(6, GET_B, 1, 1),
    Restarted(2),
    Joined(2, 1),
    Begin(7, 2, GET_B, 1),
    Moved(7, 0),
    Done(7, GET_B, 1, 1),
];

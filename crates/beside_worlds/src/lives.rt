//! What happens in a world and in one that is made of its wards, and what each line prints: worked out by hand. They are
//! of a file of one ward, of pages of two records. All notices are at the root, so indexes and numbers rise together.

use crate::answers::Line;
use exh_fixtures::{Asked, Difference, merge, prefix, split, value};
use exh_notice::Notice;
use exh_ward::{JournalEntry, Reply};

/// The first world, of two copies: the three keys, a merge and a page that is live again; a request is left at page 1.
pub(crate) const FIRST: [Line; 22] = [
    ("begin r1 c1 1 put #00 a", "r1 at 0/0\n"),
    ("hop r1", "r1 new moves 0 of 0\n"),
    ("begin r1 c1 1 put #80 b", "r1 at 0/0\n"),
    ("hop r1", "r1 new moves 0 of 0\n"),
    ("begin r1 c1 1 put #40 x", "r1 at 0/0\n"),
    ("hop r1", "r1 split\n"),
    ("split 0 0", "notice 0/1 prefix - number 1 split right 1\n"),
    ("hop r1", "r1 new moves 0 of 1\n"),
    ("deliver 1 0 2", "refused 22\n"),
    ("deliver 1 0 1", "copy 1 took 0/1\n"),
    ("begin r1 c1 1 del #40", "r1 at 0/0\n"),
    ("hop r1", "r1 was x moves 0 of 0\n"),
    ("merge 0 0", "notice 0/2 prefix - number 2 merge\n"),
    ("begin r1 c1 1 put #40 y", "r1 at 0/0\n"),
    ("hop r1", "r1 split\n"),
    ("split 0 0", "notice 0/3 prefix - number 3 split right 1\n"),
    ("hop r1", "r1 new moves 0 of 1\n"),
    ("begin r1 c1 1 get #80", "r1 at 0/1\n"),
    ("hop r1", "r1 is b moves 0 of 0\n"),
    ("send 1", "table 1\n"),
    ("begin r6 c1 2 get #80", "r6 at 0/0\n"),
    ("hop r6", "r6 moved 0/1\n"),
];

/// What the world that is made of the wards begins with, of three copies: the request and the sent table are gone.
pub(crate) const GONE: [Line; 4] = [
    ("inflight", "inflight 0\n"),
    ("hop r6", "refused 21\n"),
    ("combine 1 1", "refused 23\n"),
    ("send 4", "refused 20\n"),
];

/// The second world: copy 1 has the wards' table, takes each old notice again, and keeps its table; the index after them
/// is no notice yet. A get needs no move, and no old change counts in its bound. The next merge goes on from the old
/// changes.
pub(crate) const SECOND: [Line; 12] = [
    (
        "show 1",
        "copy 1 depth 1\nentry - number 3 split right 1\nleaf 0 0/0\nleaf 1 0/1\n",
    ),
    ("deliver 1 0 1", "copy 1 took 0/1\n"),
    ("deliver 1 0 2", "copy 1 took 0/2\n"),
    ("deliver 1 0 3", "copy 1 took 0/3\n"),
    (
        "show 1",
        "copy 1 depth 1\nentry - number 3 split right 1\nleaf 0 0/0\nleaf 1 0/1\n",
    ),
    ("deliver 1 0 4", "refused 22\n"),
    ("begin r1 c1 1 get #80", "r1 at 0/1\n"),
    ("hop r1", "r1 is b moves 0 of 0\n"),
    ("begin r1 c1 3 del #40", "r1 at 0/0\n"),
    ("hop r1", "r1 was y moves 0 of 0\n"),
    ("merge 0 0", "notice 0/4 prefix - number 4 merge\n"),
    ("deliver 1 0 4", "copy 1 took 0/4\n"),
];

/// The notices of both worlds. Page 1 is there from the first split on.
pub(crate) fn notices() -> Result<[Notice; 4], Difference> {
    let root = prefix("")?;
    Ok([
        split(1, root, 1, 1),
        merge(2, root, 2),
        split(3, root, 3, 1),
        merge(4, root, 4),
    ])
}

/// The answers of both worlds.
pub(crate) fn journal() -> Result<[JournalEntry; 8], Difference> {
    let new = Reply::New;
    let get_b = entry(Asked::Get(b"\x80"), Reply::Is(value(b"b")?))?;
    let del_x = entry(Asked::Del(b"\x40"), Reply::Was(value(b"x")?))?;
    let del_y = entry(Asked::Del(b"\x40"), Reply::Was(value(b"y")?))?;
    let put_a = entry(Asked::Put(b"\0", b"a"), new)?;
    let put_b = entry(Asked::Put(b"\x80", b"b"), new)?;
    let put_x = entry(Asked::Put(b"\x40", b"x"), new)?;
    let put_y = entry(Asked::Put(b"\x40", b"y"), new)?;
    Ok([
        put_a, put_b, put_x, del_x, put_y, get_b, // the first world
        get_b, del_y, // the second
    ])
}

fn entry(asked: Asked<'_>, reply: Reply) -> Result<JournalEntry, Difference> {
    Ok(JournalEntry::new(1, &asked.call()?, &reply))
}

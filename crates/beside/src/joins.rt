//! Directories that are told of notices which no world's wards issue together, and their joins, beside what was worked
//! out by hand.

ghost use Rattle.std.specs.Prelude.{◌≤◌};
ghost use Rattle.exh_prefix.specs.declared.prefix.TheConstants.{LIMIT};

use exh_array::{Directory, Pointers};
use exh_fixtures::{Difference, Part, Run, again, merge, prefix, same, split};
use exh_join::Join;
use exh_prefix::{LIMIT, PageNo, Prefix};
use exh_table::Table;
use std::alloc::{AllocError, Global};

// A notice at a prefix, of this number: a split with this right half, or a merge.
type Told = (&'static str, u32, Option<PageNo>);

// A leaf and its page.
type Leaf = (&'static str, PageNo);

// Splits below a leaf among them.
const SOME: [Told; 4] = [
    ("", 1, Some(5)),
    ("01", 3, Some(7)),
    ("1", 2, None),
    ("10", 1, Some(9)),
];

// Of two at one prefix the later number counts, whichever comes first.
const OTHERS: [Told; 6] = [
    ("1", 3, Some(4)),
    ("", 3, Some(2)),
    ("", 2, None),
    ("01", 1, Some(8)),
    ("0", 1, Some(6)),
    ("1", 2, None),
];

// The leaves of one ward that is told of some, of the others and of all.
const ONE_WARD: [&[Leaf]; 3] = [
    &[("0", 0), ("1", 5)],
    &[("00", 0), ("010", 6), ("011", 8), ("10", 2), ("11", 4)],
    &[
        ("00", 0),
        ("010", 6),
        ("011", 7),
        ("100", 2),
        ("101", 9),
        ("11", 4),
    ],
];

// The same of four wards: what is told at shorter prefixes isn't met.
const FOUR_WARDS: [&[Leaf]; 3] = [
    &[
        ("00", 0),
        ("010", 0),
        ("011", 7),
        ("100", 0),
        ("101", 9),
        ("11", 0),
    ],
    &[("00", 0), ("010", 0), ("011", 8), ("10", 0), ("11", 0)],
    &[
        ("00", 0),
        ("010", 0),
        ("011", 7),
        ("100", 0),
        ("101", 9),
        ("11", 0),
    ],
];

// Notices in the order told, the depth of one ward's array of pointers then, and its pages, each with the first pseudokey
// of its pointer.
type Array = (&'static [Told], u8, &'static [(u64, PageNo)]);

const ARRAYS: [Array; 5] = [
    (&[], 0, &[(0, 0)]),
    // Walks don't come to this split yet.
    (&[("0", 1, Some(2))], 0, &[(0, 0)]),
    // Now they do: the array is doubled twice at once.
    (
        &[("0", 1, Some(2)), ("", 1, Some(1))],
        2,
        &[(0, 0), (1 << 62, 2), (2 << 62, 1), (3 << 62, 1)],
    ),
    (&[("", 1, Some(1))], 1, &[(0, 0), (1 << 63, 1)]),
    // Merged, it is halved.
    (&[("", 1, Some(1)), ("", 2, None)], 0, &[(0, 0)]),
];

/// Tells directories of one ward and of four, makes one of the most wards, and one as deep as may be.
pub(crate) fn run(run: &mut Run) -> Result<(), Difference> {
    run_wards(run, 0, &ONE_WARD)?;
    run_wards(run, 2, &FOUR_WARDS)?;
    run_arrays(run)?;
    let most = has_most_wards(run.alloc);
    run.tally.step(most);
    let mut chain = again!(Err(AllocError) => Directory::new(run.alloc, 0))?;
    run.tally.step(take_chain(&mut chain));
    Ok(())
}

fn run_arrays(run: &mut Run) -> Result<(), Difference> {
    for array in &ARRAYS {
        let mut directory = again!(Err(AllocError) => Directory::new(run.alloc, 0))?;
        run.tally.step(has_array(&mut directory, array));
    }
    Ok(())
}

// A directory that is told of the notices has the array.
fn has_array(directory: &mut Directory, array: &Array) -> Result<(), Difference> {
    let (told, depth, pages) = *array;
    take_all(directory, told)?;
    let pointers = directory.pointers();
    same(pointers.depth() == depth, Part::Depth)?;
    for (pseudokey, page) in pages {
        same(pointers.page(*pseudokey) == *page, Part::Pointer)?;
    }
    Ok(())
}

// Who owns directories has few exits, for the prover's sake: each drops them.
fn run_wards(run: &mut Run, ward_bits: u8, leaves: &[&[Leaf]; 3]) -> Result<(), Difference>
    requires { ward_bits ≤ LIMIT }
{
    let mut first = again!(Err(AllocError) => Directory::new(run.alloc, ward_bits))?;
    let mut second = again!(Err(AllocError) => Directory::new(run.alloc, ward_bits))?;
    join_both(run, ward_bits, &mut first, &mut second, leaves)
}

fn join_both(
    run: &mut Run,
    ward_bits: u8,
    first: &mut Directory,
    second: &mut Directory,
    leaves: &[&[Leaf]; 3],
) -> Result<(), Difference>
    requires { ward_bits ≤ LIMIT }
{
    let [some, others, all] = leaves;
    let wrong = run.lie.is_due();
    take_all(first, &SOME)?;
    let is_some = has_leaves(first, ward_bits, some).is_ok();
    run.tally.step(same(is_some != wrong, Part::Pointer));
    take_all(second, &OTHERS)?;
    run.tally.step(has_leaves(second, ward_bits, others));
    let before = again!(Err(AllocError) => first.table().try_clone())?;
    join(first, second.table())?;
    run.tally.step(has_leaves(first, ward_bits, all));
    join(second, &before)?;
    run.tally.step(has_leaves(second, ward_bits, all));
    let is_one = first.table().entries().eq(second.table().entries());
    run.tally.step(same(is_one, Part::Entries));
    take_all(first, &OTHERS)?;
    run.tally.step(has_leaves(first, ward_bits, all));
    Ok(())
}

fn join(directory: &mut Directory, table: &Table) -> Result<(), AllocError> {
    again!(Err(AllocError) => directory.join_in(table))
}

fn take_all(directory: &mut Directory, all: &[Told]) -> Result<(), Difference> {
    for (bits, number, right) in all {
        let at = prefix(bits)?;
        let notice = match right {
            Some(right) => split(1, at, *number, *right),
            None => merge(1, at, *number),
        };
        again!(Err(AllocError) => directory.take(&notice))?;
    }
    Ok(())
}

// A directory and its array have these leaves, no others, and name their pages.
fn has_leaves(directory: &Directory, ward_bits: u8, leaves: &[Leaf]) -> Result<(), Difference>
    requires { ward_bits ≤ LIMIT }
{
    let listed = again!(Err(AllocError) => directory.table().leaves(ward_bits))?;
    same(listed.len() == leaves.len(), Part::Leaves)?;
    let mut depth = 0;
    for (leaf, (bits, page)) in listed.iter().zip(leaves) {
        let own = prefix(bits)?;
        same(leaf.prefix == own && leaf.page == *page, Part::Leaves)?;
        let last = own.low() | u64::MAX.wrapping_shr(u32::from(own.len()));
        is_at(directory, own.low(), *page, own.len())?;
        is_at(directory, last, *page, own.len())?;
        depth = own.len().max(depth);
    }
    same(directory.depth() == depth, Part::Depth)
}

// A pseudokey has this page and local depth.
fn is_at(
    directory: &Directory,
    pseudokey: u64,
    page: PageNo,
    local_depth: u8,
) -> Result<(), Difference> {
    let pointers = directory.pointers();
    let is_page = directory.walk(pseudokey) == page && pointers.page(pseudokey) == page;
    let is_length = pointers.local_depth(pseudokey) == local_depth;
    same(is_page && is_length, Part::Pointer)
}

// As many wards as there may be: none of them can be split.
fn has_most_wards(alloc: Global) -> Result<(), Difference> {
    let pointers = again!(Err(AllocError) => Pointers::new(alloc, LIMIT))?;
    for leading in 0..1u64 << LIMIT {
        let pseudokey = leading << (64 - LIMIT);
        let is_page = pointers.page(pseudokey) == 0;
        let is_length = pointers.local_depth(pseudokey) == LIMIT;
        same(is_page && is_length, Part::Pointer)?;
    }
    same(pointers.depth() == LIMIT, Part::Depth)
}

// Splits at 0 to `LIMIT` zeros make a directory as deep as may be, of which the last is not passed, and merges make it
// flat again; then, told of the longest first, it is made deep by the split at the root, and flat by a merge there. Its
// array is doubled and halved one by one, and then all at once.
fn take_chain(directory: &mut Directory) -> Result<(), Difference> {
    for zeros in 0..=LIMIT {
        take_zeros(directory, zeros, 1, (zeros + 1).min(LIMIT))?;
    }
    is_chain(directory)?;
    for zeros in (0..LIMIT).rev() {
        take_zeros(directory, zeros, 2, zeros)?;
    }
    for zeros in (1..=LIMIT).rev() {
        take_zeros(directory, zeros, 3, 0)?;
    }
    take_zeros(directory, 0, 3, LIMIT)?;
    is_chain(directory)?;
    take_zeros(directory, 0, 4, 0)
}

// A split at so many zeros, to the page after their number, or a merge. The directory is then so deep.
fn take_zeros(
    directory: &mut Directory,
    zeros: u8,
    number: u32,
    depth: u8,
) -> Result<(), Difference> {
    let at = Prefix::new(zeros, 0).ok_or(Difference::Apart(Part::Run))?;
    let notice = match number % 2 {
        0 => merge(1, at, number),
        _ => split(1, at, number, PageNo::from(zeros) + 1),
    };
    again!(Err(AllocError) => directory.take(&notice))?;
    same(directory.depth() == depth, Part::Depth)
}

// Where the first 1 of a pseudokey comes after fewer than `LIMIT` zeros, it is on the page after their number, and else
// on page 0.
fn is_chain(directory: &Directory) -> Result<(), Difference> {
    for zeros in 0..LIMIT {
        for pseudokey in [0x8000_0000_0000_0000 >> zeros, u64::MAX >> zeros] {
            is_at(directory, pseudokey, PageNo::from(zeros) + 1, zeros + 1)?;
        }
    }
    for pseudokey in [0, 1, 0x8000_0000_0000_0000 >> LIMIT, u64::MAX >> LIMIT] {
        is_at(directory, pseudokey, 0, LIMIT)?;
    }
    Ok(())
}

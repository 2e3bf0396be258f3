//! The leaves and the greatest entries that notices leave, worked out by hand.

use exh_fixtures::{Difference, Part, merge, prefix, same, split};
use exh_model::{LeafSet, greatest_of};
use exh_notice::{Entry, Kind, Notice};
use exh_prefix::{LIMIT, PageNo, Prefix};
use std::alloc::Global;

// What stands at a prefix: a number, and the right page of a split.
type Row = Option<(u32, Option<PageNo>)>;

// What a beginning of the changes leaves: the leaves, and what stands at the root and at its left half.
type Left = (&'static [&'static str], Row, Row);

// After each change: the root is split, its left half is, and both are merged again.
const LEFT: [Left; 5] = [
    (&[""], None, None),
    (&["0", "1"], Some((1, Some(1))), None),
    (&["00", "01", "1"], Some((1, Some(1))), Some((1, Some(2)))),
    (&["0", "1"], Some((1, Some(1))), Some((2, None))),
    (&[""], Some((2, None)), Some((2, None))),
];

fn changes() -> Result<[Notice; 4], Difference> {
    let (root, left) = (prefix("")?, prefix("0")?);
    Ok([
        split(1, root, 1, 1),
        split(2, left, 1, 2),
        merge(3, left, 2),
        merge(4, root, 2),
    ])
}

// Whether the changes leave these leaves of the root alone, in this order.
fn have_leaves(alloc: Global, changes: &[Notice], leaves: &[&str]) -> Result<bool, Difference> {
    same(changes.iter().all(|it| it.prefix.len() < LIMIT), Part::Run)?;
    let left = LeafSet::after(alloc, &[prefix("")?], changes)?.prefixes()?;
    for (at, leaf) in leaves.iter().enumerate() {
        if left.get(at).copied() != Some(prefix(leaf)?) {
            return Ok(false);
        }
    }
    Ok(left.len() == leaves.len())
}

fn has_greatest(notices: &[Notice], prefix: Prefix, row: Row) -> bool {
    let entry = row.map(|(number, right)| {
        let kind = right.map_or(Kind::Merge, |right| Kind::Split { right });
        Entry { number, kind }
    });
    greatest_of(notices, prefix) == entry
}

// Whether each beginning of the changes leaves what is right, and the last two told the other way round the same entries.
fn are_left(alloc: Global) -> Result<bool, Difference> {
    let [first, second, third, fourth] = changes()?;
    let changes = [first, second, third, fourth];
    let (root, left) = (prefix("")?, prefix("0")?);
    for (at, (leaves, at_root, at_left)) in LEFT.iter().enumerate() {
        let begun = &changes[..at];
        if !have_leaves(alloc, begun, leaves)?
            || !has_greatest(begun, root, *at_root)
            || !has_greatest(begun, left, *at_left)
        {
            return Ok(false);
        }
    }
    let other_way = [fourth, third, second, first];
    Ok(
        has_greatest(&other_way, root, Some((2, None)))
            && has_greatest(&other_way, left, Some((2, None))),
    )
}

// A split and its merge leave the one leaf that was there, and the merge's entry, whichever is told first.
fn is_merged_again(alloc: Global) -> Result<bool, Difference> {
    let root = prefix("")?;
    let (one, other) = (split(1, root, 1, 1), merge(2, root, 2));
    let merged = Some((2, None));
    Ok(
        have_leaves(alloc, &[one, other], &[""])?
            && has_greatest(&[one, other], root, merged)
            && has_greatest(&[other, one], root, merged),
    )
}

#[test]
fn leaves_and_greatest_entries(rt: HostRuntime) {
    assert!(rt; matches!(are_left(rt.alloc()), Ok(true)));
    assert!(rt; matches!(is_merged_again(rt.alloc()), Ok(true)));
}

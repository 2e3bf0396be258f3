//! Joins worked out by hand: of pairs, of tables that no one file has, and replicas.

use exh_join::{Greatest, Join, PairOf, Replica, join_all};
use exh_notice::{Entry, Kind, Notice};
use exh_prefix::{PageNo, Prefix};
use exh_table::Table;
use std::alloc::Global;

type Pair = PairOf<Greatest, Greatest>;

fn pair(first: u64, second: u64) -> Pair {
    PairOf {
        first: Greatest { number: first },
        second: Greatest { number: second },
    }
}

fn are_joined() -> bool {
    let numbers = [3, 5, 4].map(|number| Greatest { number });
    let three = [pair(3, 9), pair(5, 2), pair(4, 3)];
    join_all::<Pair>(&[]).is_ok_and(|joined| joined.is_none())
        && join_all(&numbers).is_ok_and(|joined| joined == Some(Greatest { number: 5 }))
        && join_all(&three).is_ok_and(|joined| joined == Some(pair(5, 9)))
}

// A replica takes a pair, and another the same by another way: twice, through a third.
fn replicas_meet() -> bool {
    let mut one = Replica::new(pair(1, 9));
    let mut other = Replica::new(pair(1, 9));
    let mut third = Replica::new(pair(1, 9));
    one.take(&pair(4, 2)).is_ok()
        && third.take(&pair(4, 2)).is_ok()
        && third.take(&pair(4, 2)).is_ok()
        && other.combine(&third).is_ok()
        && other.combine(&third).is_ok()
        && *one.value() == pair(4, 9)
        && *other.value() == pair(4, 9)
        && *third.value() == pair(4, 9)
}

#[test]
fn pairs_and_replicas(rt: HostRuntime) {
    assert!(rt; are_joined());
    assert!(rt; replicas_meet());
}

// A prefix of zeros by its length, a number, and a split's right page.
type Row = (u8, u32, Option<PageNo>);

// The entries of two tables, whether the first is at most the second, and their join's entries with
// its depth.
type Union = (&'static [Row], &'static [Row], bool, &'static [Row], u8);

const UNIONS: [Union; 4] = [
    // A late table takes nothing back, whichever joins the other.
    (
        &[(0, 1, Some(1)), (1, 1, Some(2))],
        &[(0, 2, None)],
        false,
        &[(0, 2, None), (1, 1, Some(2))],
        0,
    ),
    // At equal numbers a merge stands before a split, and splits are ordered by right page.
    (
        &[(0, 3, None)],
        &[(0, 3, Some(0))],
        true,
        &[(0, 3, Some(0))],
        1,
    ),
    (
        &[(0, 3, Some(0))],
        &[(0, 3, Some(2))],
        true,
        &[(0, 3, Some(2))],
        1,
    ),
    // Each has what the other lacks.
    (
        &[(0, 1, Some(1))],
        &[(1, 1, Some(2))],
        false,
        &[(0, 1, Some(1)), (1, 1, Some(2))],
        2,
    ),
];

fn notice(row: Row) -> Option<Notice> {
    let (len, number, right) = row;
    let kind = match right {
        Some(right) => Kind::Split { right },
        None => Kind::Merge,
    };
    Some(Notice {
        ward: 0,
        index: 1,
        prefix: Prefix::new(len, 0)?,
        number,
        kind,
    })
}

fn has_entries(table: &Table, want: &[Row]) -> Option<bool> {
    let mut entries = table.entries();
    for row in want {
        let due = notice(*row)?;
        let (prefix, told): (&Prefix, &Entry) = entries.next()?;
        if *prefix != due.prefix || *told != due.entry() {
            return Some(false);
        }
    }
    Some(entries.next().is_none())
}

fn fill(table: &mut Table, rows: &[Row]) -> Option<()> {
    for row in rows {
        table.take(&notice(*row)?).ok()?;
    }
    Some(())
}

// Whether a table joins another to these entries, of this depth, and stands below the join.
fn joins_to(one: &Table, other: &Table, want: &[Row], depth: u8) -> Option<bool> {
    let mut joined = one.try_clone().ok()?;
    joined.join_in(other).ok()?;
    Some(has_entries(&joined, want)? && joined.depth(0) == depth && one.at_most(&joined))
}

fn is_union(one: &mut Table, other: &mut Table, union: &Union) -> Option<bool> {
    let (first, second, is_below, want, depth) = *union;
    fill(one, first)?;
    fill(other, second)?;
    Some(
        one.at_most(other) == is_below
            && !other.at_most(one)
            && joins_to(one, other, want, depth)?
            && joins_to(other, one, want, depth)?,
    )
}

fn wrong_union(alloc: Global) -> Option<usize> {
    for (at, union) in UNIONS.iter().enumerate() {
        if is_union(&mut Table::new(alloc), &mut Table::new(alloc), union) != Some(true) {
            return Some(at);
        }
    }
    None
}

#[test]
fn tables_both_ways_round(rt: HostRuntime) {
    assert_eq!(rt; wrong_union(rt.alloc()), None);
}

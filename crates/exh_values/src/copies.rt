//! Copies worked out by hand: stories of one writer and its readers, and of two copies, and more readers than
//! there are places.
ghost use Rattle.std.specs.Prelude.{◌≡◌, ℕ, IfSome};
ghost use Rattle.exh_copy.specs.Additions.{AreOf};

use exh_copy::{CopyReader, CopyWriter, NewCopyFault, NoPlace, new_copy};
use exh_notice::{Kind, Notice};
use exh_prefix::PageNo;
use exh_table::{Leaf, Table};
use std::alloc::{AllocError, Global};
use std::marker::Brand;
use std::sync::Wait;

type Writer = CopyWriter<Brand>;

type Reader = CopyReader<Brand>;

// The pseudokey `#80`.
const HALF: u64 = 0x8000_0000_0000_0000;

// A notice at the root: its number, and a split's right page.
type Row = (u32, Option<PageNo>);

const SPLIT: Row = (1, Some(1));

const MERGE: Row = (2, None);

#[derive(Clone, Copy)]
enum Step {
    Take(Row),
    // Joins the table that has the notice alone.
    Combine(Row),
    Publish,
    // The writer hands on to the reader, which learns it.
    HandOn(usize),
    // The reader names this page for `#80`.
    Look(usize, PageNo),
    // The reader names one of two pages that follow on one another.
    LookEither(usize, PageNo),
}

// How many readers there are, and what happens.
type Story = (u16, &'static [Step]);

const STORIES: [Story; 5] = [
    (
        2,
        &[
            Step::Look(0, 0),
            Step::Take(SPLIT),
            Step::Look(0, 0),
            Step::Look(1, 0),
            Step::Publish,
            Step::HandOn(0),
            Step::Look(0, 1),
            Step::LookEither(1, 0),
            Step::LookEither(1, 0),
            Step::HandOn(1),
            Step::Look(1, 1),
        ],
    ),
    // A table that was sent before the merge comes late, and takes nothing back.
    (
        1,
        &[
            Step::Take(SPLIT),
            Step::Publish,
            Step::HandOn(0),
            Step::Look(0, 1),
            Step::Take(MERGE),
            Step::Publish,
            Step::HandOn(0),
            Step::Look(0, 0),
            Step::Combine(SPLIT),
            Step::Publish,
            Step::HandOn(0),
            Step::Look(0, 0),
        ],
    ),
    // What is pending isn't handed on: both readers learn the list that is published, and it is none.
    (
        2,
        &[
            Step::Take(SPLIT),
            Step::HandOn(0),
            Step::Look(0, 0),
            Step::HandOn(1),
            Step::Look(1, 0),
            Step::Publish,
            Step::Take(MERGE),
            Step::HandOn(0),
            Step::Look(0, 1),
            Step::Publish,
            Step::HandOn(0),
            Step::Look(0, 0),
        ],
    ),
    // A list that is as long as the reader's own is handed on, once more and to both.
    (
        2,
        &[
            Step::Take(SPLIT),
            Step::Publish,
            Step::HandOn(0),
            Step::HandOn(0),
            Step::Look(0, 1),
            Step::HandOn(0),
            Step::Look(0, 1),
            Step::HandOn(1),
            Step::HandOn(1),
            Step::Look(1, 1),
            Step::Take(MERGE),
            Step::Publish,
            Step::HandOn(1),
            Step::Look(1, 0),
        ],
    ),
    // All that is pending is published at once, the notice that was told late with it.
    (
        1,
        &[
            Step::Take(MERGE),
            Step::Take(SPLIT),
            Step::Combine((3, Some(5))),
            Step::Look(0, 0),
            Step::Publish,
            Step::HandOn(0),
            Step::Look(0, 5),
            Step::Publish,
            Step::HandOn(0),
            Step::Look(0, 5),
        ],
    ),
];

// Of two copies the first was told of the split and the merge, the second of the split alone, three times, and of
// the merge later: its list is the longer one. No look at either goes back.
const TWO_COPIES: [(u8, Step); 19] = [
    (0, Step::Look(0, 0)),
    (1, Step::Look(0, 0)),
    (0, Step::Take(SPLIT)),
    (0, Step::Take(MERGE)),
    (0, Step::Publish),
    (0, Step::HandOn(0)),
    (0, Step::Look(0, 0)),
    (1, Step::Take(SPLIT)),
    (1, Step::Take(SPLIT)),
    (1, Step::Take(SPLIT)),
    (1, Step::Publish),
    (1, Step::HandOn(0)),
    (1, Step::Look(0, 1)),
    (0, Step::HandOn(0)),
    (0, Step::Look(0, 0)),
    (1, Step::Take(MERGE)),
    (1, Step::Publish),
    (1, Step::HandOn(0)),
    (1, Step::Look(0, 0)),
];

fn notice(row: Row) -> Notice {
    let (number, right) = row;
    Notice {
        ward: 0,
        index: u64::from(number),
        prefix: Leaf::root().prefix,
        number,
        kind: match right {
            Some(right) => Kind::Split { right },
            None => Kind::Merge,
        },
    }
}

fn table_of(alloc: Global, row: Row) -> Result<Table, AllocError> {
    let mut table = Table::new(alloc);
    table.take(&notice(row))?;
    Ok(table)
}

// What was refused is asked for once more, here and below.
fn take(writer: &mut Writer, row: Row) -> Result<(), AllocError>
    ensures { writer.new.name ≡ writer.old.name }
{
    match writer.take(&notice(row)) {
        Ok(()) => Ok(()),
        Err(_) => writer.take(&notice(row)),
    }
}

fn combine(alloc: Global, writer: &mut Writer, row: Row) -> Result<(), AllocError>
    ensures { writer.new.name ≡ writer.old.name }
{
    match table_of(alloc, row) {
        Ok(table) => combine_table(writer, &table),
        Err(_) => combine_table(writer, &table_of(alloc, row)?),
    }
}

fn combine_table(writer: &mut Writer, table: &Table) -> Result<(), AllocError>
    ensures { writer.new.name ≡ writer.old.name }
{
    match writer.combine(table) {
        Ok(()) => Ok(()),
        Err(_) => writer.combine(table),
    }
}

fn publish<R: Wait>(rt: &R, writer: &mut Writer) -> Result<(), AllocError>
    ensures { writer.new.name ≡ writer.old.name }
{
    match writer.publish(rt) {
        Ok(()) => Ok(()),
        Err(_) => writer.publish(rt),
    }
}

// Hands on to one of the readers, which are of the writer's copy.
fn tell(writer: &mut Writer, readers: &mut Vec<Reader>, at: usize) -> Option<bool>
    requires { AreOf writer.old.name readers.old.items }
    ensures { AreOf writer.new.name readers.new.items }
{
    let handed = writer.tell().ok()?;
    readers.get_mut(at)?.learn(handed);
    Some(true)
}

// The page that one of the readers names.
fn look(readers: &mut Vec<Reader>, at: usize, pseudokey: u64) -> Option<PageNo>
    ensures { (name : ℕ) → AreOf name readers.old.items → AreOf name readers.new.items }
{
    readers.get_mut(at)?.look(pseudokey)
}

// Whether a step comes to what is wanted. `seen` is the last page of a look at either of two.
fn steps<R: Wait>(
    rt: &R,
    alloc: Global,
    writer: &mut Writer,
    readers: &mut Vec<Reader>,
    seen: &mut PageNo,
    step: Step,
) -> Option<bool>
    requires { AreOf writer.old.name readers.old.items }
    ensures { AreOf writer.new.name readers.new.items }
{
    match step {
        Step::Take(row) => take(writer, row).ok()?,
        Step::Combine(row) => combine(alloc, writer, row).ok()?,
        Step::Publish => publish(rt, writer).ok()?,
        Step::HandOn(reader) => return tell(writer, readers, reader),
        Step::Look(reader, page) => return Some(look(readers, reader, HALF) == Some(page)),
        Step::LookEither(reader, first) => {
            let page = look(readers, reader, HALF)?;
            let is_right = *seen <= page && (page == first || Some(page) == first.checked_add(1));
            *seen = page;
            return Some(is_right);
        }
    }
    Some(true)
}

fn play<R: Wait>(
    rt: &R,
    alloc: Global,
    writer: &mut Writer,
    readers: &mut Vec<Reader>,
    story: &[Step],
) -> bool
    requires { AreOf writer.old.name readers.old.items }
    ensures { AreOf writer.new.name readers.new.items }
{
    let mut seen = 0;
    'steps: for step in story {
        if steps(rt, alloc, writer, readers, &mut seen, *step) != Some(true) {
            return false;
        }
    }
    true
}

// A copy of a new file; what was handed back is closed.
fn made<R: Wait>(rt: &R, alloc: Global, readers: u16) -> Option<(Writer, Vec<Reader>)>
    ensures { IfSome result (λ copy. AreOf copy.0.name copy.1.items) }
{
    match new_copy::<Brand>(alloc, 0, &Table::new(alloc), readers) {
        Ok(copy) => Some(copy),
        Err(NewCopyFault::Memory) => None,
        Err(NewCopyFault::NoPlace(writer)) => {
            drop(writer.close(rt));
            None
        }
    }
}

fn made_again<R: Wait>(rt: &R, alloc: Global, readers: u16) -> Option<(Writer, Vec<Reader>)>
    ensures { IfSome result (λ copy. AreOf copy.0.name copy.1.items) }
{
    match made(rt, alloc, readers) {
        Some(copy) => Some(copy),
        None => made(rt, alloc, readers),
    }
}

// Whether each reader names a page for each of 256 pseudokeys.
fn name_pages(readers: &mut Vec<Reader>) -> bool
    ensures { (name : ℕ) → AreOf name readers.old.items → AreOf name readers.new.items }
{
    'readers: for at in 0..readers.len() {
        'bytes: for byte in 0..=255u8 {
            if look(readers, at, u64::from(byte) << 56).is_none() {
                return false;
            }
        }
    }
    true
}

// A story, over which no look is in vain; after it the copy is closed: then no reader names a page.
fn is_story<R: Wait>(rt: &R, alloc: Global, story: &Story) -> bool {
    let Some((mut writer, mut readers)) = made_again(rt, alloc, story.0) else {
        return false;
    };
    let is_played = readers.len() == usize::from(story.0)
        && name_pages(&mut readers)
        && play(rt, alloc, &mut writer, &mut readers, story.1)
        && name_pages(&mut readers);
    drop(writer.close(rt));
    is_played && are_closed(readers.as_mut_slice())
}

fn are_closed(readers: &mut [Reader]) -> bool {
    for reader in readers {
        if reader.look(HALF).is_some() {
            return false;
        }
    }
    true
}

// The story of two copies, each of which has a reader.
fn play_two<R: Wait>(
    rt: &R,
    alloc: Global,
    writer: &mut Writer,
    readers: &mut Vec<Reader>,
    other_writer: &mut Writer,
    other_readers: &mut Vec<Reader>,
) -> bool
    requires own { AreOf writer.old.name readers.old.items }
    requires others { AreOf other_writer.old.name other_readers.old.items }
{
    let mut seen = 0;
    'rows: for row in &TWO_COPIES {
        let (copy, step) = *row;
        let played = if copy == 0 {
            steps(rt, alloc, writer, readers, &mut seen, step)
        } else {
            steps(rt, alloc, other_writer, other_readers, &mut seen, step)
        };
        if played != Some(true) {
            return false;
        }
    }
    true
}

fn are_two_told<R: Wait>(rt: &R, alloc: Global) -> bool {
    let Some((mut one, mut readers)) = made_again(rt, alloc, 1) else {
        return false;
    };
    let Some((mut other, mut others)) = made_again(rt, alloc, 1) else {
        drop(one.close(rt));
        return false;
    };
    let is_played = play_two(rt, alloc, &mut one, &mut readers, &mut other, &mut others);
    drop(one.close(rt));
    drop(other.close(rt));
    is_played
}

#[test]
fn two_copies(rt: HostRuntime) {
    assert!(rt; are_two_told(&rt, rt.alloc()));
}

#[test]
fn stories(rt: HostRuntime) {
    for story in &STORIES {
        assert!(rt; is_story(&rt, rt.alloc(), story));
    }
}

// Whether the writer can hand on this often before there is no place, where all that it hands on is kept.
fn is_told_often(alloc: Global, writer: &mut Writer, often: usize) -> Option<bool> {
    let mut kept = Vec::new(alloc);
    kept.reserve(often).ok()?;
    for _ in 0..often {
        let Ok(handed) = writer.tell() else {
            return Some(false);
        };
        kept.push(handed).ok()?;
    }
    let is_full = writer.tell().is_err();
    drop(kept.pop());
    Some(is_full && writer.tell().is_ok())
}

// A copy of n readers has 2n + 1 places: n are theirs, and the writer can hand on n + 1 times. Who lets go
// what was handed on makes room again.
fn is_full_in_the_end<R: Wait>(rt: &R, alloc: Global, readers: u16) -> bool {
    let Some((mut writer, made)) = made_again(rt, alloc, readers) else {
        return false;
    };
    let often = usize::from(readers) + 1;
    let is_full = match is_told_often(alloc, &mut writer, often) {
        None => is_told_often(alloc, &mut writer, often),
        often_enough => often_enough,
    };
    drop(writer.close(rt));
    is_full == Some(true) && made.len() == usize::from(readers)
}

#[test]
fn more_readers_than_places(rt: HostRuntime) {
    assert!(rt; NoPlace::NUMBER == 52);
    for readers in [1, 2, 3, 17] {
        assert!(rt; is_full_in_the_end(&rt, rt.alloc(), readers), "{readers}");
    }
}

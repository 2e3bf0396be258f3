//! The page file of the three pairs is opened over a store of which one call fails, the first, the second, and so on, up to
//! one that isn't made; where opening makes fewer calls, it is written over that store.

use crate::failing_maker::FailingMaker;
use crate::readers::is_opened;
use crate::three_pairs::{BLOCK_LEN, is_saved, not_opened, reader_of, write_to, writer_for};
use exh_fixtures::{Difference, FakeWriter, Part, Run, same, three_pairs};
use exh_frames::{FailingPages, PlainMaker, PlainPages};
use exh_script::{OpenFault, Opened, open_over};
use std::alloc::Global;

// More calls than opening and writing make.
const MOST: u64 = 1000;

// Each page is looked at, by who opens the file and by who writes it.
const PAGES: u32 = 2;

/// Where a call failed.
#[derive(Clone, Copy)]
enum Met {
    Opening,
    Writing,
    Nowhere,
}

/// How often opening and writing were refused.
#[derive(Clone, Copy)]
struct Refusals {
    opening: u32,
    writing: u32,
}

/// Opens and writes the file.
pub(crate) fn run(run: &mut Run) -> Result<(), Difference> {
    let file = three_pairs(run.alloc)?;
    let refusals = refuse_each_call(run.alloc, &file)?;
    let are_opened = refusals.opening >= PAGES;
    run.tally
        .step(same(are_opened != run.lie.is_due(), Part::Fault));
    run.tally.step(same(refusals.writing >= PAGES, Part::Fault));
    Ok(())
}

fn refuse_each_call(alloc: Global, file: &[u8]) -> Result<Refusals, Difference> {
    let mut refusals = Refusals {
        opening: 0,
        writing: 0,
    };
    for at in 1..MOST {
        match refuse_call(alloc, file, at)? {
            Met::Opening => refusals.opening = refusals.opening.saturating_add(1),
            Met::Writing => refusals.writing = refusals.writing.saturating_add(1),
            Met::Nowhere => return Ok(refusals),
        }
    }
    Err(Difference::Apart(Part::Healed))
}

// Where the file couldn't be opened all of it was read, and it is opened then as without.
fn refuse_call(alloc: Global, file: &[u8], at: u64) -> Result<Met, Difference> {
    let mut writer = writer_for(alloc, file)?;
    let mut reader = reader_of(file, BLOCK_LEN);
    let maker = FailingMaker {
        inner: PlainMaker,
        at,
    };
    match open_over(alloc, &maker, &mut reader) {
        Ok(mut opened) => write_twice(&mut opened, file, &mut writer),
        Err(fault) => {
            is_out_of_reach(fault)?;
            same(reader.rest.is_empty(), Part::Fault)?;
            is_opened(alloc, file, &mut reader_of(file, BLOCK_LEN))?;
            Ok(Met::Opening)
        }
    }
}

fn is_out_of_reach(fault: OpenFault) -> Result<(), Difference> {
    let is_bare = fault.place().is_none() && fault.reason().is_none();
    match fault {
        OpenFault::Page => same(fault.number() == 11 && is_bare, Part::Refusal),
        OpenFault::File(_) => Err(not_opened(fault)),
    }
}

// Where a page was out of reach a beginning of the file went out, and all of it does then.
fn write_twice(
    opened: &mut Opened<FailingPages<PlainPages>>,
    file: &[u8],
    writer: &mut FakeWriter,
) -> Result<Met, Difference> {
    let saved = write_to(opened, writer);
    let is_front = file.starts_with(writer.taken.as_slice());
    let is_whole = is_front && writer.taken.len() == file.len();
    let last = write_to(opened, writer);
    let is_healed = is_saved(last)? && writer.taken.as_slice() == file;
    if is_saved(saved)? {
        same(is_whole, Part::Healed)?;
        Ok(Met::Nowhere)
    } else {
        same(is_front && !is_whole && is_healed, Part::Healed)?;
        Ok(Met::Writing)
    }
}

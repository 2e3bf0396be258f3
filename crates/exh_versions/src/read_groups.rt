ghost use Rattle.std.specs.Prelude.{◌≡◌, ◌+◌, ◌*◌, ◌<◌, ◌≤◌, ◌^◌, ◌++◌, ◌↔◌, [], length, IfOk, OnOk, IfErr, IsErrOf, IsTrue, IsFalse};
ghost use Rattle.exh_keyer.specs.Pseudokey.{any_pseudokey};
ghost use Rattle.exh_prefix.specs.declared.prefix.TheConstants.{WARD_BITS_LIMIT};
ghost use Rattle.exh_prefix.specs.Version.{second_version};
ghost use Rattle.exh_format.specs.Reading.{FailsInPages, IsOf};
ghost use Rattle.exh_cells.specs.declared.places.TheConstants.{GROUP_PAGES};
ghost use Rattle.exh_cells.specs.Places.{groups_of};
ghost use Rattle.exh_versions.specs.Reading.{ArePlaced, FailsInGroup, FailsInGroups, HasPlaced, ReadsGroup, ReadsGroups, ReadsPages};
ghost use Rattle.exh_versions.specs.Sources.{blocks_failed, left};

use crate::block_source::BlockSource;
use crate::placed_pages::PlacedPages;
use exh_cells::{Cell, GROUP_PAGES};
use exh_codec::{BLOCK_LEN, ReadPages};
use exh_format::ReadFileFault;
use exh_keyer::AnyKeyer;
use exh_page::FileSettings;
use std::alloc::{AllocError, Global};
use std::io::Read;

// The most pages of a group.
const MOST: usize = GROUP_PAGES as usize;

// The groups of a file of so many pages: their cells are answered, and their pages put. It takes memory for what was
// read, not for what is still to come.
pub(crate) fn read_groups<R: Read, W: ReadPages<AnyKeyer>>(
    alloc: Global,
    blocks: &mut BlockSource<'_, R>,
    settings: FileSettings<AnyKeyer>,
    pages: &mut PlacedPages<W>,
    count: usize,
) -> Result<Vec<Cell>, ReadFileFault>
    requires bits { settings.ward_bits ≤ WARD_BITS_LIMIT }
    requires none { ArePlaced W.pages W.takes settings [] pages.old }
    requires place { blocks.old.place + (groups_of count + count) < 2 ^ 32 }
    requires open { IsFalse (blocks_failed blocks.old) }
    ensures ok { IfOk result (λ cells.
        ReadsGroups W.pages W.takes settings (left R.remaining blocks.old) (left R.remaining blocks.new) (groups_of count) count pages.new cells.items) }
    ensures err { IfErr result (IsOf
        (FailsInGroups (any_pseudokey settings.keyer) blocks.old.place count) (left R.remaining blocks.old)) }
    ensures failed { IsErrOf result ReadFileFault.Read ↔ IsTrue (blocks_failed blocks.new) }
{
    let mut cells = Vec::new(alloc);
    for group in 0..(count + (MOST - 1)) / MOST {
        let some = MOST.min(count - MOST * group);
        let more = read_group(alloc, blocks, settings, pages, some)?;
        append(&mut cells, &more)?;
    }
    Ok(cells)
}

// A group of so many pages: their cells are answered, and the pages put.
fn read_group<R: Read, W: ReadPages<AnyKeyer>>(
    alloc: Global,
    blocks: &mut BlockSource<'_, R>,
    settings: FileSettings<AnyKeyer>,
    pages: &mut PlacedPages<W>,
    count: usize,
) -> Result<Vec<Cell>, ReadFileFault>
    requires bits { settings.ward_bits ≤ WARD_BITS_LIMIT }
    requires placed { HasPlaced W.pages W.takes settings pages.old }
    requires few { count ≤ GROUP_PAGES }
    requires room { length pages.old.lows.items + count < 2 ^ 32 }
    requires place { blocks.old.place + 1 + count < 2 ^ 32 }
    requires open { IsFalse (blocks_failed blocks.old) }
    ensures place { OnOk result (blocks.new.place ≡ blocks.old.place + 1 + count) }
    ensures ok { IfOk result (λ cells.
        ReadsGroup W.pages W.takes settings (left R.remaining blocks.old) (left R.remaining blocks.new) count pages.old pages.new cells.items) }
    ensures err { IfErr result (IsOf
        (FailsInGroup (any_pseudokey settings.keyer) blocks.old.place count) (left R.remaining blocks.old)) }
    ensures failed { IsErrOf result ReadFileFault.Read ↔ IsTrue (blocks_failed blocks.new) }
{
    let cells = blocks.read_cells(alloc, count)?;
    read_pages(alloc, blocks, settings, pages, count)?;
    Ok(cells)
}

// The next pages, so many, which are put.
fn read_pages<R: Read, W: ReadPages<AnyKeyer>>(
    alloc: Global,
    blocks: &mut BlockSource<'_, R>,
    settings: FileSettings<AnyKeyer>,
    pages: &mut PlacedPages<W>,
    count: usize,
) -> Result<(), ReadFileFault>
    requires bits { settings.ward_bits ≤ WARD_BITS_LIMIT }
    requires placed { HasPlaced W.pages W.takes settings pages.old }
    requires room { length pages.old.lows.items + count < 2 ^ 32 }
    requires place { blocks.old.place + count < 2 ^ 32 }
    requires open { IsFalse (blocks_failed blocks.old) }
    ensures place { OnOk result (blocks.new.place ≡ blocks.old.place + count) }
    ensures ok { OnOk result
        (ReadsPages W.pages W.takes settings (left R.remaining blocks.old) (left R.remaining blocks.new) count pages.old pages.new) }
    ensures err { IfErr result (IsOf
        (FailsInPages second_version (any_pseudokey settings.keyer) blocks.old.place count) (left R.remaining blocks.old)) }
    ensures failed { IsErrOf result ReadFileFault.Read ↔ IsTrue (blocks_failed blocks.new) }
{
    let mut block = [0; BLOCK_LEN];
    for number in 0..count {
        let page = blocks.read_page(alloc, settings.keyer, &mut block)?;
        pages.push(settings, &block, page)?;
    }
    Ok(())
}

// Puts cells behind the others.
fn append(cells: &mut Vec<Cell>, more: &[Cell]) -> Result<(), AllocError>
    ensures { OnOk result (cells.new.items ≡ cells.old.items ++ more.now) }
{
    for cell in more {
        cells.push(*cell)?;
    }
    Ok(())
}

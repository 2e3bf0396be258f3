ghost use Rattle.std.specs.Prelude.{◌≡◌, ◌<◌, ◌↔◌, ◌++◌, drop, length, take, IsErr, IsTrue, OnErr, OnOk};
ghost use Rattle.exh_stream.specs.Output.{SameWriter, Takes, TakesBeginning, writer_failed};
ghost use Rattle.exh_cells.specs.PlacedFile.{stamped_block, walk_block};
ghost use Rattle.exh_cells.specs.declared.places.TheConstants.{GROUP_PAGES};
ghost use Rattle.exh_cells.specs.StampedHeader.{IsStampedHeader};
ghost use Rattle.exh_placing.specs.Writing.{opening};

use exh_cells::{Cell, GROUP_PAGES, StampedHeader, encode_cells};
use exh_codec::BLOCK_LEN;
use exh_stream::{Output, WriteFault};
use std::io::Write;

/// Writes the header of a page file of version 3, behind which its places come, each by [`write_place`]: by
/// [`places_make_files`](crate::places_make_files) those are its bytes. On an `Err` the writer failed, now or before,
/// and got a beginning of what it was due. It takes no memory.
pub fn write_header<W: Write>(
    output: &mut Output<'_, W>,
    header: &StampedHeader,
) -> Result<(), WriteFault>
    requires { IsStampedHeader header.now }
    ensures same_writer { SameWriter output.old output.new }
    ensures ok { OnOk result (Takes W.contents output.old output.new (stamped_block header.now)) }
    ensures err { OnErr result (TakesBeginning W.contents output.old output.new (stamped_block header.now)) }
    ensures failed { IsErr result ↔ IsTrue (writer_failed output.new) }
{
    output.push(&header.to_block())
}

/// Writes what stands at a place of a file with these cells: where a group begins its walk block, and then the page's
/// block. On an `Err` the writer failed, now or before, and got a beginning of what it was due. It takes no memory.
pub fn write_place<W: Write>(
    output: &mut Output<'_, W>,
    cells: &[Cell],
    place: usize,
    block: &[u8; BLOCK_LEN],
) -> Result<(), WriteFault>
    requires { place < length cells.now }
    ensures same_writer { SameWriter output.old output.new }
    ensures ok { OnOk result (Takes W.contents output.old output.new (opening cells.now place ++ block.now)) }
    ensures err { OnErr result (TakesBeginning W.contents output.old output.new (opening cells.now place ++ block.now)) }
    ensures failed { IsErr result ↔ IsTrue (writer_failed output.new) }
{
    write_opening(output, cells, place)?;
    output.push(block)
}

// Writes the walk block of the group that begins at a place, if one does.
fn write_opening<W: Write>(
    output: &mut Output<'_, W>,
    cells: &[Cell],
    place: usize,
) -> Result<(), WriteFault>
    requires { place < length cells.now }
    ensures same_writer { SameWriter output.old output.new }
    ensures ok { OnOk result (Takes W.contents output.old output.new (opening cells.now place)) }
    ensures err { OnErr result (TakesBeginning W.contents output.old output.new (opening cells.now place)) }
    ensures failed { IsErr result ↔ IsTrue (writer_failed output.new) }
{
    if place % GROUP_PAGES as usize == 0 {
        output.push(&walk_block_at(cells, place))
    } else {
        // An output that has failed says so.
        output.push(&[])
    }
}

// The walk block of the group that begins at a place.
fn walk_block_at(cells: &[Cell], place: usize) -> [u8; BLOCK_LEN]
    requires { place < length cells.now }
    ensures { result ≡ walk_block (take GROUP_PAGES (drop place cells.now)) }
{
    let count = (cells.len() - place).min(GROUP_PAGES as usize);
    encode_cells(&cells[place..place + count])
}

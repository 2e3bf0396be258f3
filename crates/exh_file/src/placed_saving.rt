ghost use Rattle.std.specs.Prelude.{◌≡◌, ◌<◌, ◌^◌, ◌++◌, [], length, map, IsErrOf, IsTrue, OnErr, OnOk};
ghost use Rattle.std.specs.List.{AllByRecursion, flat_map, range_with_len};
ghost use Rattle.std.specs.Io.KnownBytes.{Appends};
ghost use Rattle.exh_prefix.specs.Layout.{written_version};
ghost use Rattle.exh_stream.specs.Output.{AppendsBeginning, SameWriter, Takes, TakesBeginning, held, pending, writer_failed};
ghost use Rattle.exh_codec.specs.PageImage.{IsInRange};
ghost use Rattle.exh_format.specs.PageFile.{page_block};
ghost use Rattle.exh_placing.specs.PlacedFile.{placed_bytes};
ghost use Rattle.exh_placing.specs.StampedHeader.{IsStampedHeader};
ghost use Rattle.exh_placing.specs.WardFile.{ArePagesOf};
ghost use Rattle.exh_placing.specs.Writing.{opening, place_bytes};
ghost use Rattle.exh_stores.specs.PageStore.{IfPage};
ghost use Rattle.exh_file.specs.Opened.{AreWardsOf, in_file};
ghost use Rattle.exh_file.specs.Placing.{IsPlacedSaving, IsPlacingOf, ordered_pages, own_pages, placed_file, stamped_header};
ghost use Rattle.exh_file.specs.SaveFault.{CountsSaveFailures};
ghost use Rattle.exh_file.specs.Saved.{AreSound, AreUnchanged, HasCaps, failures_in, pages_of_all};

use crate::SaveFault;
use crate::header::header_of;
use crate::placing::{Placing, Stamps};
use crate::saving::read_block;
use exh_codec::BLOCK_LEN;
use exh_keyer::AnyKeyer;
use exh_legal::{
    fitting_tables_begin_wards, legal_files_pass, legal_tables_have_room, pages_are_few,
};
use exh_page::FileSettings;
use exh_placing::{
    Cell, PageAt, StampedHeader, legal_wards_give_files, orders_give_pages, places_make_files,
    write_header, write_place,
};
use exh_stores::Pages;
use exh_stream::Output;
use exh_ward::Ward;
use std::io::Write;

/// Appends the file of version 3 of these wards to the writer of an output that holds nothing back, as `write_wards`
/// does that of the version that is written: in the places of a placing of theirs.
///
/// `Write`: the writer failed or took no bytes. `Page`: a page is out of reach. `Memory`: a growth was
/// refused. Then a beginning of the file went out. The wards are as before.
pub(crate) fn write_placed<P: Pages + Drop, W: Write>(
    settings: FileSettings<AnyKeyer>,
    placing: &Placing,
    wards: &mut [Ward<P, AnyKeyer>],
    output: &mut Output<'_, W>,
) -> Result<(), SaveFault>
    requires wards { AreWardsOf (in_file settings wards.old) }
    requires placing { IsPlacingOf (in_file settings wards.old) placing.now }
    requires bare { pending output.old ≡ [] }
    ensures same_writer { SameWriter output.old output.new }
    ensures ok { OnOk result (Appends (held W.contents output.old) (held W.contents output.new) (placed_bytes (placed_file (in_file settings wards.old) placing.now))) }
    ensures legal { OnOk result (IsPlacedSaving (in_file settings wards.old) placing.now (placed_bytes (placed_file (in_file settings wards.old) placing.now))) }
    ensures err { OnErr result (AppendsBeginning (held W.contents output.old) (held W.contents output.new) (placed_bytes (placed_file (in_file settings wards.old) placing.now))) }
    ensures failed { IsErrOf result SaveFault.Write → IsTrue (writer_failed output.new) }
    ensures wards { AreUnchanged wards.old wards.new }
    ensures failures { CountsSaveFailures result (failures_in wards.old) (failures_in wards.new) }
{
    fitting_tables_begin_wards();
    legal_files_pass();
    legal_wards_give_files();
    orders_give_pages();
    places_make_files();
    let header = stamped_header_of(settings, placing.stamps, wards);
    write_header(output, &header)?;
    write_places(output, &placing.order, &placing.cells, wards)?;
    Ok(output.finish()?)
}

// The header of the file of version 3 of these wards.
fn stamped_header_of<P: Pages + Drop>(
    settings: FileSettings<AnyKeyer>,
    stamps: Stamps,
    wards: &[Ward<P, AnyKeyer>],
) -> StampedHeader
    requires { AreWardsOf (in_file settings wards.now) }
    ensures header { result ≡ stamped_header (in_file settings wards.now) stamps }
    ensures valid { IsStampedHeader result }
    ensures sound { AreSound wards.now }
{
    fitting_tables_begin_wards();
    legal_tables_have_room();
    pages_are_few();
    let plain = header_of(settings, wards);
    let page_counts = plain.page_counts;
    let stamp = word_of(stamps.own);
    let before = word_of(stamps.before);
    StampedHeader {
        settings,
        page_counts,
        stamp,
        before,
    }
}

// For proofs: a stamp is a word of 64 bits.
fn word_of(stamp: u64) -> u64
    ensures same { result ≡ stamp }
    ensures word { result < 2 ^ 64 }
{
    stamp
}

// Writes what stands at each place.
fn write_places<P: Pages + Drop, W: Write>(
    output: &mut Output<'_, W>,
    order: &[PageAt],
    cells: &[Cell],
    wards: &mut [Ward<P, AnyKeyer>],
) -> Result<(), SaveFault>
    requires all { length cells.now ≡ length order.now }
    requires are { ArePagesOf (pages_of_all wards.old) order.now (ordered_pages wards.old order.now) }
    requires caps { HasCaps wards.old }
    ensures same_writer { SameWriter output.old output.new }
    ensures ok { OnOk result (Takes W.contents output.old output.new (flat_map (place_bytes (ordered_pages wards.old order.now) cells.now) (range_with_len 0 (length order.now)))) }
    ensures pages { OnOk result (AllByRecursion (IsInRange written_version) (ordered_pages wards.old order.now)) }
    ensures err { OnErr result (TakesBeginning W.contents output.old output.new (flat_map (place_bytes (ordered_pages wards.old order.now) cells.now) (range_with_len 0 (length order.now)))) }
    ensures failed { IsErrOf result SaveFault.Write → IsTrue (writer_failed output.new) }
    ensures same { OnOk result (wards.new ≡ wards.old) }
    ensures wards { AreUnchanged wards.old wards.new }
    ensures failures { CountsSaveFailures result (failures_in wards.old) (failures_in wards.new) }
{
    let mut block = [0; BLOCK_LEN];
    for place in 0..order.len() {
        write_at(output, cells, place, order[place], wards, &mut block)?;
    }
    Ok(())
}

// Writes what stands at a place, at which this page is, by way of a block.
fn write_at<P: Pages + Drop, W: Write>(
    output: &mut Output<'_, W>,
    cells: &[Cell],
    place: usize,
    at: PageAt,
    wards: &mut [Ward<P, AnyKeyer>],
    block: &mut [u8; BLOCK_LEN],
) -> Result<(), SaveFault>
    requires ward { at.ward < length wards.old }
    requires page { at.number < length (own_pages wards.old at.ward) }
    requires room { place < length cells.now }
    requires caps { HasCaps wards.old }
    ensures same_writer { SameWriter output.old output.new }
    ensures ok { OnOk result (IfPage (own_pages wards.old at.ward) at.number (λ page. Takes W.contents output.old output.new (opening cells.now place ++ page_block page) × IsInRange written_version page)) }
    ensures err { OnErr result (IfPage (own_pages wards.old at.ward) at.number (λ page. TakesBeginning W.contents output.old output.new (opening cells.now place ++ page_block page))) }
    ensures failed { IsErrOf result SaveFault.Write → IsTrue (writer_failed output.new) }
    ensures same { OnOk result (wards.new ≡ wards.old) }
    ensures wards { AreUnchanged wards.old wards.new }
    ensures failures { CountsSaveFailures result (failures_in wards.old) (failures_in wards.new) }
{
    read_block(&mut wards[at.ward as usize], at.number, block)?;
    Ok(write_place(output, cells, place, block)?)
}

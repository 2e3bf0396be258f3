ghost use Rattle.std.specs.Prelude.{◌≡◌, ◌≢◌, ◌<◌, ◌≤◌, [], length, map, IfErr, OnOk, OnErr, IsErr, IsErrOf, IsTrue};
ghost use Rattle.std.specs.List.{AllByRecursion, flat_map};
ghost use Rattle.std.specs.FinMap.{entries};
ghost use Rattle.std.specs.Io.KnownBytes.{Appends};
ghost use Rattle.exh_prefix.specs.Layout.{written_version};
ghost use Rattle.exh_page.specs.declared.page.TheConstants.{CAP_LIMIT};
ghost use Rattle.exh_stream.specs.Output.{AppendsBeginning, SameWriter, Takes, TakesBeginning, held, pending, writer_failed};
ghost use Rattle.exh_codec.specs.PageImage.{IsInRange};
ghost use Rattle.exh_format.specs.FileVersion.{written_format};
ghost use Rattle.exh_format.specs.HeaderImage.{IsHeader};
ghost use Rattle.exh_format.specs.TableImage.{IsFileEntry};
ghost use Rattle.exh_format.specs.PageFile.{file_bytes, page_block, pages_of};
ghost use Rattle.exh_format.specs.Writing.{TakesEntries, TakesEntriesBeginning, on_its_way};
ghost use Rattle.exh_stores.specs.PageStore.{IfPage};
ghost use Rattle.exh_format.specs.declared.header.TheConstants.{COUNTS_LEN};
ghost use Rattle.exh_ward.specs.WardState.{IsUnchanged};
ghost use Rattle.exh_file.specs.Opened.{AreWardsOf, in_file};
ghost use Rattle.exh_file.specs.Reopened.{IsKept, IsWrittenAgain};
ghost use Rattle.exh_file.specs.SaveFault.{CountsSaveFailures};
ghost use Rattle.exh_file.specs.Saved.{AreInOrder, AreShort, AreUnchanged, HasCaps, entries_of_all, failures_in, file_entry, written_file, file_with, pages_of_all};

use crate::SaveFault;
use crate::header::header_of;
use exh_codec::BLOCK_LEN;
use exh_format::{FileEntry, Header, TableWriter, images_are_blocks, same_blocks};
use exh_keyer::AnyKeyer;
use exh_legal::{
    fitting_tables_begin_wards, legal_files_pass, legal_tables_have_room, pages_are_few,
};
use exh_page::FileSettings;
use exh_prefix::PageNo;
use exh_stores::Pages;
use exh_stream::{Output, WriteFault};
use exh_table::Table;
use exh_versions::{one_legal_file, placed_files_say_files};
use exh_ward::Ward;
use std::io::Write;

/// Appends the page file of these wards to the writer of an output that holds nothing back, in the
/// version that is written: one ward for each number, in order, of these settings. What was written whole is a legal
/// page file, and opening it gives wards of the same pages and tables; wards that were opened from a
/// file, with no change since, are written as what it says: as its very bytes, if it was of the version that
/// is written, as these with that version's number and the header's digest made anew, if of version 1, and
/// of version 3 in the version that is written. The writer isn't flushed. It takes no memory of its own.
///
/// `Write`: the writer failed or took no bytes. `Page`: a page is out of reach. `Memory`: a growth was
/// refused. Then a beginning of the file went out. The wards are as before.
pub fn write_wards<P: Pages + Drop, W: Write>(
    settings: FileSettings<AnyKeyer>,
    wards: &mut [Ward<P, AnyKeyer>],
    output: &mut Output<'_, W>,
) -> Result<(), SaveFault>
    requires wards { AreWardsOf (in_file settings wards.old) }
    requires bare { pending output.old ≡ [] }
    ensures same_writer { SameWriter output.old output.new }
    ensures ok { OnOk result (Appends (held W.contents output.old) (held W.contents output.new) (file_bytes written_format (written_file (in_file settings wards.old)))) }
    ensures opens { OnOk result (IsKept (in_file settings wards.old) (file_bytes written_format (written_file (in_file settings wards.old)))) }
    ensures again { IsWrittenAgain (in_file settings wards.old) }
    ensures err { OnErr result (AppendsBeginning (held W.contents output.old) (held W.contents output.new) (file_bytes written_format (written_file (in_file settings wards.old)))) }
    ensures failed { IsErrOf result SaveFault.Write → IsTrue (writer_failed output.new) }
    ensures wards { AreUnchanged wards.old wards.new }
    ensures failures { CountsSaveFailures result (failures_in wards.old) (failures_in wards.new) }
{
    fitting_tables_begin_wards();
    legal_files_pass();
    legal_tables_have_room();
    images_are_blocks();
    one_legal_file();
    pages_are_few();
    placed_files_say_files();
    same_blocks();
    let header = header_of(settings, wards);
    write_parts(output, &header, wards)
}

// Writes the file of this header and these wards.
fn write_parts<P: Pages + Drop, W: Write>(
    output: &mut Output<'_, W>,
    header: &Header,
    wards: &mut [Ward<P, AnyKeyer>],
) -> Result<(), SaveFault>
    requires bare { pending output.old ≡ [] }
    requires header { IsHeader written_format header.now }
    requires caps { HasCaps wards.old }
    requires numbers { AreInOrder wards.old }
    requires few { length wards.old ≤ COUNTS_LEN }
    requires short { AreShort (entries_of_all wards.old) }
    ensures same_writer { SameWriter output.old output.new }
    ensures ok { OnOk result (Appends (held W.contents output.old) (held W.contents output.new) (file_bytes written_format (file_with header.now wards.old))) }
    ensures pages { OnOk result (AllByRecursion (IsInRange written_version) (pages_of (pages_of_all wards.old))) }
    ensures entries { OnOk result (AllByRecursion (IsFileEntry written_version) (entries_of_all wards.old)) }
    ensures err { OnErr result (AppendsBeginning (held W.contents output.old) (held W.contents output.new) (file_bytes written_format (file_with header.now wards.old))) }
    ensures failed { IsErrOf result SaveFault.Write → IsTrue (writer_failed output.new) }
    ensures wards { AreUnchanged wards.old wards.new }
    ensures failures { CountsSaveFailures result (failures_in wards.old) (failures_in wards.new) }
{
    output.push(&header.to_block())?;
    write_pages(output, wards)?;
    let mut waiting = TableWriter::new();
    write_table(output, &mut waiting, wards)?;
    Ok(waiting.finish(output)?)
}

// Writes the pages of all wards.
fn write_pages<P: Pages + Drop, W: Write>(
    output: &mut Output<'_, W>,
    wards: &mut [Ward<P, AnyKeyer>],
) -> Result<(), SaveFault>
    requires { HasCaps wards.old }
    ensures same_writer { SameWriter output.old output.new }
    ensures ok { OnOk result (Takes W.contents output.old output.new (flat_map page_block (pages_of (pages_of_all wards.old)))) }
    ensures pages { OnOk result (AllByRecursion (IsInRange written_version) (pages_of (pages_of_all wards.old))) }
    ensures err { OnErr result (TakesBeginning W.contents output.old output.new (flat_map page_block (pages_of (pages_of_all wards.old)))) }
    ensures failed { IsErrOf result SaveFault.Write → IsTrue (writer_failed output.new) }
    ensures same { OnOk result (wards.new ≡ wards.old) }
    ensures wards { AreUnchanged wards.old wards.new }
    ensures failures { CountsSaveFailures result (failures_in wards.old) (failures_in wards.new) }
{
    for number in 0..wards.len() {
        write_ward(output, &mut wards[number])?;
    }
    Ok(())
}

// Writes the pages of one ward, in the order of their numbers.
fn write_ward<P: Pages + Drop, W: Write>(
    output: &mut Output<'_, W>,
    ward: &mut Ward<P, AnyKeyer>,
) -> Result<(), SaveFault>
    requires { ward.old.cap ≤ CAP_LIMIT }
    ensures same_writer { SameWriter output.old output.new }
    ensures ok { OnOk result (Takes W.contents output.old output.new (flat_map page_block ward.old.pages)) }
    ensures pages { OnOk result (AllByRecursion (IsInRange written_version) ward.old.pages) }
    ensures err { OnErr result (TakesBeginning W.contents output.old output.new (flat_map page_block ward.old.pages)) }
    ensures failed { IsErrOf result SaveFault.Write → IsTrue (writer_failed output.new) }
    ensures same { OnOk result (ward.new ≡ ward.old) }
    ensures ward { IsUnchanged ward.old ward.new }
    ensures failures { CountsSaveFailures result ward.old.failures ward.new.failures }
{
    let mut block = [0; BLOCK_LEN];
    for number in 0..ward.page_count() {
        write_page(output, ward, number, &mut block)?;
    }
    Ok(())
}

// Writes the page of a number, by way of a block.
fn write_page<P: Pages + Drop, W: Write>(
    output: &mut Output<'_, W>,
    ward: &mut Ward<P, AnyKeyer>,
    number: PageNo,
    block: &mut [u8; BLOCK_LEN],
) -> Result<(), SaveFault>
    requires there { number < length ward.old.pages }
    requires cap { ward.old.cap ≤ CAP_LIMIT }
    ensures same_writer { SameWriter output.old output.new }
    ensures ok { OnOk result (IfPage ward.old.pages number (λ page. Takes W.contents output.old output.new (page_block page) × IsInRange written_version page)) }
    ensures err { OnErr result (IfPage ward.old.pages number (λ page. TakesBeginning W.contents output.old output.new (page_block page))) }
    ensures failed { IsErrOf result SaveFault.Write → IsTrue (writer_failed output.new) }
    ensures same { OnOk result (ward.new ≡ ward.old) }
    ensures ward { IsUnchanged ward.old ward.new }
    ensures failures { CountsSaveFailures result ward.old.failures ward.new.failures }
{
    read_block(ward, number, block)?;
    Ok(output.push(block)?)
}

// The block of the page of a number.
pub(crate) fn read_block<P: Pages + Drop>(
    ward: &mut Ward<P, AnyKeyer>,
    number: PageNo,
    block: &mut [u8; BLOCK_LEN],
) -> Result<(), SaveFault>
    requires there { number < length ward.old.pages }
    requires cap { ward.old.cap ≤ CAP_LIMIT }
    ensures block { OnOk result (IfPage ward.old.pages number (λ page. (block.new ≡ page_block page) × IsInRange written_version page)) }
    ensures fault { IfErr result (λ fault. fault ≢ SaveFault.Write) }
    ensures same { OnOk result (ward.new ≡ ward.old) }
    ensures ward { IsUnchanged ward.old ward.new }
    ensures failures { CountsSaveFailures result ward.old.failures ward.new.failures }
{
    match ward.block(number, block) {
        Ok(()) => Ok(()),
        Err(fault) => Err(SaveFault::of_ward(fault)),
    }
}

// Writes the entries of all wards.
fn write_table<P: Pages + Drop, W: Write>(
    output: &mut Output<'_, W>,
    waiting: &mut TableWriter,
    wards: &[Ward<P, AnyKeyer>],
) -> Result<(), WriteFault>
    requires numbers { AreInOrder wards.now }
    requires few { length wards.now ≤ COUNTS_LEN }
    requires short { AreShort (entries_of_all wards.now) }
    ensures same_writer { SameWriter output.old output.new }
    ensures ok { OnOk result (TakesEntries W.contents written_version (on_its_way output.old waiting.old) (on_its_way output.new waiting.new) (entries_of_all wards.now)) }
    ensures entries { OnOk result (AllByRecursion (IsFileEntry written_version) (entries_of_all wards.now)) }
    ensures err { OnErr result (TakesEntriesBeginning W.contents written_version (on_its_way output.old waiting.old) (on_its_way output.new waiting.new) (entries_of_all wards.now)) }
    ensures failed { IsErr result → IsTrue (writer_failed output.new) }
{
    for number in 0..wards.len() {
        write_entries(output, waiting, number as u8, wards[number].table())?;
    }
    Ok(())
}

// Writes the entries of one ward's table.
fn write_entries<W: Write>(
    output: &mut Output<'_, W>,
    waiting: &mut TableWriter,
    ward: u8,
    table: &Table,
) -> Result<(), WriteFault>
    requires short { AreShort (map (file_entry ward) (entries table.now)) }
    ensures same_writer { SameWriter output.old output.new }
    ensures ok { OnOk result (TakesEntries W.contents written_version (on_its_way output.old waiting.old) (on_its_way output.new waiting.new) (map (file_entry ward) (entries table.now))) }
    ensures entries { OnOk result (AllByRecursion (IsFileEntry written_version) (map (file_entry ward) (entries table.now))) }
    ensures err { OnErr result (TakesEntriesBeginning W.contents written_version (on_its_way output.old waiting.old) (on_its_way output.new waiting.new) (map (file_entry ward) (entries table.now))) }
    ensures failed { IsErr result → IsTrue (writer_failed output.new) }
{
    for (prefix, entry) in table.entries() {
        let item = FileEntry {
            ward,
            prefix: *prefix,
            entry: *entry,
        };
        waiting.write_entry(output, &item)?;
    }
    Ok(())
}

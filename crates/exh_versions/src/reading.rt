ghost use Rattle.std.specs.Prelude.{◌≡◌, ◌≤◌, ◌<◌, ◌^◌, length, List, ℕ, Some, IfOk, IfErr, MatchResult};
ghost use Rattle.exh_table.specs.Table.{TableMap};
ghost use Rattle.exh_format.specs.FileParts.{AreTaking};
ghost use Rattle.exh_format.specs.FileVersion.{format_of};
ghost use Rattle.exh_format.specs.LegalFile.{IsLegalFileFaultOf, IsLegalPageFile, IsOtherFault};
ghost use Rattle.exh_format.specs.PageFile.{PageFile};
ghost use Rattle.exh_format.specs.Reading.{AreBytes};
ghost use Rattle.exh_versions.specs.LegalPlaced.{IsLegalPlacedFile};
ghost use Rattle.exh_versions.specs.PlacedFile.{PlacedFile};
ghost use Rattle.exh_versions.specs.AnyFile.{IsReadLegal, any_file_read};
ghost use Rattle.exh_versions.specs.FirstFault.{IsFirstFaultOf};
ghost use Rattle.exh_versions.specs.LegalBytes.{IsLegalBytes};
ghost use Rattle.exh_versions.specs.PlainFile.{counted_header, entries_of_tables, plain_file};
ghost use Rattle.exh_versions.specs.LegalReading.{IsLegalPlacedFaultOf};
ghost use Rattle.exh_versions.specs.declared.file_form.FileForm.TheVariants.{Placed};

use crate::entries::entries_of_tables;
use crate::front::{read_front, says_placed};
use crate::{
    AnyFile, FileForm, LegalPlaced, PlacedForm, PlacedParts, ReadPages, StampedHeader,
    one_legal_file, placed_files_say_files, read_legal_placed,
};
use exh_format::{FileParts, Header, LegalFile, LegalFileFault, NUMBERED_LEN, read_legal_file};
use exh_keyer::AnyKeyer;
use std::alloc::{AllocError, Global};
use std::io::Read;

/// Reads a legal page file of the version that its bytes say, of which the reader has all bytes and no others, its pages
/// into what the caller names, with its table as one table a ward. A block takes at most 4,097 reads. It takes memory for
/// what was read, never for what a header claims, and of version 3 for the entries of its tables.
///
/// `File`: the bytes aren't a page file; the fault is that of the first test that they fail. `Illegal`: they are one, and
/// this is the first reason for which it isn't legal. `Read`: the reader failed. `Memory`: a growth was refused. The one
/// met first counts.
pub fn read_any_file<R: Read, W: ReadPages<AnyKeyer>>(
    alloc: Global,
    reader: &mut R,
) -> Result<AnyFile<W>, LegalFileFault>
    ensures legal { IfOk result (IsReadLegal W.pages (R.remaining reader.old)) }
    ensures takes { IfOk result (λ found. AreTaking W.takes found.file.parts) }
    ensures fault { IfErr result (IsFirstFaultOf (R.remaining reader.old)) }
    ensures every { (file : PageFile) (bytes : List ℕ) → R.remaining reader.old ≡ Some bytes → AreBytes bytes → IsLegalBytes file bytes
        → MatchResult result (λ found. any_file_read W.pages found ≡ file) IsOtherFault }
{
    let mut front = [0; NUMBERED_LEN];
    let count = read_front(reader, &mut front)?;
    let is_placed = says_placed(&front, count);
    let mut whole = (&front[..count]).chain(reader);
    if is_placed {
        read_placed(alloc, &mut whole)
    } else {
        read_plain(alloc, &mut whole)
    }
}

// A file of version 1 or 2.
fn read_plain<R: Read, W: ReadPages<AnyKeyer>>(
    alloc: Global,
    reader: &mut R,
) -> Result<AnyFile<W>, LegalFileFault>
    ensures legal { IfOk result (IsReadLegal W.pages (R.remaining reader.old)) }
    ensures takes { IfOk result (λ found. AreTaking W.takes found.file.parts) }
    ensures fault { IfErr result (IsLegalFileFaultOf (R.remaining reader.old)) }
    ensures every { (file : PageFile) (bytes : List ℕ) → R.remaining reader.old ≡ Some bytes → AreBytes bytes → IsLegalPageFile (format_of bytes) file bytes
        → MatchResult result (λ found. any_file_read W.pages found ≡ file) IsOtherFault }
{
    match read_legal_file(alloc, reader) {
        Ok(file) => Ok(AnyFile {
            file,
            form: FileForm::Plain,
        }),
        Err(fault) => Err(fault),
    }
}

// A file of version 3.
fn read_placed<R: Read, W: ReadPages<AnyKeyer>>(
    alloc: Global,
    reader: &mut R,
) -> Result<AnyFile<W>, LegalFileFault>
    ensures legal { IfOk result (IsReadLegal W.pages (R.remaining reader.old)) }
    ensures takes { IfOk result (λ found. AreTaking W.takes found.file.parts) }
    ensures fault { IfErr result (IsLegalPlacedFaultOf (R.remaining reader.old)) }
    ensures every { (placed : PlacedFile) (tables : List TableMap) (bytes : List ℕ) → R.remaining reader.old ≡ Some bytes → AreBytes bytes → IsLegalPlacedFile placed tables bytes
        → MatchResult result (λ found. any_file_read W.pages found ≡ plain_file placed tables) IsOtherFault }
{
    placed_files_say_files();
    one_legal_file();
    let legal = read_legal_placed(alloc, reader)?;
    Ok(in_plain(alloc, legal)?)
}

// What a file of version 3 says, with its tables as entries too.
fn in_plain<W: ReadPages<AnyKeyer>>(
    alloc: Global,
    legal: LegalPlaced<W>,
) -> Result<AnyFile<W>, AllocError>
    requires wards { length legal.tables.items ≤ 16 }
    requires few { length (entries_of_tables legal.tables.items) < 2 ^ 32 }
    ensures header { IfOk result (λ found. found.file.parts.header ≡ counted_header legal.parts.header (length (entries_of_tables legal.tables.items))) }
    ensures wards { IfOk result (λ found. found.file.parts.wards ≡ legal.parts.wards) }
    ensures entries { IfOk result (λ found. found.file.parts.entries.items ≡ entries_of_tables legal.tables.items) }
    ensures tables { IfOk result (λ found. found.file.tables ≡ legal.tables) }
    ensures form { IfOk result (λ found. found.form ≡ Placed (record { lows = legal.parts.lows; stamp = legal.parts.header.stamp })) }
{
    let LegalPlaced { parts, tables } = legal;
    let entries = entries_of_tables(alloc, &tables)?;
    let PlacedParts {
        header,
        wards,
        lows,
        cells: _,
    } = parts;
    let form = FileForm::Placed(PlacedForm {
        lows,
        stamp: header.stamp,
    });
    let parts = FileParts {
        header: counted_header(&header, entries.len() as u32),
        wards,
        entries,
    };
    let file = LegalFile { parts, tables };
    Ok(AnyFile { file, form })
}

// The header of a file that says what one of version 3 says, with so many entries.
fn counted_header(header: &StampedHeader, entry_count: u32) -> Header
    ensures { result ≡ counted_header header.now entry_count }
{
    Header {
        settings: header.settings,
        entry_count,
        page_counts: header.page_counts,
    }
}

ghost use Rattle.std.specs.Prelude.{◌≡◌, ◌≤◌, ◌↔◌, ℕ, List, length, map, Some, IfOk, IfErr, IsTrue, MatchResult};
ghost use Rattle.exh_table.specs.Table.{TableMap};
ghost use Rattle.exh_legal.specs.Reasons.{IsFirstReason};
ghost use Rattle.exh_format.specs.LegalFile.{IsOtherFault};
ghost use Rattle.exh_format.specs.Reading.{AreBytes};
ghost use Rattle.exh_cells.specs.Fit.{FitsCells};
ghost use Rattle.exh_cells.specs.LegalPlaced.{IsLegalPlacedFile};
ghost use Rattle.exh_cells.specs.PlacedFile.{PlacedFile};
ghost use Rattle.exh_versions.specs.LegalReading.{AreLegalPartsOf, AreTablesFor, IsFirstUnfit, IsLegalFrom, IsLegalPlacedFaultOf, IsReasonFor, IsSomeFile, parts_with};
ghost use Rattle.exh_versions.specs.PlacedParts.{AreTaking};

use crate::{LegalPlaced, PlacedParts, one_placed_file, placed_files_pass, read_placed};
use exh_cells::{cells_and_tables_tell, cells_fit, tables_of_cells};
use exh_codec::ReadPages;
use exh_format::LegalFileFault;
use exh_keyer::AnyKeyer;
use exh_legal::{Reason, first_reason, legal_files_pass};
use exh_table::Table;
use std::alloc::{AllocError, Global};
use std::io::Read;

/// Reads a legal page file of version 3, of which the reader has all bytes and no others, its pages into what the
/// caller names, with the table of each ward that its cells tell of. A block takes at most 4,097 reads. It takes memory
/// for what was read, never for what a header claims, for the tables, and for a few words a page of one ward, which is
/// given back.
///
/// `File`: the bytes aren't a page file; the fault is that of the first test that they fail. `Illegal`: they are one,
/// and this is the first reason for which it isn't legal. `Read`: the reader failed. `Memory`: a growth was refused.
/// The one met first counts.
pub fn read_legal_placed<R: Read, W: ReadPages<AnyKeyer>>(
    alloc: Global,
    reader: &mut R,
) -> Result<LegalPlaced<W>, LegalFileFault>
    ensures legal { IfOk result (IsLegalFrom W.pages (R.remaining reader.old)) }
    ensures takes { IfOk result (λ legal. AreTaking W.takes legal.parts) }
    ensures fault { IfErr result (IsLegalPlacedFaultOf (R.remaining reader.old)) }
    ensures every { (file : PlacedFile) (tables : List TableMap) (bytes : List ℕ) → R.remaining reader.old ≡ Some bytes → AreBytes bytes → IsLegalPlacedFile file tables bytes
        → MatchResult result (AreLegalPartsOf W.pages file tables) IsOtherFault }
{
    one_placed_file();
    placed_files_pass();
    legal_files_pass();
    cells_and_tables_tell();
    read_found(alloc, reader)
}

// The same, told of what was found alone.
fn read_found<R: Read, W: ReadPages<AnyKeyer>>(
    alloc: Global,
    reader: &mut R,
) -> Result<LegalPlaced<W>, LegalFileFault>
    ensures legal { IfOk result (IsLegalFrom W.pages (R.remaining reader.old)) }
    ensures takes { IfOk result (λ legal. AreTaking W.takes legal.parts) }
    ensures fault { IfErr result (IsLegalPlacedFaultOf (R.remaining reader.old)) }
{
    legal_files_pass();
    cells_and_tables_tell();
    let parts = read_placed(alloc, reader)?;
    let tables = tables_for(alloc, &parts)?;
    Ok(LegalPlaced { parts, tables })
}

// The tables of a file to which no reason applies, or the first that does.
fn tables_for<W: ReadPages<AnyKeyer>>(
    alloc: Global,
    parts: &PlacedParts<W>,
) -> Result<Vec<Table>, LegalFileFault>
    requires { IsSomeFile W.pages parts.now }
    ensures tables { IfOk result (λ tables. AreTablesFor W.pages parts.now tables.items) }
    ensures reason { IfErr result (IsReasonFor W.pages parts.now) }
{
    cells_and_tables_tell();
    if !are_fitting(parts) {
        return Err(LegalFileFault::Illegal(reason_of_pages(alloc, parts)?));
    }
    let ward_bits = parts.header.settings.ward_bits;
    let tables = tables_of_cells(alloc, ward_bits, &parts.lows, &parts.cells)?;
    match reason_of(alloc, parts, &tables)? {
        Some(reason) => Err(LegalFileFault::Illegal(reason)),
        None => Ok(tables),
    }
}

// Whether the cells fit the pages and the counts of them.
fn are_fitting<W: ReadPages<AnyKeyer>>(parts: &PlacedParts<W>) -> bool
    requires { IsSomeFile W.pages parts.now }
    ensures { IsTrue result ↔ FitsCells parts.now.header.settings.ward_bits parts.now.header.page_counts parts.now.lows.items parts.now.cells.items }
{
    cells_fit(
        parts.header.settings.ward_bits,
        &parts.header.page_counts,
        &parts.lows,
        &parts.cells,
    )
}

// The first reason that applies to a file whose cells don't fit: the last, where its pages alone give none.
fn reason_of_pages<W: ReadPages<AnyKeyer>>(
    alloc: Global,
    parts: &PlacedParts<W>,
) -> Result<Reason, AllocError>
    requires { IsSomeFile W.pages parts.now }
    ensures { IfOk result (IsFirstUnfit W.pages parts.now) }
{
    let tables = empty_tables(alloc, parts.wards.len())?;
    let found = reason_of(alloc, parts, &tables)?;
    Ok(found.unwrap_or(Reason::Table))
}

// So many tables with no entry.
fn empty_tables(alloc: Global, count: usize) -> Result<Vec<Table>, AllocError>
    ensures { IfOk result (λ tables. length tables.items ≡ count) }
{
    let mut tables = Vec::new(alloc);
    for number in 0..count {
        tables.push(Table::new(alloc))?;
    }
    Ok(tables)
}

// The first reason that applies to a file with these tables.
fn reason_of<W: ReadPages<AnyKeyer>>(
    alloc: Global,
    parts: &PlacedParts<W>,
    tables: &[Table],
) -> Result<Option<Reason>, AllocError>
    requires file { IsSomeFile W.pages parts.now }
    requires tables { length parts.now.wards.items ≤ length tables.now }
    ensures { IfOk result (IsFirstReason (parts_with W.pages parts.now tables.now)) }
{
    first_reason(
        alloc,
        parts.header.settings.cap as usize,
        parts.header.settings.ward_bits,
        &parts.wards,
        tables,
    )
}

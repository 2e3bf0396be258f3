ghost use Rattle.std.specs.Prelude.{◌≡◌, List, ℕ, Some, IfOk, IfErr, MatchResult};
ghost use Rattle.exh_format.specs.FileVersion.{format_of};
ghost use Rattle.exh_format.specs.FileParts.{AreTaking, file_read};
ghost use Rattle.exh_format.specs.PageFile.{PageFile, IsKnownFile};
ghost use Rattle.exh_format.specs.Reading.{AreBytes, IsAll};
ghost use Rattle.exh_legal.specs.Reasons.{IsFirstReason};
ghost use Rattle.exh_format.specs.LegalFile.{IsLegalFileFaultOf, IsLegalPageFile, IsOtherFault, parts_in, tables_of, ward_tables};

use crate::tables::tables_of;
use crate::{FileParts, LegalFile, LegalFileFault, files_pass, one_file, read_file_into};
use exh_codec::ReadPages;
use exh_keyer::AnyKeyer;
use exh_legal::{Reason, Table, first_reason, legal_files_pass};
use std::alloc::{AllocError, Global};
use std::io::Read;

/// Reads a legal page file of either version, of which the reader has all bytes and no others, its pages
/// into what the caller names, with its table as one table a ward. A block takes at most 4,097 reads. It
/// takes memory for what was read, never for what a header claims, and for a few words a page of one
/// ward, which is given back.
///
/// `File`: the bytes aren't a page file; the fault is that of the first test that they fail.
/// `Illegal`: they are one, and this is the first reason for which it isn't legal. `Read`: the reader
/// failed. `Memory`: a growth was refused. The one met first counts.
pub fn read_legal_file<R: Read, W: ReadPages<AnyKeyer>>(
    alloc: Global,
    reader: &mut R,
) -> Result<LegalFile<W>, LegalFileFault>
    ensures legal { IfOk result (λ legal. (bytes : List ℕ) × IsAll (R.remaining reader.old) bytes × AreBytes bytes × IsLegalPageFile (format_of bytes) (file_read W.pages legal.parts) bytes) }
    ensures tables { IfOk result (λ legal. legal.tables.items ≡ ward_tables (file_read W.pages legal.parts)) }
    ensures takes { IfOk result (λ legal. AreTaking W.takes legal.parts) }
    ensures fault { IfErr result (IsLegalFileFaultOf (R.remaining reader.old)) }
    ensures every { (file : PageFile) (bytes : List ℕ) → R.remaining reader.old ≡ Some bytes → AreBytes bytes → IsLegalPageFile (format_of bytes) file bytes
        → MatchResult result (λ legal. file_read W.pages legal.parts ≡ file) IsOtherFault }
{
    one_file();
    files_pass();
    legal_files_pass();
    read_found(alloc, reader)
}

// The same, told of what was found alone.
fn read_found<R: Read, W: ReadPages<AnyKeyer>>(
    alloc: Global,
    reader: &mut R,
) -> Result<LegalFile<W>, LegalFileFault>
    ensures legal { IfOk result (λ legal. (bytes : List ℕ) × IsAll (R.remaining reader.old) bytes × AreBytes bytes × IsLegalPageFile (format_of bytes) (file_read W.pages legal.parts) bytes) }
    ensures tables { IfOk result (λ legal. legal.tables.items ≡ ward_tables (file_read W.pages legal.parts)) }
    ensures takes { IfOk result (λ legal. AreTaking W.takes legal.parts) }
    ensures fault { IfErr result (IsLegalFileFaultOf (R.remaining reader.old)) }
{
    legal_files_pass();
    let parts = read_file_into(alloc, reader)?;
    let mut tables = tables_of(alloc, &parts.entries)?;
    match reason_of(alloc, &parts, &tables)? {
        Some(reason) => Err(LegalFileFault::Illegal(reason)),
        None => {
            tables.truncate(parts.wards.len());
            Ok(LegalFile { parts, tables })
        }
    }
}

// The first reason for which a file isn't legal.
fn reason_of<W: ReadPages<AnyKeyer>>(
    alloc: Global,
    parts: &FileParts<W>,
    tables: &[Table],
) -> Result<Option<Reason>, AllocError>
    requires file { IsKnownFile (file_read W.pages parts.now) }
    requires tables { tables.now ≡ tables_of (file_read W.pages parts.now).entries }
    ensures { IfOk result (IsFirstReason (parts_in (file_read W.pages parts.now))) }
{
    first_reason(
        alloc,
        parts.header.settings.cap as usize,
        parts.header.settings.ward_bits,
        &parts.wards,
        tables,
    )
}

ghost use Rattle.std.specs.Prelude.{◌≡◌, ◌<◌, ◌^◌, List, ℕ, Some, length, map, IfOk, IfErr, MatchResult};
ghost use Rattle.std.specs.List.{AllByRecursion};
ghost use Rattle.exh_keyer.specs.Pseudokey.{any_pseudokey};
ghost use Rattle.exh_format.specs.HeaderImage.{IsKnownHeader};
ghost use Rattle.exh_format.specs.FileParts.{AreTaking, TakesFormed, file_read};
ghost use Rattle.exh_format.specs.PageFile.{IsKnownFile, PageFile};
ghost use Rattle.exh_format.specs.Reading.{AreBytes, IsAll};
ghost use Rattle.exh_legal.specs.ReasonLaws.{IsLegalFile};
ghost use Rattle.exh_format.specs.LegalFile.{parts_in, ward_tables};
ghost use Rattle.exh_versions.specs.LegalBytes.{IsLegalBytes};
ghost use Rattle.exh_file.specs.OpenFault.{HasCounted, HasCountedOne, IsCounted, IsOtherOpening};
ghost use Rattle.exh_file.specs.Opening.{AreLegalWards, AreOpened, IsLegalWard, IsOpenFaultOf, IsOpenedAs, IsOpenedFile, IsOpenedWard};

use crate::{OpenFault, Opened};
use exh_codec::ReadPages;
use exh_format::{Header, LegalFile, push_item};
use exh_keyer::AnyKeyer;
use exh_legal::legal_files_pass;
use exh_page::FileSettings;
use exh_stores::{Pages, StoreMaker};
use exh_table::Table;
use exh_versions::{AnyFile, FileForm, legal_bytes_are_files, read_any_file};
use exh_ward::Ward;
use std::alloc::Global;
use std::io::Read;
use std::mem;

/// The wards of a legal page file of any version, of which the reader has all bytes and no
/// others. The base of each ward is the map of its pages, its journal and its notices are empty, and
/// its start table is that of the entries which name it. Their stores are the maker's. A block takes at most 4,097
/// reads.
///
/// `File`: no legal page file was read; the first fault is told. `Page`: the file is legal, and a store of one of its
/// wards' pages couldn't reach one, which it has counted.
pub fn open_over<R: Read, P: Pages + Drop, M: StoreMaker<P, AnyKeyer>>(
    alloc: Global,
    maker: &M,
    reader: &mut R,
) -> Result<Opened<P>, OpenFault>
    ensures opened { IfOk result (λ opened. (file : PageFile) × (bytes : List ℕ) × IsAll (R.remaining reader.old) bytes × AreBytes bytes × IsLegalBytes file bytes × IsOpenedFile file opened) }
    ensures fault { IfErr result (IsOpenFaultOf (R.remaining reader.old)) }
    ensures every { (file : PageFile) (bytes : List ℕ) → R.remaining reader.old ≡ Some bytes → AreBytes bytes → IsLegalBytes file bytes
        → MatchResult result (IsOpenedFile file) IsOtherOpening }
    ensures counted { IfErr result (λ fault. fault ≡ OpenFault.Page → (file : PageFile) × (bytes : List ℕ) × IsAll (R.remaining reader.old) bytes × AreBytes bytes × IsLegalBytes file bytes
        × HasCountedOne P.pages P.failures file.wards) }
{
    match open_form_over(alloc, maker, reader) {
        Ok((opened, _form)) => Ok(opened),
        Err(fault) => Err(fault),
    }
}

/// The same, with how the file has its pages in places, so that it can be written again as it stood.
///
/// `File` and `Page`: as of `open_over`.
pub fn open_form_over<R: Read, P: Pages + Drop, M: StoreMaker<P, AnyKeyer>>(
    alloc: Global,
    maker: &M,
    reader: &mut R,
) -> Result<(Opened<P>, FileForm), OpenFault>
    ensures opened { IfOk result (λ found. IsOpenedAs (R.remaining reader.old) found.0 found.1) }
    ensures fault { IfErr result (IsOpenFaultOf (R.remaining reader.old)) }
    ensures every { (file : PageFile) (bytes : List ℕ) → R.remaining reader.old ≡ Some bytes → AreBytes bytes → IsLegalBytes file bytes
        → MatchResult result (λ found. IsOpenedFile file found.0) IsOtherOpening }
    ensures counted { IfErr result (λ fault. fault ≡ OpenFault.Page → (file : PageFile) × (bytes : List ℕ) × IsAll (R.remaining reader.old) bytes × AreBytes bytes × IsLegalBytes file bytes
        × HasCountedOne P.pages P.failures file.wards) }
{
    legal_bytes_are_files();
    let AnyFile { file, form } = read_any_file(alloc, reader)?;
    let mut legal = file;
    match open_legal(alloc, maker, &mut legal) {
        Ok(opened) => Ok((opened, form)),
        Err(fault) => Err(fault),
    }
}

// The wards of a file that was read. Its pages and tables are taken out of it.
fn open_legal<P: Pages + Drop, M: StoreMaker<P, AnyKeyer>>(
    alloc: Global,
    maker: &M,
    legal: &mut LegalFile<M::Read>,
) -> Result<Opened<P>, OpenFault>
    requires legal { IsLegalFile (any_pseudokey legal.old.parts.header.settings.keyer) (parts_in (file_read M.Read.pages legal.old.parts)) }
    requires file { IsKnownFile (file_read M.Read.pages legal.old.parts) }
    requires takes { AreTaking M.Read.takes legal.old.parts }
    requires tables { legal.old.tables.items ≡ ward_tables (file_read M.Read.pages legal.old.parts) }
    ensures opened { IfOk result (IsOpenedFile (file_read M.Read.pages legal.old.parts)) }
    ensures fault { IfErr result IsOtherOpening }
    ensures counted { IsCounted P.pages P.failures (file_read M.Read.pages legal.old.parts).wards result }
{
    legal_files_pass();
    let header = legal.parts.header;
    let pages = &mut legal.parts.wards;
    let wards = open_wards(alloc, maker, &header, pages, &mut legal.tables)?;
    Ok(Opened::new(header.settings, wards))
}

// The ward of each number, of its pages and its table, which are taken out of the lists.
fn open_wards<P: Pages + Drop, M: StoreMaker<P, AnyKeyer>>(
    alloc: Global,
    maker: &M,
    header: &Header,
    pages: &mut [M::Read],
    tables: &mut [Table],
) -> Result<Vec<Ward<P, AnyKeyer>>, OpenFault>
    requires header { IsKnownHeader header.now }
    requires pages { length pages.old ≡ 2 ^ header.now.settings.ward_bits }
    requires takes { AllByRecursion (TakesFormed M.Read.takes (any_pseudokey header.now.settings.keyer)) pages.old }
    requires tables { length tables.old ≡ 2 ^ header.now.settings.ward_bits }
    requires legal { AreLegalWards M.Read.pages header.now pages.old tables.old }
    ensures count { IfOk result (λ wards. length wards.items ≡ 2 ^ header.now.settings.ward_bits) }
    ensures opened { IfOk result (λ wards. AreOpened M.Read.pages header.now pages.old tables.old wards.items) }
    ensures fault { IfErr result IsOtherOpening }
    ensures counted { IsCounted P.pages P.failures (map M.Read.pages pages.old) result }
{
    let keyer = header.settings.keyer;
    let mut wards = Vec::new(alloc);
    for number in 0..pages.len() {
        let own = mem::replace(&mut pages[number], M::Read::empty(alloc, keyer));
        let table = mem::replace(&mut tables[number], Table::new(alloc));
        let ward = open_ward(alloc, maker, header, number as u8, own, table)?;
        push_item(&mut wards, ward)?;
    }
    Ok(wards)
}

// The ward of a number, of its pages and its table.
fn open_ward<P: Pages + Drop, M: StoreMaker<P, AnyKeyer>>(
    alloc: Global,
    maker: &M,
    header: &Header,
    number: u8,
    pages: M::Read,
    table: Table,
) -> Result<Ward<P, AnyKeyer>, OpenFault>
    requires header { IsKnownHeader header.now }
    requires number { number < 2 ^ header.now.settings.ward_bits }
    requires takes { TakesFormed M.Read.takes (any_pseudokey header.now.settings.keyer) pages }
    requires legal { IsLegalWard header.now number (M.Read.pages pages) table }
    ensures opened { IfOk result (IsOpenedWard header.now number (M.Read.pages pages) table) }
    ensures fault { IfErr result IsOtherOpening }
    ensures counted { IfErr result (λ fault. fault ≡ OpenFault.Page → HasCounted P.pages P.failures (M.Read.pages pages)) }
{
    let FileSettings {
        cap,
        ward_bits,
        keyer,
    } = header.settings;
    let store = maker.of_read(alloc, pages)?;
    match Ward::from_pages(alloc, cap, ward_bits, number, store, table, keyer) {
        Ok(ward) => Ok(ward),
        Err(fault) => Err(OpenFault::of_ward(fault)),
    }
}

ghost use Rattle.std.specs.Prelude.{◌≡◌, ◌≢◌, ℕ, List, Some, IfErr, IfOk, MatchResult, OnErr, OnOk};
ghost use Rattle.std.specs.Io.KnownBytes.{Appends};
ghost use Rattle.exh_stream.specs.Output.{AppendsBeginning};
ghost use Rattle.exh_format.specs.FileVersion.{written_format};
ghost use Rattle.exh_format.specs.PageFile.{PageFile, file_bytes};
ghost use Rattle.exh_format.specs.Reading.{AreBytes, IsAll};
ghost use Rattle.exh_versions.specs.LegalBytes.{IsLegalBytes};
ghost use Rattle.exh_file.specs.OpenFault.{IsOtherOpening};
ghost use Rattle.exh_file.specs.Opening.{IsOpenFaultOf, IsOpenedAs, IsOpenedFile};
ghost use Rattle.exh_file.specs.Reopened.{IsKept, IsWrittenAgain};
ghost use Rattle.exh_file.specs.SaveFault.{CountsSaveFailures};
ghost use Rattle.exh_file.specs.Saved.{IsLeft, failures_in, written_file};

use crate::{OpenFault, Opened, SaveFault, open_form_over, open_over, write_wards};
use exh_frames::{FileStore, MAKER};
use exh_stores::Pages;
use exh_stream::Output;
use exh_versions::FileForm;
use std::alloc::Global;
use std::io::{Read, Write};

/// The wards of a legal page file, as `open_over` gives them, over the program's stores.
///
/// `File`: no legal page file was read; the first fault is told. `Page` never comes: those stores reach every page.
pub fn open<R: Read>(alloc: Global, reader: &mut R) -> Result<Opened<FileStore>, OpenFault>
    ensures opened { IfOk result (λ opened. (file : PageFile) × (bytes : List ℕ) × IsAll (R.remaining reader.old) bytes × AreBytes bytes × IsLegalBytes file bytes × IsOpenedFile file opened) }
    ensures fault { IfErr result (IsOpenFaultOf (R.remaining reader.old)) }
    ensures every { (file : PageFile) (bytes : List ℕ) → R.remaining reader.old ≡ Some bytes → AreBytes bytes → IsLegalBytes file bytes
        → MatchResult result (IsOpenedFile file) IsOtherOpening }
    ensures reached { IfErr result (λ fault. fault ≢ OpenFault.Page) }
{
    open_over(alloc, &MAKER, reader)
}

/// The same, with how the file has its pages in places, so that it can be written again as it stood.
///
/// `File`: no legal page file was read; the first fault is told. `Page` never comes.
pub fn open_form<R: Read>(
    alloc: Global,
    reader: &mut R,
) -> Result<(Opened<FileStore>, FileForm), OpenFault>
    ensures opened { IfOk result (λ found. IsOpenedAs (R.remaining reader.old) found.0 found.1) }
    ensures fault { IfErr result (IsOpenFaultOf (R.remaining reader.old)) }
    ensures every { (file : PageFile) (bytes : List ℕ) → R.remaining reader.old ≡ Some bytes → AreBytes bytes → IsLegalBytes file bytes
        → MatchResult result (λ found. IsOpenedFile file found.0) IsOtherOpening }
    ensures reached { IfErr result (λ fault. fault ≢ OpenFault.Page) }
{
    open_form_over(alloc, &MAKER, reader)
}

/// Writes wards to a writer as their page file, in the version that is written, as `write_wards` does. What was written
/// whole opens as wards of the same pages and tables. The writer isn't flushed. It takes no memory of its own.
///
/// `Write`: the writer failed or took no bytes. `Page`: a page is out of reach. `Memory`: a growth was refused. Then
/// a beginning of the file went out. The wards are as before, so that they can be written elsewhere.
pub fn write_file<P: Pages + Drop, W: Write>(
    writer: &mut W,
    opened: &mut Opened<P>,
) -> Result<(), SaveFault>
    ensures ok { OnOk result (Appends (W.contents writer.old) (W.contents writer.new) (file_bytes written_format (written_file opened.old))) }
    ensures opens { OnOk result (IsKept opened.old (file_bytes written_format (written_file opened.old))) }
    ensures again { IsWrittenAgain opened.old }
    ensures err { OnErr result (AppendsBeginning (W.contents writer.old) (W.contents writer.new) (file_bytes written_format (written_file opened.old))) }
    ensures wards { IsLeft opened.old opened.new }
    ensures failures { CountsSaveFailures result (failures_in opened.old.wards) (failures_in opened.new.wards) }
{
    let settings = opened.settings;
    let mut output = Output::new(writer);
    write_wards(settings, &mut opened.wards, &mut output)
}

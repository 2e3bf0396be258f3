//! A copy of the wards of a file, which a save uses up.
ghost use Rattle.std.specs.Prelude.{IfErr, IfOk, OnOk};
ghost use Rattle.std.specs.Io.KnownBytes.{Appends};
ghost use Rattle.exh_format.specs.FileVersion.{written_format};
ghost use Rattle.exh_format.specs.PageFile.{file_bytes};
ghost use Rattle.exh_in_place.specs.Opened.{AreWardsOf, in_file};
ghost use Rattle.exh_in_place.specs.Reopened.{IsKept, IsReopened, OpensAs};
ghost use Rattle.exh_in_place.specs.Saved.{AreUnchanged, written_file};
ghost use Rattle.exh_map.specs.Sizes.{IsOfCause};

use crate::StoreError;
use exh_in_place::{FileStore, Opened, SaveFault, open, write_wards};
use exh_keyer::AnyKeyer;
use exh_page::FileSettings;
use exh_stores::Pages;
use exh_stream::Output;
use exh_ward::Ward;
use std::alloc::Global;
use std::io::Write;

/// The wards of a file as they stand, once more, their histories begun anew. It takes memory for their page file and for
/// them.
///
/// `Memory`: a growth was refused. `OutOfReach`: a page is out of reach.
pub(crate) fn copied<P: Pages + Drop>(
    alloc: Global,
    settings: FileSettings<AnyKeyer>,
    wards: &mut [Ward<P, AnyKeyer>],
) -> Result<Opened<FileStore>, StoreError>
    requires { AreWardsOf (in_file settings wards.old) }
    ensures copy { IfOk result (IsReopened (in_file settings wards.old)) }
    ensures refused { IfErr result IsOfCause }
    ensures wards { AreUnchanged wards.old wards.new }
{
    match written(alloc, settings, wards) {
        Ok(bytes) => opened_of(alloc, &bytes),
        Err(fault) => Err(StoreError::from(fault)),
    }
}

// The page file of wards, in memory.
fn written<P: Pages + Drop>(
    alloc: Global,
    settings: FileSettings<AnyKeyer>,
    wards: &mut [Ward<P, AnyKeyer>],
) -> Result<Vec<u8>, SaveFault>
    requires { AreWardsOf (in_file settings wards.old) }
    ensures kept { IfOk result (λ bytes. IsKept (in_file settings wards.old) bytes.items) }
    ensures wards { AreUnchanged wards.old wards.new }
{
    let mut bytes = Vec::new(alloc);
    match write_to(&mut bytes, settings, wards) {
        Ok(()) => Ok(bytes),
        Err(fault) => Err(fault),
    }
}

// Writes the page file of wards to a writer.
fn write_to<P: Pages + Drop, W: Write>(
    writer: &mut W,
    settings: FileSettings<AnyKeyer>,
    wards: &mut [Ward<P, AnyKeyer>],
) -> Result<(), SaveFault>
    requires { AreWardsOf (in_file settings wards.old) }
    ensures ok { OnOk result (Appends (W.contents writer.old) (W.contents writer.new) (file_bytes written_format (written_file (in_file settings wards.old)))) }
    ensures kept { OnOk result (IsKept (in_file settings wards.old) (file_bytes written_format (written_file (in_file settings wards.old)))) }
    ensures wards { AreUnchanged wards.old wards.new }
{
    write_wards(settings, wards, &mut Output::new(writer))
}

// The wards of a page file in memory.
fn opened_of(alloc: Global, bytes: &[u8]) -> Result<Opened<FileStore>, StoreError>
    ensures copy { IfOk result (OpensAs bytes.now) }
    ensures refused { IfErr result IsOfCause }
{
    let mut reader = bytes;
    match open(alloc, &mut reader) {
        Ok(opened) => Ok(opened),
        Err(fault) => Err(StoreError::of_opening(fault, None)),
    }
}

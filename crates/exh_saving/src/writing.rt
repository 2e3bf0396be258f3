ghost use Rattle.std.specs.Prelude.{IfErr, OnOk};
ghost use Rattle.std.specs.Io.KnownBytes.{Appends};
ghost use Rattle.exh_saving.specs.Unsaved.{IsUnwritten};

use crate::fault_keeper::FaultKeeper;
use crate::{Call, DiskFault, Source, SourceFault, Watch};
use std::io::Write;

/// Writes a source to a writer, tells a watch of its bytes, and gives both back. Where the writer failed, the fault is its
/// own.
pub(crate) fn write_source<W: Write + Drop, S: Source, V: Watch>(
    writer: W,
    source: S,
    watch: &V,
) -> (Result<(), DiskFault>, S, W)
    ensures leaves { S.leaves source result.1 }
    ensures err { IfErr result.0 (IsUnwritten (S.fails source result.1)) }
    ensures written { OnOk result.0 (Appends (W.contents writer) (W.contents result.2) (S.bytes source)) }
{
    let mut keeper = FaultKeeper::new(writer, watch);
    let (written, source) = source.write_to(&mut keeper);
    let (writer, fault) = keeper.into_parts();
    let written = match written {
        Ok(()) => Ok(()),
        Err(SourceFault::Writer) => Err(DiskFault::at(Call::Write, fault)),
        Err(SourceFault::Memory) => Err(DiskFault::Memory),
        Err(SourceFault::Source) => Err(DiskFault::Source),
    };
    (written, source, writer)
}

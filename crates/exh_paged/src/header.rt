//! The header of a page file of version 3 that was opened with its log.
ghost use Rattle.std.specs.Prelude.{◌≡◌, IfErr, IfOk};
ghost use Rattle.sqlite_wal.specs.State.{Keeps};
ghost use Rattle.exh_commit.specs.FilePages.{Leaves};
ghost use Rattle.exh_commit.specs.PagedFile.{IsHonest, IsReady, bytes_in, files_in, state_in};
ghost use Rattle.exh_paged.specs.declared.expected.Expected.{Expected};
ghost use Rattle.exh_paged.specs.FilesFault.{IsCause, IsEarly, IsOthersLog, IsSaved};
ghost use Rattle.exh_paged.specs.OwnLog.{HasHeader};

use crate::FilesFault;
use exh_cells::StampedHeader;
use exh_codec::BLOCK_LEN;
use exh_commit::PagedFile;
use sqlite_disk::Disk;

/// The header of a file, as its log has it.
///
/// `Header`: it fails this test. `Read`: it couldn't be read.
pub(crate) fn header_in<D: Disk>(file: &mut PagedFile<D>) -> Result<StampedHeader, FilesFault>
    requires { IsReady file.old }
    ensures header { IfOk result (λ header. IsHonest file.new → HasHeader (bytes_in file.old) header) }
    ensures refused { (expected : Expected) → IfErr result (λ fault. IsHonest file.new → IsCause expected (bytes_in file.old) fault) }
    ensures others { IfErr result (λ fault. IsOthersLog fault → ⊥) }
    ensures early { IfErr result IsEarly }
    ensures unsaved { IfErr result (λ fault. IsSaved fault → ⊥) }
    ensures same_bytes { bytes_in file.new ≡ bytes_in file.old }
    ensures ready { (state_in file.new).is_ready ≡ (state_in file.old).is_ready }
    ensures keeps { Keeps (state_in file.old) (state_in file.new) }
    ensures crash { Leaves D.Disk (files_in file.new) (λ bytes. bytes ≡ bytes_in file.old) }
{
    let mut block = [0; BLOCK_LEN];
    if let Err(error) = file.load(0, &mut block) {
        return Err(FilesFault::Read(error));
    }
    match StampedHeader::from_block(&block) {
        Ok(header) => Ok(header),
        Err(fault) => Err(FilesFault::Header(fault)),
    }
}

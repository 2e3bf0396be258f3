//! Blocks of one file that are copied into another, the first one last.
ghost use Rattle.std.specs.Prelude.{◌≡◌, IfErr, IfOk, OnOk};
ghost use Rattle.exh_map.specs.Backup.{IsOfBackup};
ghost use Rattle.exh_map.specs.Copy.{Becomes, EndsBehind, HasPut, IsCopy, IsRest, Takes};
ghost use Rattle.exh_in_place.specs.KnownBlocks.{IsBlockAt, IsCount};

use crate::target::Target;
use crate::{BackupFault, StoreError};
use exh_codec::BLOCK_LEN;
use exh_in_place::Blocks;

/// Copies all blocks of a file that stands still, the first one once the others are on the disk.
///
/// `File`: the file isn't read. `Copy`: the copy isn't written.
pub(crate) fn copy_all<B: Blocks, T: Target>(
    source: &mut B,
    copy: &mut T,
) -> Result<(), BackupFault>
    ensures copied { OnOk result (Takes IsCopy (B.known source.old) (T.has copy.old) (T.has copy.new)) }
    ensures refused { IfErr result IsOfBackup }
{
    let first = copy_rest(source, copy)?;
    finish(copy, &first)
}

/// Copies all blocks but the first, which is the answer. The copy has so many blocks as the file, at whose first place
/// anything may stand.
///
/// `File`: the file isn't read. `Copy`: the copy isn't written.
pub(crate) fn copy_rest<B: Blocks, T: Target>(
    source: &mut B,
    copy: &mut T,
) -> Result<[u8; BLOCK_LEN], BackupFault>
    ensures first { IfOk result (IsBlockAt (B.known source.old) 0) }
    ensures rest { OnOk result (Takes IsRest (B.known source.old) (T.has copy.old) (T.has copy.new)) }
    ensures refused { IfErr result IsOfBackup }
{
    let count = count_of(source)?;
    let first = read_block(source, 0)?;
    'places: for place in 1..count {
        let block = read_block(source, place)?;
        put_block(copy, place, &block)?;
    }
    end_behind(copy, count)?;
    Ok(first)
}

/// Puts the first block of a copy to the others, which are on the disk before.
///
/// `Copy`: it isn't written.
pub(crate) fn finish<T: Target>(copy: &mut T, first: &[u8; BLOCK_LEN]) -> Result<(), BackupFault>
    ensures put { OnOk result (Becomes (T.has copy.old) (T.has copy.new) (HasPut 0 first.now)) }
    ensures refused { IfErr result IsOfBackup }
{
    synchronize(copy)?;
    put_block(copy, 0, first)?;
    synchronize(copy)?;
    Ok(())
}

// How many blocks a file has, as far as places reach.
fn count_of<B: Blocks>(source: &B) -> Result<u32, BackupFault>
    ensures count { IfOk result (IsCount (B.known source.now)) }
    ensures refused { IfErr result IsOfBackup }
{
    match u32::try_from(source.count()) {
        Ok(count) => Ok(count),
        Err(_) => Err(BackupFault::File(StoreError::Trailing)),
    }
}

fn read_block<B: Blocks>(source: &mut B, place: u32) -> Result<[u8; BLOCK_LEN], BackupFault>
    ensures same { B.known source.new ≡ B.known source.old }
    ensures block { IfOk result (IsBlockAt (B.known source.old) place) }
    ensures refused { IfErr result IsOfBackup }
{
    let mut block = [0; BLOCK_LEN];
    match source.read(place, &mut block) {
        Ok(()) => Ok(block),
        Err(error) => Err(BackupFault::File(StoreError::from(error))),
    }
}

fn put_block<T: Target>(
    copy: &mut T,
    place: u32,
    block: &[u8; BLOCK_LEN],
) -> Result<(), BackupFault>
    ensures put { OnOk result (Becomes (T.has copy.old) (T.has copy.new) (HasPut place block.now)) }
    ensures refused { IfErr result IsOfBackup }
{
    match copy.put(place, block) {
        Ok(()) => Ok(()),
        Err(error) => Err(BackupFault::Copy(StoreError::from(error))),
    }
}

fn end_behind<T: Target>(copy: &mut T, count: u32) -> Result<(), BackupFault>
    ensures end { OnOk result (Becomes (T.has copy.old) (T.has copy.new) (EndsBehind count)) }
    ensures refused { IfErr result IsOfBackup }
{
    match copy.end(count) {
        Ok(()) => Ok(()),
        Err(error) => Err(BackupFault::Copy(StoreError::from(error))),
    }
}

fn synchronize<T: Target>(copy: &mut T) -> Result<(), BackupFault>
    ensures same { T.has copy.new ≡ T.has copy.old }
    ensures refused { IfErr result IsOfBackup }
{
    match copy.synchronize() {
        Ok(()) => Ok(()),
        Err(error) => Err(BackupFault::Copy(StoreError::from(error))),
    }
}

//! Edits of blocks, as writes of a pager's pages.
ghost use Rattle.std.specs.Prelude.{◌≡◌, ◌+◌, ◌≤◌, ℕ, max, IsTrue, IfErr, OnOk, OnErr};
ghost use Rattle.exh_codec.specs.declared.block.TheConstants.{BLOCK_LEN};
ghost use Rattle.sqlite_wal.specs.State.{Keeps, StaysOrFails};
ghost use Rattle.sqlite_pager.specs.Pager.{state, visible, files, page_count, HasSpilled, IsClean};
ghost use Rattle.exh_edits.specs.BlockEdits.{with_block, with_edits};
ghost use Rattle.exh_edits.specs.EditsInTurn.{AreInTurn};
ghost use Rattle.exh_commit.specs.CommitFault.{IsBehind, IsCause, IsUnsaved};
ghost use Rattle.exh_commit.specs.FilePages.{Leaves};
ghost use Rattle.exh_commit.specs.PagedFile.{IsOldOrEdited, bytes_seen};

use crate::CommitFault;
use exh_edits::BlockEdit;
use sqlite_disk::Disk;
use sqlite_pager::Pager;

/// Writes one block, which isn't committed: in place of the one at its place, or behind the last one.
fn write_block<D: Disk>(pager: &mut Pager<D>, edit: &BlockEdit) -> Result<(), CommitFault>
    requires { (state pager.old).page_size ≡ BLOCK_LEN }
    ensures ok { OnOk result (IsTrue (state pager.new).is_open → bytes_seen pager.new ≡ with_block edit.now.place edit.now.block (bytes_seen pager.old)) }
    ensures within { OnOk result (edit.now.place ≤ page_count pager.old) }
    ensures count { OnOk result (page_count pager.new ≡ max (page_count pager.old) (edit.now.place + 1)) }
    ensures err { IfErr result IsUnsaved }
    ensures cause { IfErr result (IsBehind (page_count pager.old) edit.now) }
    ensures keeps { Keeps (state pager.old) (state pager.new) }
{
    let count = pager.page_count();
    if edit.place < count {
        pager.write(edit.place + 1, &edit.block)?;
        return Ok(());
    }
    if edit.place > count {
        return Err(CommitFault::Place(edit.place));
    }
    pager.append(&edit.block)?;
    Ok(())
}

fn write_all<D: Disk>(pager: &mut Pager<D>, edits: &[BlockEdit]) -> Result<(), CommitFault>
    requires { (state pager.old).page_size ≡ BLOCK_LEN }
    ensures ok { OnOk result (IsTrue (state pager.new).is_open → bytes_seen pager.new ≡ with_edits edits.now (bytes_seen pager.old)) }
    ensures turn { OnOk result ((count : ℕ) × AreInTurn (page_count pager.old) edits.now count) }
    ensures err { IfErr result IsUnsaved }
    ensures cause { IfErr result (IsCause (page_count pager.old) edits.now) }
    ensures keeps { Keeps (state pager.old) (state pager.new) }
{
    for edit in edits {
        write_block(pager, edit)?;
    }
    Ok(())
}

/// Writes some blocks in one commit. Where it fails, what was written is taken back.
pub(crate) fn commit_edits<D: Disk>(
    pager: &mut Pager<D>,
    edits: &[BlockEdit],
) -> Result<(), CommitFault>
    requires size { (state pager.old).page_size ≡ BLOCK_LEN }
    requires ready { IsTrue (state pager.old).is_ready }
    requires seen { IsTrue (state pager.old).is_open → visible pager.old ≡ (state pager.old).committed }
    ensures ok { OnOk result (IsTrue (state pager.new).is_open → bytes_seen pager.new ≡ with_edits edits.now (bytes_seen pager.old)) }
    ensures err { OnErr result (IsTrue (state pager.new).is_open → bytes_seen pager.new ≡ bytes_seen pager.old) }
    ensures turn { OnOk result ((count : ℕ) × AreInTurn (page_count pager.old) edits.now count) }
    ensures cause { IfErr result (IsCause (page_count pager.old) edits.now) }
    ensures ready { OnOk result (IsTrue (state pager.new).is_ready) }
    ensures seen { IsTrue (state pager.new).is_open → visible pager.new ≡ (state pager.new).committed }
    ensures logged { IsTrue (state pager.new).is_ready → ¬ HasSpilled pager.new }
    ensures saved { OnOk result (Leaves D.Disk (files pager.new) (λ bytes. bytes ≡ with_edits edits.now (bytes_seen pager.old))) }
    ensures unsaved { IfErr result (λ fault. IsUnsaved fault → Leaves D.Disk (files pager.new) (λ bytes. bytes ≡ bytes_seen pager.old)) }
    ensures crash { Leaves D.Disk (files pager.new) (IsOldOrEdited edits.now (bytes_seen pager.old)) }
    ensures stays { StaysOrFails (state pager.old) (state pager.new) }
{
    if let Err(fault) = write_all(pager, edits) {
        pager.rollback();
        return Err(fault);
    }
    if let Err(error) = pager.commit() {
        pager.rollback();
        if pager.is_open() {
            return Err(CommitFault::NotSaved(error));
        }
        return Err(CommitFault::MaybeSaved(error));
    }
    Ok(())
}

//! What is done with a file that is open: its blocks are read, edits are committed and moved into the file, and it's closed.
ghost use Rattle.std.specs.Prelude.{◌≡◌, ℕ, [], IsTrue, IfErr, OnOk, OnErr};
ghost use Rattle.sqlite_wal.specs.State.{Keeps, StaysOrFails};
ghost use Rattle.exh_edits.specs.FileTests.{IsWhole, block_at};
ghost use Rattle.exh_edits.specs.BlockEdits.{with_edits};
ghost use Rattle.exh_edits.specs.EditsInTurn.{AreInTurn};
ghost use Rattle.exh_commit.specs.CommitFault.{IsCause, IsUnsaved};
ghost use Rattle.exh_commit.specs.FilePages.{Leaves, LeavesAlone};
ghost use Rattle.exh_commit.specs.PagedFile.{IsHonest, IsOldOrEdited, IsReady, bytes_in, files_in, state_in};

use crate::writing::commit_edits;
use crate::{CommitFault, PagedFile};
use exh_codec::BLOCK_LEN;
use exh_edits::BlockEdit;
use sqlite_disk::{Disk, Files};
use sqlite_pager::Error;

impl<D: Disk> PagedFile<D> {
    /// How many blocks the file has.
    pub fn count(&self) -> u32
        ensures { result ≡ self.now.pager.count }
    {
        self.pager.page_count()
    }

    /// No call has failed after which the file has to be opened again.
    pub fn is_ready(&self) -> bool
        ensures { result ≡ (state_in self.now).is_ready }
    {
        self.pager.is_open()
    }

    /// Reads the block at a place, of which the first is 0.
    ///
    /// An error: `NoSuchPage`, there is no such block; `Io`, a call of the disk failed; `Closed`, the file isn't ready.
    pub fn load(&mut self, place: u32, block: &mut [u8; BLOCK_LEN]) -> Result<(), Error>
        ensures block { OnOk result (IsReady self.old → IsHonest self.new → IsWhole place (bytes_in self.old) × (block.new ≡ block_at place (bytes_in self.old))) }
        ensures same_bytes { bytes_in self.new ≡ bytes_in self.old }
        ensures same_count { self.new.pager.count ≡ self.old.pager.count }
        ensures ready { (state_in self.new).is_ready ≡ (state_in self.old).is_ready }
        ensures keeps { Keeps (state_in self.old) (state_in self.new) }
        ensures crash { IsReady self.old → Leaves D.Disk (files_in self.new) (λ bytes. bytes ≡ bytes_in self.old) }
    {
        let Some(page) = place.checked_add(1) else {
            return Err(Error::NoSuchPage);
        };
        self.pager.load(page)?;
        block.copy_from_slice(self.pager.loaded());
        Ok(())
    }

    /// Commits some edits, the first of which is made first: all of them or none. Where there is none, nothing is done. It
    /// takes memory for the blocks of the edits.
    ///
    /// `Place`: the block of an edit would stand behind the end of the file. `NotSaved`: a call failed, and nothing was
    /// committed. `MaybeSaved`: the end of the commit failed, and the next open tells whether the edits were committed.
    pub fn commit(&mut self, edits: &[BlockEdit]) -> Result<(), CommitFault>
        requires { IsReady self.old }
        ensures ok { OnOk result (IsHonest self.new → bytes_in self.new ≡ with_edits edits.now (bytes_in self.old)) }
        ensures ready { OnOk result (IsReady self.new) }
        ensures err { OnErr result (IsReady self.new → IsHonest self.new → bytes_in self.new ≡ bytes_in self.old) }
        ensures turn { OnOk result ((count : ℕ) × AreInTurn self.old.pager.count edits.now count) }
        ensures cause { IfErr result (IsCause self.old.pager.count edits.now) }
        ensures none { edits.now ≡ [] → files_in self.new ≡ files_in self.old }

        // What a crash leaves: the new bytes, the old ones, or, however far it gets, one of both.
        ensures saved { OnOk result (Leaves D.Disk (files_in self.new) (λ bytes. bytes ≡ with_edits edits.now (bytes_in self.old))) }
        ensures unsaved { IfErr result (λ fault. IsUnsaved fault → Leaves D.Disk (files_in self.new) (λ bytes. bytes ≡ bytes_in self.old)) }
        ensures crash { Leaves D.Disk (files_in self.new) (IsOldOrEdited edits.now (bytes_in self.old)) }
        ensures stays { StaysOrFails (state_in self.old) (state_in self.new) }
    {
        if edits.is_empty() {
            return Ok(());
        }
        commit_edits(&mut self.pager, edits)
    }

    /// Moves what is committed into the file alone, so that its log may be left away.
    ///
    /// An error: `Io`, a call of the disk failed. What is committed stands in the log or in the file, and a crash leaves it.
    pub fn settle(&mut self) -> Result<(), Error>
        requires { IsReady self.old }
        ensures ready { OnOk result (IsReady self.new) }
        ensures bytes { IsReady self.new → IsHonest self.new → bytes_in self.new ≡ bytes_in self.old }
        ensures alone { OnOk result (LeavesAlone D.Disk (files_in self.new) (λ bytes. bytes ≡ bytes_in self.old)) }
        ensures crash { Leaves D.Disk (files_in self.new) (λ bytes. bytes ≡ bytes_in self.old) }
        ensures keeps { Keeps (state_in self.old) (state_in self.new) }
    {
        self.pager.checkpoint()
    }

    /// Gives the log and the file back. Nothing is written.
    pub fn close(self) -> Files<D>
        ensures { (result.log, result.db) ≡ files_in self }
    {
        let PagedFile { pager } = self;
        pager.close()
    }
}

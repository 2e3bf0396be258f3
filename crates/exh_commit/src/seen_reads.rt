//! What is read of a page file and of its log before the two are opened.
ghost use Rattle.std.specs.Prelude.{◌≡◌, ◌↔◌, IsTrue, IfOk, OnErr};
ghost use Rattle.sqlite_wal.specs.Reads.{IsClean, OnlyReads};
ghost use Rattle.exh_edits.specs.FileTests.{IsWhole, block_at};
ghost use Rattle.exh_commit.specs.LogLine.{IsBlockOf, IsLineOf};

use crate::SeenFiles;
use crate::log_line::{is_block_of, is_line_of};
use exh_codec::BLOCK_LEN;
use sqlite_disk::Disk;
use sqlite_pager::Error;
use std::alloc::Global;
use std::io;

impl<D: Disk> SeenFiles<D> {
    /// Reads the first block of the file, as it is without its log; whether it has one.
    ///
    /// An error: a call of the disk failed.
    pub fn read_first(&mut self, block: &mut [u8; BLOCK_LEN]) -> io::Result<bool>
        requires { IsTrue (D.Disk.is_usable self.old.db) }
        ensures whole { IfOk result (λ is_whole. IsClean D.Disk self.new.db → (IsTrue is_whole ↔ IsWhole 0 (D.Disk.seen self.old.db))) }
        ensures block { IfOk result (λ is_whole. IsClean D.Disk self.new.db → IsTrue is_whole → block.new ≡ block_at 0 (D.Disk.seen self.old.db)) }
        ensures db { OnlyReads D.Disk self.old.db self.new.db }
        ensures log { self.new.log ≡ self.old.log }
    {
        if self.db.len()? < BLOCK_LEN {
            return Ok(false);
        }
        self.db.read_at(0, block)?;
        Ok(true)
    }

    /// Whether the commits of the log made states of the page file that has this stamp without it, each but the first of the
    /// one in front of it. Nothing is written. It takes memory for the log's frames.
    ///
    /// An error: `OutOfMemory`, a growth was refused; `Io`, a call of the disk failed; `Full`, 32 bits don't number the frames.
    pub fn is_line_of(&mut self, alloc: Global, own: u64) -> Result<bool, Error>
        requires { IsTrue (D.Disk.is_usable self.old.log) }
        ensures line { IfOk result (λ is_line. IsClean D.Disk self.new.log → (IsTrue is_line ↔ IsLineOf (D.Disk.seen self.old.log) own)) }
        ensures log { OnlyReads D.Disk self.old.log self.new.log }
        ensures db { self.new.db ≡ self.old.db }
    {
        is_line_of(alloc, &mut self.log, own)
    }
    /// Whether a block, whatever else is in it, has at a header's places the stamps of a state that a commit of the log made, or
    /// the stamp of the one from which the first came, as the first block of a file has into which the log was being copied.
    /// Nothing is written. It takes memory for the log's frames.
    ///
    /// Errors: as of `is_line_of`.
    pub fn is_block_of(&mut self, alloc: Global, block: &[u8; BLOCK_LEN]) -> Result<bool, Error>
        requires { IsTrue (D.Disk.is_usable self.old.log) }
        ensures block { IfOk result (λ is. IsClean D.Disk self.new.log → (IsTrue is ↔ IsBlockOf (D.Disk.seen self.old.log) block.now)) }
        ensures log { OnlyReads D.Disk self.old.log self.new.log }
        ensures db { self.new.db ≡ self.old.db }
    {
        is_block_of(alloc, &mut self.log, block)
    }
}

//! The states of a page file that the commits of a log made, one of the other.
ghost use Rattle.std.specs.Prelude.{◌≡◌, ◌+◌, ◌^◌, ◌<◌, ◌↔◌, ◌++◌, ℕ, length, slice_index, IsTrue, IfOk, IfSome, MatchOption, OnOk};
ghost use Rattle.sqlite_wal.specs.Format.{content};
ghost use Rattle.sqlite_wal.specs.Reads.{IsClean, OnlyReads};
ghost use Rattle.sqlite_wal.specs.Recovery.{AreFramesOf, frame as frame_of};
ghost use Rattle.exh_codec.specs.declared.block.TheConstants.{BLOCK_LEN as BlockLen};
ghost use Rattle.exh_commit.specs.LogLine.{AreInLine, AreStatesOf, HasNoStates, IsBlockOf, IsLineOf, IsOfLine, IsOfState, before_in, field_at, fields_of, stamp_in};

use crate::log_header::get_be64;
use crate::log_look::{EMPTY_LEN, content_at};
use exh_codec::BLOCK_LEN;
use sqlite_disk::Disk;
use sqlite_pager::{Error, PageSize};
use sqlite_wal::probe_frames;
use std::alloc::Global;
use std::io;

// Where a header of version 3 has its stamp.
const STAMP: usize = 84;

// Where it has the one before.
const BEFORE: usize = 92;

/// The stamps in the headers that a log has, in their order, and the stamps before.
#[derive(Drop)]
struct Line {
    stamps: Vec<u64>,
    befores: Vec<u64>,
}

/// Whether the commits of a log made states of the page file that has this stamp without it, each but the first of the one
/// in front of it. Nothing is written. It takes memory for the log's frames.
pub(crate) fn is_line_of<D: Disk>(alloc: Global, log: &mut D, own: u64) -> Result<bool, Error>
    requires { IsTrue (D.Disk.is_usable log.old) }
    ensures line { IfOk result (λ is_line. IsClean D.Disk log.new → (IsTrue is_line ↔ IsLineOf (D.Disk.seen log.old) own)) }
    ensures same { OnlyReads D.Disk log.old log.new }
{
    match line_in(alloc, log)? {
        Some(line) => Ok(line.has_own(own)),
        None => Ok(false),
    }
}

/// Whether a block, whatever else is in it, has at a header's places the stamps of a state that a commit of a log made, or the
/// stamp of the one from which the first came. Nothing is written. It takes memory for the log's frames.
pub(crate) fn is_block_of<D: Disk>(
    alloc: Global,
    log: &mut D,
    block: &[u8; BLOCK_LEN],
) -> Result<bool, Error>
    requires { IsTrue (D.Disk.is_usable log.old) }
    ensures block { IfOk result (λ is. IsClean D.Disk log.new → (IsTrue is ↔ IsBlockOf (D.Disk.seen log.old) block.now)) }
    ensures same { OnlyReads D.Disk log.old log.new }
{
    match line_in(alloc, log)? {
        Some(line) => Ok(line.has_block(block)),
        None => Ok(false),
    }
}

impl Line {
    // Whether the states are in line, and the stamp is that of one of them, or of the one from which the first came.
    fn has_own(&self, own: u64) -> bool
        requires { length self.now.befores.items ≡ length self.now.stamps.items }
        ensures { IsTrue result ↔ (AreInLine self.now.stamps.items self.now.befores.items × IsOfLine self.now.stamps.items self.now.befores.items own) }
    {
        are_in_line(&self.stamps, &self.befores) && is_of_line(&self.stamps, &self.befores, own)
    }

    // Whether a block has at a header's places the stamps of one of the states, or the one before the first of them.
    fn has_block(&self, block: &[u8; BLOCK_LEN]) -> bool
        requires { length self.now.befores.items ≡ length self.now.stamps.items }
        ensures { IsTrue result ↔ IsOfState self.now.stamps.items self.now.befores.items (stamp_in block.now) (before_in block.now) }
    {
        let stamp = get_be64(block, STAMP);
        let before = get_be64(block, BEFORE);
        is_of_state(&self.stamps, &self.befores, stamp, before)
    }
}

// The states that the commits of a log made; `None` where it has no commit.
fn line_in<D: Disk>(alloc: Global, log: &mut D) -> Result<Option<Line>, Error>
    requires { IsTrue (D.Disk.is_usable log.old) }
    ensures line { IfOk result (λ line. IsClean D.Disk log.new → MatchOption line (HasNoStates (D.Disk.seen log.old)) (λ line. AreStatesOf (D.Disk.seen log.old) line.stamps.items line.befores.items)) }
    ensures count { IfOk result (λ line. IfSome line (λ line. length line.befores.items ≡ length line.stamps.items)) }
    ensures same { OnlyReads D.Disk log.old log.new }
{
    let len = log.len()?;
    if len <= EMPTY_LEN {
        return Ok(None);
    }
    long_line_in(alloc, log, len)
}

// The same of a log of so many bytes, which are enough for a commit.
fn long_line_in<D: Disk>(alloc: Global, log: &mut D, len: usize) -> Result<Option<Line>, Error>
    requires usable { IsTrue (D.Disk.is_usable log.old) }
    requires len { IsClean D.Disk log.old → len ≡ length (D.Disk.seen log.old) }
    requires long { 56 < len }
    ensures line { IfOk result (λ line. IsClean D.Disk log.new → MatchOption line (HasNoStates (D.Disk.seen log.old)) (λ line. AreStatesOf (D.Disk.seen log.old) line.stamps.items line.befores.items)) }
    ensures count { IfOk result (λ line. IfSome line (λ line. length line.befores.items ≡ length line.stamps.items)) }
    ensures same { OnlyReads D.Disk log.old log.new }
{
    let Some(size) = PageSize::new(BLOCK_LEN) else {
        unreachable!();
    };
    match probe_frames(alloc, log, size) {
        Ok(numbers) => Ok(Some(read_line(alloc, log, &numbers)?)),
        // Recovery takes no commit of it.
        Err(Error::Corrupt) => Ok(None),
        Err(error) => Err(error),
    }
}

// Reads the stamps in the headers that a log has, which has these frames.
fn read_line<D: Disk>(alloc: Global, log: &mut D, numbers: &[u32]) -> Result<Line, Error>
    requires usable { IsTrue (D.Disk.is_usable log.old) }
    requires short { IsClean D.Disk log.old → length (D.Disk.seen log.old) < 2 ^ 64 }
    requires frames { IsClean D.Disk log.old → AreFramesOf BlockLen (D.Disk.seen log.old) numbers.now }
    ensures stamps { IfOk result (λ line. IsClean D.Disk log.new → line.stamps.items ≡ fields_of stamp_in (D.Disk.seen log.old) (length numbers.now)) }
    ensures befores { IfOk result (λ line. IsClean D.Disk log.new → line.befores.items ≡ fields_of before_in (D.Disk.seen log.old) (length numbers.now)) }
    ensures count { IfOk result (λ line. length line.befores.items ≡ length line.stamps.items) }
    ensures same { OnlyReads D.Disk log.old log.new }
{
    let mut line = Line {
        stamps: Vec::new(alloc),
        befores: Vec::new(alloc),
    };
    for frame in 0..numbers.len() {
        read_state(log, numbers, frame, &mut line)?;
    }
    Ok(line)
}

// Reads the stamps in the header that a frame has, if it has one, of a log that has these frames.
fn read_state<D: Disk>(
    log: &mut D,
    numbers: &[u32],
    frame: usize,
    line: &mut Line,
) -> Result<(), Error>
    requires usable { IsTrue (D.Disk.is_usable log.old) }
    requires short { IsClean D.Disk log.old → length (D.Disk.seen log.old) < 2 ^ 64 }
    requires frames { IsClean D.Disk log.old → AreFramesOf BlockLen (D.Disk.seen log.old) numbers.now }
    requires within { frame < length numbers.now }
    ensures stamps { OnOk result (IsClean D.Disk log.new → line.new.stamps.items ≡ line.old.stamps.items ++ field_at stamp_in (D.Disk.seen log.old) frame) }
    ensures befores { OnOk result (IsClean D.Disk log.new → line.new.befores.items ≡ line.old.befores.items ++ field_at before_in (D.Disk.seen log.old) frame) }
    ensures count { OnOk result (length line.old.befores.items ≡ length line.old.stamps.items → length line.new.befores.items ≡ length line.new.stamps.items) }
    ensures same { OnlyReads D.Disk log.old log.new }
{
    if numbers[frame] != 1 {
        return Ok(());
    }
    let mut block = [0; BLOCK_LEN];
    read_frame(log, numbers, frame, &mut block)?;
    line.stamps.push(get_be64(&block, STAMP))?;
    line.befores.push(get_be64(&block, BEFORE))?;
    Ok(())
}

// Reads the block of a frame of a log that has these frames.
fn read_frame<D: Disk>(
    log: &mut D,
    numbers: &[u32],
    frame: usize,
    block: &mut [u8; BLOCK_LEN],
) -> io::Result<()>
    requires usable { IsTrue (D.Disk.is_usable log.old) }
    requires short { IsClean D.Disk log.old → length (D.Disk.seen log.old) < 2 ^ 64 }
    requires frames { IsClean D.Disk log.old → AreFramesOf BlockLen (D.Disk.seen log.old) numbers.now }
    requires within { frame < length numbers.now }
    ensures block { OnOk result (IsClean D.Disk log.new → content (frame_of BlockLen (D.Disk.seen log.old) frame) ≡ block.new) }
    ensures same { OnlyReads D.Disk log.old log.new }
{
    log.read_at(content_at(frame), block)?;
    Ok(())
}

// Whether each state but the first came of the one in front of it.
fn are_in_line(stamps: &[u64], befores: &[u64]) -> bool
    requires { length befores.now ≡ length stamps.now }
    ensures { IsTrue result ↔ AreInLine stamps.now befores.now }
{
    for at in 1..stamps.len() {
        if befores[at] != stamps[at - 1] {
            return false;
        }
    }
    true
}

// Whether a stamp is that of one of the states, or of the one from which the first came.
fn is_of_line(stamps: &[u64], befores: &[u64], own: u64) -> bool
    requires { length befores.now ≡ length stamps.now }
    ensures { IsTrue result ↔ IsOfLine stamps.now befores.now own }
{
    if stamps.is_empty() {
        return false;
    }
    befores[0] == own || has_stamp(stamps, own)
}

// Whether the two stamps are those of one of the states, or the first is the one before the first of them.
fn is_of_state(stamps: &[u64], befores: &[u64], stamp: u64, before: u64) -> bool
    requires { length befores.now ≡ length stamps.now }
    ensures { IsTrue result ↔ IsOfState stamps.now befores.now stamp before }
{
    if stamps.is_empty() {
        return false;
    }
    befores[0] == stamp || has_state(stamps, befores, stamp, before)
}

fn has_state(stamps: &[u64], befores: &[u64], stamp: u64, before: u64) -> bool
    requires { length befores.now ≡ length stamps.now }
    ensures { IsTrue result ↔ ((i : ℕ) × (i < length stamps.now) × (slice_index stamps.now i ≡ stamp) × (slice_index befores.now i ≡ before)) }
{
    for at in 0..stamps.len() {
        if stamps[at] == stamp && befores[at] == before {
            return true;
        }
    }
    false
}

fn has_stamp(stamps: &[u64], own: u64) -> bool
    ensures { IsTrue result ↔ ((i : ℕ) × (i < length stamps.now) × (slice_index stamps.now i ≡ own)) }
{
    for at in 0..stamps.len() {
        if stamps[at] == own {
            return true;
        }
    }
    false
}

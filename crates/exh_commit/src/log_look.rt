//! The look at what stands at a log's name, before it is opened for writing.
ghost use Rattle.std.specs.Prelude.{◌≡◌, ◌≢◌, ◌+◌, ◌*◌, ◌^◌, ◌<◌, ◌≤◌, ◌↔◌, ℕ, length, min, slice_index, take, IsTrue, IfErr, IfOk, MatchOption, OnOk};
ghost use Rattle.sqlite_disk.specs.Disk.{CountsFault};
ghost use Rattle.sqlite_wal.specs.Index.{IsLatest};
ghost use Rattle.sqlite_wal.specs.Outcome.{HasCause, OnlyIf};
ghost use Rattle.sqlite_wal.specs.Reads.{IsClean, OnlyReads};
ghost use Rattle.sqlite_wal.specs.Recovery.{AreFramesOf};
ghost use Rattle.exh_codec.specs.declared.block.TheConstants.{BLOCK_LEN as BlockLen};
ghost use Rattle.exh_commit.specs.LogLook.{HasOwnCommits, IsCause, IsHeaderOfPages, IsOwnLog, IsVast};

use crate::log_header::{FIRST, begins_as, is_header};
use crate::{LogFault, SeenFiles};
use exh_codec::{BLOCK_LEN, are_zero};
use exh_edits::{MAGIC, PLACED_NUMBER};
use sqlite_disk::{Disk, Files};
use sqlite_pager::{Error, PageSize};
use sqlite_wal::probe_frames;
use std::alloc::Global;
use std::io;

/// A log of no more bytes has no commit.
pub(crate) const EMPTY_LEN: usize = 56;

const HEADER_LEN: usize = 32;

const FRAME_HEADER_LEN: usize = 24;

/// Looks at what stands at the log's name, and writes nothing. It goes on where that is a log of page files, is being emptied,
/// or has at most 56 bytes and is a log that was begun, or empty. It takes memory for the log's frames.
///
/// An error, with the files: `NoLog`, it is anything else; `Read`, it couldn't be read, or a growth was refused.
pub fn see_log<D: Disk + Drop>(
    alloc: Global,
    files: Files<D>,
) -> Result<SeenFiles<D>, (LogFault, Files<D>)>
    requires { IsTrue (D.Disk.is_usable files.log) }

    // The bytes are as before, and the file isn't asked.
    ensures seen { IfOk result (λ it. OnlyReads D.Disk files.log it.log × (it.db ≡ files.db)) }
    ensures given_back { IfErr result (λ failed. OnlyReads D.Disk files.log failed.1.log × (failed.1.db ≡ files.db)) }

    // It goes on over just these bytes, unless a wrong answer of the disk was taken as true.
    ensures own { IfOk result (λ it. IsClean D.Disk it.log → IsOwnLog (D.Disk.seen files.log)) }
    ensures refused { IfErr result (λ failed. IsClean D.Disk failed.1.log → IsCause (D.Disk.seen files.log) (D.Disk.faults files.log) (D.Disk.faults failed.1.log) failed.0) }
{
    let Files { mut log, db } = files;
    match is_own(alloc, &mut log) {
        Ok(true) => Ok(SeenFiles { log, db }),
        Ok(false) => Err((LogFault::NoLog, Files { log, db })),
        Err(error) => Err((LogFault::Read(error), Files { log, db })),
    }
}

fn is_own<D: Disk>(alloc: Global, log: &mut D) -> Result<bool, Error>
    requires { IsTrue (D.Disk.is_usable log.old) }
    ensures own { IfOk result (λ own. IsClean D.Disk log.new → (IsTrue own ↔ IsOwnLog (D.Disk.seen log.old))) }
    ensures cause { IfErr result (λ error. IsClean D.Disk log.new → HasCause (D.Disk.faults log.old) (D.Disk.faults log.new) (OnlyIf Error.Full (IsVast (D.Disk.seen log.old))) error) }
    ensures same { OnlyReads D.Disk log.old log.new }
{
    let len = log.len()?;
    let mut first = [0; EMPTY_LEN];
    is_own_of(alloc, log, len, &mut first)
}

// The same of a log of so many bytes, of which the first are read into the array.
fn is_own_of<D: Disk>(
    alloc: Global,
    log: &mut D,
    len: usize,
    first: &mut [u8; EMPTY_LEN],
) -> Result<bool, Error>
    requires usable { IsTrue (D.Disk.is_usable log.old) }
    requires len { IsClean D.Disk log.old → len ≡ length (D.Disk.seen log.old) }
    ensures own { IfOk result (λ own. IsClean D.Disk log.new → (IsTrue own ↔ IsOwnLog (D.Disk.seen log.old))) }
    ensures cause { IfErr result (λ error. IsClean D.Disk log.new → HasCause (D.Disk.faults log.old) (D.Disk.faults log.new) (OnlyIf Error.Full (IsVast (D.Disk.seen log.old))) error) }
    ensures same { OnlyReads D.Disk log.old log.new }
{
    let front = &mut first[..len.min(EMPTY_LEN)];
    read_front(log, front)?;
    begins_own(alloc, log, len, front)
}

// The same of a log of so many bytes that begins so.
fn begins_own<D: Disk>(alloc: Global, log: &mut D, len: usize, front: &[u8]) -> Result<bool, Error>
    requires usable { IsTrue (D.Disk.is_usable log.old) }
    requires len { IsClean D.Disk log.old → len ≡ length (D.Disk.seen log.old) }
    requires front { IsClean D.Disk log.old → front.now ≡ take (length front.now) (D.Disk.seen log.old) }
    requires count { length front.now ≡ min len 56 }
    ensures own { IfOk result (λ own. IsClean D.Disk log.new → (IsTrue own ↔ IsOwnLog (D.Disk.seen log.old))) }
    ensures cause { IfErr result (λ error. IsClean D.Disk log.new → HasCause (D.Disk.faults log.old) (D.Disk.faults log.new) (OnlyIf Error.Full (IsVast (D.Disk.seen log.old))) error) }
    ensures same { OnlyReads D.Disk log.old log.new }
{
    if begins_as(0, front) {
        return Ok(true);
    }
    if len <= EMPTY_LEN {
        return Ok(are_zero(front) || begins_as(FIRST, front));
    }
    if !is_header(&front[..HEADER_LEN]) {
        return Ok(false);
    }
    Ok(has_own_commits(alloc, log, len)?)
}

// Reads the first bytes.
fn read_front<D: Disk>(log: &mut D, front: &mut [u8]) -> io::Result<()>
    requires usable { IsTrue (D.Disk.is_usable log.old) }
    requires within { IsClean D.Disk log.old → length front.old ≤ length (D.Disk.seen log.old) }
    ensures front { OnOk result (IsClean D.Disk log.new → front.new ≡ take (length front.old) (D.Disk.seen log.old)) }
    ensures len { length front.new ≡ length front.old }
    ensures faults { CountsFault result (D.Disk.faults log.old) (D.Disk.faults log.new) }
    ensures same { OnlyReads D.Disk log.old log.new }
{
    log.read_at(0, front)
}

// Whether the last commit of a log of so many bytes, if there is one, is of a page file.
fn has_own_commits<D: Disk>(alloc: Global, log: &mut D, len: usize) -> Result<bool, Error>
    requires usable { IsTrue (D.Disk.is_usable log.old) }
    requires len { IsClean D.Disk log.old → len ≡ length (D.Disk.seen log.old) }
    ensures own { IfOk result (λ own. IsClean D.Disk log.new → (IsTrue own ↔ HasOwnCommits (D.Disk.seen log.old))) }
    ensures cause { IfErr result (λ error. IsClean D.Disk log.new → HasCause (D.Disk.faults log.old) (D.Disk.faults log.new) (OnlyIf Error.Full (IsVast (D.Disk.seen log.old))) error) }
    ensures same { OnlyReads D.Disk log.old log.new }
{
    let Some(size) = PageSize::new(BLOCK_LEN) else {
        unreachable!();
    };
    match probe_frames(alloc, log, size) {
        Ok(numbers) => has_header(log, &numbers),
        // Recovery takes no commit of it, and refuses it as it is.
        Err(Error::Corrupt) => Ok(true),
        Err(error) => Err(error),
    }
}

// Whether the last of these frames that is of page 1 has the header of a page file, if there are frames.
fn has_header<D: Disk>(log: &mut D, numbers: &[u32]) -> Result<bool, Error>
    requires usable { IsTrue (D.Disk.is_usable log.old) }
    requires short { IsClean D.Disk log.old → length (D.Disk.seen log.old) < 2 ^ 64 }
    requires frames { IsClean D.Disk log.old → AreFramesOf BlockLen (D.Disk.seen log.old) numbers.now }
    ensures own { IfOk result (λ own. IsClean D.Disk log.new → (IsTrue own ↔ HasOwnCommits (D.Disk.seen log.old))) }
    ensures cause { IfErr result (λ error. IsClean D.Disk log.new → HasCause (D.Disk.faults log.old) (D.Disk.faults log.new) (OnlyIf Error.Full (IsVast (D.Disk.seen log.old))) error) }
    ensures same { OnlyReads D.Disk log.old log.new }
{
    if numbers.is_empty() {
        return Ok(true);
    }
    let Some(frame) = last_of_first_page(numbers) else {
        return Ok(false);
    };
    let mut block = [0; BLOCK_LEN];
    match log.read_at(content_at(frame), &mut block) {
        Ok(()) => Ok(is_header_of_pages(&block)),
        Err(error) => Err(Error::Io(error)),
    }
}

/// Where the block of a frame stands in a log.
pub(crate) fn content_at(frame: usize) -> usize
    ensures { 56 + 4120 * frame < 2 ^ 64 → result ≡ 56 + 4120 * frame }
{
    let frames = frame.saturating_mul(FRAME_HEADER_LEN + BLOCK_LEN);
    frames.saturating_add(HEADER_LEN + FRAME_HEADER_LEN)
}

fn is_header_of_pages(block: &[u8; BLOCK_LEN]) -> bool
    ensures { IsTrue result ↔ IsHeaderOfPages block.now }
{
    block[..8] == MAGIC[..] && block[8] == 0 && u16::from(block[9]) == PLACED_NUMBER
}

// The last frame of page 1.
fn last_of_first_page(numbers: &[u32]) -> Option<usize>
    ensures { MatchOption result ((i : ℕ) → i < length numbers.now → slice_index numbers.now i ≢ 1) (IsLatest numbers.now 1) }
{
    let count = numbers.len();
    for past in 0..count {
        let frame = count - 1 - past;
        if numbers[frame] == 1 {
            return Some(frame);
        }
    }
    None
}

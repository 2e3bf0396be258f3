ghost use Rattle.std.specs.Prelude.{◌≡◌, ◌<◌, ◌≤◌, ◌↔◌, ℕ, List, length, take, vec_len, IfOk, OnOk, OnErr, IsErr, IsErrOf, IsTrue, IsFalse};
ghost use Rattle.std.specs.Io.{ReadsAtMost};
ghost use Rattle.std.specs.Io.KnownBytes.{Consumes, IsAtEnd, ReadConsumes};
ghost use Rattle.exh_stream.specs.Source.{LosesFrontOf, LosesLonger, LosesSome, ReadsFrom, SameReader, ReaderUntouched, reader_failed, unread};

use crate::{BLOCK, InputFault};
use std::alloc::Global;
use std::io::Read;
use thiserror::Error;

/// A reader failed.
#[derive(Clone, Copy, Debug, PartialEq, Eq, Error)]
#[error("the reader failed")]
pub struct ReadFault;

/// A reader that is not read again once it has failed. Any error of the reader is a fault, an
/// interrupted read too.
#[derive(Drop)]
pub struct Source<'r, R: Read> {
    reader: &'r mut R,
    has_failed: bool,
}

impl<'r, R: Read> Source<'r, R> {
    /// A source over this reader, of which nothing is read yet.
    pub fn new(reader: &'r mut R) -> Source<'r, R>
        ensures reads_from { ReadsFrom result reader.entry }
        ensures open { IsFalse (reader_failed result) }
    {
        Source {
            reader,
            has_failed: false,
        }
    }

    /// Fills the block, and gives the number of bytes: fewer than the block has only at the end. It
    /// reads at most as often as the block has bytes.
    ///
    /// `Err`: the reader failed, now or before. What it gave until then is lost to it, and stands in
    /// the block.
    pub fn fill(&mut self, block: &mut [u8]) -> Result<usize, ReadFault>
        ensures same_reader { SameReader self.old self.new }
        ensures bound { ReadsAtMost result block.new }
        ensures len { length block.new ≡ length block.old }
        ensures ok { IfOk result (λ count.
            Consumes (unread R.remaining self.old) (unread R.remaining self.new) (take count block.new)) }
        ensures end { IfOk result (λ count.
            count < length block.new → IsAtEnd (unread R.remaining self.new)) }
        ensures err { OnErr result
            (LosesFrontOf (unread R.remaining self.old) (unread R.remaining self.new) block.new) }
        ensures failed { IsErr result ↔ IsTrue (reader_failed self.new) }
        ensures closed { IsTrue (reader_failed self.old) →
            IsErr result × ReaderUntouched self.old self.new }
    {
        if self.has_failed {
            return Err(ReadFault);
        }
        let mut filled = 0;
        while filled < block.len() {
            let count = self.read(&mut block[filled..])?;
            if count == 0 {
                return Ok(filled);
            }
            filled += count;
        }
        Ok(filled)
    }

    /// Reads all that the reader has, of at most `limit` bytes.
    ///
    /// `TooLong`: more bytes came; those up to the limit and one more are lost. `Read`: the reader
    /// failed, now or before. `Memory`: a growth was refused. The one met first counts.
    pub fn read_whole(&mut self, alloc: Global, limit: usize) -> Result<Vec<u8>, InputFault>
        ensures same_reader { SameReader self.old self.new }
        ensures ok { IfOk result (λ bytes.
            Consumes (unread R.remaining self.old) (unread R.remaining self.new) bytes.items) }
        ensures end { OnOk result (IsAtEnd (unread R.remaining self.new)) }
        ensures within { IfOk result (λ bytes. vec_len bytes ≤ limit) }
        ensures too_long { IsErrOf result InputFault.TooLong →
            LosesLonger (unread R.remaining self.old) (unread R.remaining self.new) limit }
        ensures err { OnErr result
            (LosesSome (unread R.remaining self.old) (unread R.remaining self.new)) }
        ensures failed { IsErrOf result InputFault.Read ↔ IsTrue (reader_failed self.new) }
        ensures closed { IsTrue (reader_failed self.old) →
            IsErr result × ReaderUntouched self.old self.new }
    {
        if self.has_failed {
            return Err(InputFault::Read);
        }
        let mut bytes = Vec::new(alloc);
        let mut block = [0; BLOCK];
        loop {
            let room = limit - bytes.len();
            // One byte past the limit tells that there are too many.
            let asked = if room < BLOCK { room + 1 } else { BLOCK };
            let count = self.fill(&mut block[..asked])?;
            if count > room {
                return Err(InputFault::TooLong);
            }
            bytes.extend_from_slice(&block[..count])?;
            if count < asked {
                return Ok(bytes);
            }
        }
    }

    // Reads once.
    fn read(&mut self, block: &mut [u8]) -> Result<usize, ReadFault>
        requires { IsFalse (reader_failed self.old) }
        ensures same_reader { SameReader self.old self.new }
        ensures bound { ReadsAtMost result block.new }
        ensures len { length block.new ≡ length block.old }
        ensures bytes { ReadConsumes (unread R.remaining self.old) (unread R.remaining self.new)
            result block.new }
        ensures failed { IsErr result ↔ IsTrue (reader_failed self.new) }
    {
        match self.reader.read(block) {
            Ok(count) => Ok(count),
            Err(_) => {
                self.has_failed = true;
                Err(ReadFault)
            }
        }
    }
}

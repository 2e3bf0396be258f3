ghost use Rattle.std.specs.Prelude.{◌≡◌, ◌+◌, ◌<◌, ◌≤◌, ◌↔◌, [], ◌++◌, drop, length, IfOk, OnOk, OnErr, IsErr, IsTrue, IsFalse};
ghost use Rattle.std.specs.Io.KnownBytes.{Appends, WriteAppends};
ghost use Rattle.exh_stream.specs.Output.{AppendsAllBut, AppendsBeginning, SameWriter, Takes, TakesBeginning, WriterUntouched, WritesTo, held, pending, writer_failed};

use crate::BLOCK;
use arrayvec::ArrayVec;
use std::io::Write;
use thiserror::Error;

/// A writer failed, or took no bytes.
#[derive(Clone, Copy, Debug, Error)]
#[error("the writer failed")]
pub struct WriteFault;

/// Bytes on their way to a writer, which gets them in blocks, and nothing more once it has failed.
#[derive(Drop)]
pub struct Output<'w, W: Write> {
    writer: &'w mut W,
    has_failed: bool,
    block: ArrayVec<u8, BLOCK>,
}

impl<'w, W: Write> Output<'w, W> {
    /// An output to this writer, which holds nothing back.
    pub fn new(writer: &'w mut W) -> Output<'w, W>
        ensures writes_to { WritesTo result writer.entry }
        ensures open { IsFalse (writer_failed result) }
        ensures empty { pending result ≡ [] }
    {
        Output {
            writer,
            has_failed: false,
            block: ArrayVec::new(),
        }
    }

    /// Takes bytes. A full block is written when more of them come. On an `Err` the writer failed,
    /// now or before, and got a beginning of what it was due.
    pub fn push(&mut self, bytes: &[u8]) -> Result<(), WriteFault>
        ensures same_writer { SameWriter self.old self.new }
        ensures ok { OnOk result (Takes W.contents self.old self.new bytes.now) }
        ensures err { OnErr result (TakesBeginning W.contents self.old self.new bytes.now) }
        ensures failed { IsErr result ↔ IsTrue (writer_failed self.new) }
        ensures closed { IsTrue (writer_failed self.old) →
            IsErr result × WriterUntouched self.old self.new }

        // What fits in the block waits there: the writer isn't asked, and so there is no fault.
        ensures waits { length (pending self.old) + length bytes.now ≤ BLOCK →
            WriterUntouched self.old self.new
            × (writer_failed self.new ≡ writer_failed self.old) }
    {
        if self.has_failed {
            return Err(WriteFault);
        }
        let mut rest = bytes;
        while !rest.is_empty() {
            self.make_room()?;
            let count = rest.len().min(self.block.remaining_capacity());
            self.block.try_extend_from_slice(&rest[..count]).unwrap();
            rest = &rest[count..];
        }
        Ok(())
    }

    /// Writes what still waits, and doesn't flush the writer. On an `Err` the writer failed, now or
    /// before, and got a beginning of that.
    pub fn finish(&mut self) -> Result<(), WriteFault>
        ensures same_writer { SameWriter self.old self.new }
        ensures ok { OnOk result (Appends (held W.contents self.old) (held W.contents self.new)
            (pending self.old)) }
        ensures empty { OnOk result (pending self.new ≡ []) }
        ensures err { OnErr result (AppendsBeginning (held W.contents self.old) (held W.contents self.new)
            (pending self.old)) }
        ensures failed { IsErr result ↔ IsTrue (writer_failed self.new) }
        ensures closed { IsTrue (writer_failed self.old) →
            IsErr result × WriterUntouched self.old self.new }

        // Where nothing waits the writer isn't asked.
        ensures nothing { pending self.old ≡ [] → WriterUntouched self.old self.new
            × (writer_failed self.new ≡ writer_failed self.old) }
    {
        if self.has_failed {
            return Err(WriteFault);
        }
        self.write_block()
    }

    // Writes the block where it is full.
    fn make_room(&mut self) -> Result<(), WriteFault>
        requires { IsFalse (writer_failed self.old) }
        ensures same_writer { SameWriter self.old self.new }
        ensures ok { OnOk result (AppendsAllBut (held W.contents self.old) (held W.contents self.new)
            (pending self.old) (pending self.new)) }
        ensures room { OnOk result (length (pending self.new) < BLOCK) }
        ensures waits { length (pending self.old) < BLOCK →
            (pending self.new ≡ pending self.old) × (WriterUntouched self.old self.new)
            × (writer_failed self.new ≡ writer_failed self.old) }
        ensures err { OnErr result (AppendsBeginning (held W.contents self.old) (held W.contents self.new)
            (pending self.old)) }
        ensures failed { IsErr result ↔ IsTrue (writer_failed self.new) }
    {
        if self.block.is_full() {
            self.write_block()
        } else {
            Ok(())
        }
    }

    // Writes the block, in as many writes as that takes.
    fn write_block(&mut self) -> Result<(), WriteFault>
        requires { IsFalse (writer_failed self.old) }
        ensures same_writer { SameWriter self.old self.new }
        ensures nothing { pending self.old ≡ [] → WriterUntouched self.old self.new
            × IsFalse (writer_failed self.new) }
        ensures ok { OnOk result (Appends (held W.contents self.old) (held W.contents self.new)
            (pending self.old)) }
        ensures empty { OnOk result (pending self.new ≡ []) }
        ensures err { OnErr result (AppendsBeginning (held W.contents self.old) (held W.contents self.new)
            (pending self.old)) }
        ensures failed { IsErr result ↔ IsTrue (writer_failed self.new) }
    {
        let mut written = 0;
        while written < self.block.len() {
            written += self.write_from(written)?;
        }
        self.block.clear();
        Ok(())
    }

    // One write of the block from `start` on. Any error is a fault, an interrupted write too, and so
    // is a write of no bytes.
    fn write_from(&mut self, start: usize) -> Result<usize, WriteFault>
        requires open { IsFalse (writer_failed self.old) }
        requires inside { start < length (pending self.old) }
        ensures same_writer { SameWriter self.old self.new }
        ensures block { pending self.new ≡ pending self.old }
        ensures some { IfOk result (λ count. 0 < count) }
        ensures bound { IfOk result (λ count. start + count ≤ length (pending self.old)) }
        ensures bytes { WriteAppends (held W.contents self.old) (held W.contents self.new) result
            (drop start (pending self.old)) }
        ensures failed { IsErr result ↔ IsTrue (writer_failed self.new) }
    {
        match self.writer.write(&self.block.as_slice()[start..]) {
            Ok(count) if count > 0 => Ok(count),
            _ => {
                self.has_failed = true;
                Err(WriteFault)
            }
        }
    }
}

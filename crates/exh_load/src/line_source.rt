//! The lines of a text that comes from a reader, one at a time.
ghost use Rattle.std.specs.Prelude.{not, ◌≡◌, ◌≢◌, ◌⊎◌, ◌≤◌, [], ◌∷◌, ◌++◌, take, length, option_to_list, IfNone, IfOk, IsOk, IsTrue, OnOk};
ghost use Rattle.std.specs.Io.KnownBytes.{Keeps};
ghost use Rattle.exh_text.specs.TextLines.{is_empty};
ghost use Rattle.exh_stream.specs.Source.{ReadsFrom, SameReader};
ghost use Rattle.exh_load.specs.LineSource.{AreTaken, EndsRight, GoesOn, IsAdded, IsOver, text_left, waiting};

use exh_stream::{BLOCK, InputFault, Source};
use std::alloc::{AllocError, Global};
use std::io::Read;

/// The bytes of a line that are looked at: one more than the longest right line has, so that a longer line is wrong by
/// these alone.
pub const LINE_LEN: usize = 388;

// The lines of a reader. Of what it gives, a block and a line are kept.
#[derive(Drop)]
pub(crate) struct LineSource<'r, R: Read> {
    source: Source<'r, R>,
    block: Vec<u8>,
    // How many bytes of the block are taken.
    at: usize,
    // The reader is at its end.
    ended: bool,
    line: Vec<u8>,
    number: u64,
}

impl<'r, R: Read> LineSource<'r, R> {
    // The lines of this reader, of which nothing is read yet.
    pub(crate) fn new(alloc: Global, reader: &'r mut R) -> LineSource<'r, R>
        ensures reads_from { ReadsFrom result.source reader.entry }
        ensures text { text_left R.remaining result ≡ R.remaining reader.entry.now }
        ensures ends { EndsRight R.remaining result }
    {
        LineSource {
            source: Source::new(reader),
            block: Vec::new(alloc),
            at: 0,
            ended: false,
            line: Vec::new(alloc),
            number: 0,
        }
    }

    // The first bytes of the line that was gone to.
    pub(crate) fn line(&self) -> &[u8]
        ensures { result.now ≡ self.now.line.items }
    {
        &self.line
    }

    // Its number in the text, from 1 on.
    pub(crate) fn number(&self) -> u64 {
        self.number
    }

    // Goes to the next line that isn't empty, and says whether there is one.
    pub(crate) fn next_line(&mut self) -> Result<bool, InputFault>
        requires { EndsRight R.remaining self.old }
        ensures same_reader { SameReader self.old.source self.new.source }
        ensures ends { OnOk result (EndsRight R.remaining self.new) }
        ensures next { IfOk result (λ some. GoesOn R.remaining self.old self.new some) }
        ensures over { IsOver self.old → IsOk result }
    {
        self.line.clear();
        'bytes: for _byte in 0..u64::MAX {
            let Some(byte) = self.next_byte()? else {
                return Ok(self.end_line());
            };
            if self.add(byte)? {
                return Ok(true);
            }
        }
        Err(InputFault::TooLong)
    }

    // Adds a byte to the line, and says whether that ends it: a newline ends one that has a byte.
    fn add(&mut self, byte: u8) -> Result<bool, InputFault>
        requires { length self.old.line.items ≤ LINE_LEN }
        ensures same { self.new ≡ record self.old { line = self.new.line; number = self.new.number } }
        ensures added { IfOk result (λ ended. IsAdded self.old.line.items byte self.new.line.items ended) }
    {
        if byte == b'\n' {
            return Ok(self.end_line());
        }
        push_short(&mut self.line, byte)?;
        Ok(false)
    }

    // Counts the line, and says whether it has a byte.
    fn end_line(&mut self) -> bool
        ensures same { self.new ≡ record self.old { number = self.new.number } }
        ensures some { result ≡ not (is_empty self.old.line.items) }
    {
        self.number = self.number.saturating_add(1);
        !self.line.is_empty()
    }

    // Takes the next byte of the text, if there is one.
    fn next_byte(&mut self) -> Result<Option<u8>, InputFault>
        requires { EndsRight R.remaining self.old }
        ensures same_reader { SameReader self.old.source self.new.source }
        ensures ends { OnOk result (EndsRight R.remaining self.new) }
        ensures taken { IfOk result (λ byte. AreTaken R.remaining self.old self.new (option_to_list byte)) }
        ensures end { IfOk result (λ byte. IfNone byte (IsOver self.new)) }
        ensures over { IsOver self.old → IsOk result }
        ensures line { self.new.line ≡ self.old.line }
    {
        if self.at >= self.block.len() && !self.ended {
            self.refill()?;
        }
        Ok(self.take_byte())
    }

    // Takes the next byte of the block.
    fn take_byte(&mut self) -> Option<u8>
        ensures same { self.new ≡ record self.old { at = self.new.at } }
        ensures taken { waiting self.old ≡ option_to_list result ++ waiting self.new }
        ensures none { IfNone result (waiting self.new ≡ []) }
    {
        let byte = *self.block.get(self.at)?;
        self.at += 1;
        Some(byte)
    }

    // Reads the next block, where the one before is taken.
    fn refill(&mut self) -> Result<(), InputFault>
        requires { waiting self.old ≡ [] }
        ensures same_reader { SameReader self.old.source self.new.source }
        ensures ends { OnOk result (EndsRight R.remaining self.new) }
        ensures text { OnOk result (Keeps (text_left R.remaining self.old) (text_left R.remaining self.new)) }
        ensures some { OnOk result (IsTrue self.new.ended ⊎ (waiting self.new ≢ [])) }
        ensures line { self.new.line ≡ self.old.line }
    {
        let mut bytes = [0; BLOCK];
        let count = self.source.fill(&mut bytes)?;
        self.block.clear();
        self.at = 0;
        self.ended = count < BLOCK;
        self.block.extend_from_slice(&bytes[..count])?;
        Ok(())
    }
}

// Adds a byte to a line, where it is one of its first.
fn push_short(line: &mut Vec<u8>, byte: u8) -> Result<(), AllocError>
    requires { length line.old.items ≤ LINE_LEN }
    ensures { OnOk result (line.new.items ≡ take LINE_LEN (line.old.items ++ byte ∷ [])) }
{
    if line.len() < LINE_LEN {
        line.push(byte)?;
    }
    Ok(())
}

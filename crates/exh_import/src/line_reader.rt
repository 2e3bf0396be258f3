//! The lines of a text that comes from a reader, one at a time. Which newline ends a line, its format says.
ghost use Rattle.std.specs.Prelude.{◌≡◌, ◌≢◌, ◌⊎◌, [], ◌∷◌, ◌++◌, length, option_to_list, IfErr, IfNone, IfOk, IsFalse, IsTrue, OnOk};
ghost use Rattle.std.specs.Io.KnownBytes.{Keeps};
ghost use Rattle.exh_stream.specs.Source.{ReadsFrom, SameReader};
ghost use Rattle.exh_pair_text.specs.declared.place.Place.TheVariants.{Quoted};
ghost use Rattle.exh_text.specs.TextLines.{newline};
ghost use Rattle.exh_import.specs.Causes.{IsLineCause, IsReadCause};
ghost use Rattle.exh_import.specs.LineReader.{AreTaken, EndsRight, IsOver, TakesNext, TellsWhole, mark_len, text_left, unmarked, waiting};

use crate::ImportFault;
use exh_pair_text::{PairFormat, Place};
use exh_stream::{BLOCK, Source};
use std::alloc::{AllocError, Global};
use std::io::Read;

/// The most bytes of a line.
pub const LINE_LIMIT: usize = 65_536;

// The byte order mark of UTF-8.
const MARK: &[u8] = b"\xef\xbb\xbf";

/// The lines of a reader, each up to the newline that ends it; the last may lack it. Of what the reader gives, a block and a line are
/// kept.
#[derive(Drop)]
pub struct LineReader<'r, R: Read> {
    source: Source<'r, R>,
    block: Vec<u8>,
    // How many bytes of the block are taken.
    at: usize,
    // The reader is at its end.
    ended: bool,
    line: Vec<u8>,
    // The line that was taken last has its newline.
    is_whole: bool,
}

impl<'r, R: Read> LineReader<'r, R> {
    /// The lines of this reader, of which nothing is read yet.
    pub fn new(alloc: Global, reader: &'r mut R) -> LineReader<'r, R>
        ensures reads_from { ReadsFrom result.source reader.entry }
        ensures text { text_left R.remaining result ≡ R.remaining reader.entry.now }
        ensures ends { EndsRight R.remaining result }
        ensures fresh { waiting result ≡ [] }
    {
        LineReader {
            source: Source::new(reader),
            block: Vec::new(alloc),
            at: 0,
            ended: false,
            line: Vec::new(alloc),
            is_whole: true,
        }
    }

    /// Passes over a byte order mark of UTF-8, where the text begins with one. Of the text nothing is taken yet.
    ///
    /// `Read`: the reader failed, now or before. `Memory`: a growth was refused.
    pub fn pass_mark(&mut self) -> Result<(), ImportFault>
        requires fresh { waiting self.old ≡ [] }
        ensures same_reader { SameReader self.old.source self.new.source }
        ensures ends { OnOk result (EndsRight R.remaining self.new) }
        ensures text { OnOk result (Keeps (unmarked (text_left R.remaining self.old)) (text_left R.remaining self.new)) }
        ensures cause { IfErr result (IsReadCause self.new) }
    {
        self.refill()?;
        self.at = mark_len(&self.block);
        Ok(())
    }

    // The line that was taken last, without its newline.
    pub(crate) fn line(&self) -> &[u8]
        ensures { result.now ≡ self.now.line.items }
    {
        &self.line
    }

    // Whether the line that was taken last has its newline.
    pub(crate) fn is_whole(&self) -> bool
        ensures { result ≡ self.now.is_whole }
    {
        self.is_whole
    }

    // Takes the next line, which has this number, where something of the text is left.
    pub(crate) fn next_line(&mut self, format: PairFormat, number: u64) -> Result<(), ImportFault>
        requires ends { EndsRight R.remaining self.old }
        requires some { waiting self.old ≢ [] }
        ensures same_reader { SameReader self.old.source self.new.source }
        ensures ends { OnOk result (EndsRight R.remaining self.new) }
        ensures next { OnOk result (TakesNext format R.remaining self.old self.new) }
        ensures whole { OnOk result (TellsWhole self.new.is_whole format R.remaining self.old self.new) }
        ensures cause { IfErr result (IsLineCause format R.remaining number self.old self.new) }
    {
        self.line.clear();
        let mut place = Place::Start;
        'bytes: for _byte in 0..LINE_LIMIT + 1 {
            let Some(byte) = self.next_byte()? else {
                self.is_whole = false;
                return Ok(());
            };
            if ends_line(place, byte) {
                self.is_whole = true;
                return Ok(());
            }
            push_byte(&mut self.line, byte)?;
            place = format.place_after(place, byte);
        }
        Err(ImportFault::LongLine { number })
    }

    // Takes the next byte of the text, if there is one.
    fn next_byte(&mut self) -> Result<Option<u8>, ImportFault>
        requires { EndsRight R.remaining self.old }
        ensures same_reader { SameReader self.old.source self.new.source }
        ensures ends { OnOk result (EndsRight R.remaining self.new) }
        ensures taken { IfOk result (λ byte. AreTaken R.remaining self.old self.new (option_to_list byte)) }
        ensures end { IfOk result (λ byte. IfNone byte ((waiting self.old ≡ []) × IsOver self.new)) }
        ensures line { self.new.line ≡ self.old.line }
        ensures cause { IfErr result (IsReadCause self.new) }
    {
        if self.is_over()? {
            return Ok(None);
        }
        Ok(self.take_byte())
    }

    // Whether nothing of the text is left. It reads on where it takes that to tell.
    pub(crate) fn is_over(&mut self) -> Result<bool, ImportFault>
        requires { EndsRight R.remaining self.old }
        ensures same_reader { SameReader self.old.source self.new.source }
        ensures ends { OnOk result (EndsRight R.remaining self.new) }
        ensures text { OnOk result (Keeps (text_left R.remaining self.old) (text_left R.remaining self.new)) }
        ensures over { IfOk result (λ over. IsTrue over → IsOver self.new) }
        ensures some { IfOk result (λ over. IsFalse over → waiting self.new ≢ []) }
        ensures none { IfOk result (λ over. IsTrue over → waiting self.old ≡ []) }
        ensures stays { OnOk result (IsOver self.old → IsOver self.new) }
        ensures line { self.new.line ≡ self.old.line }
        ensures whole { self.new.is_whole ≡ self.old.is_whole }
        ensures cause { IfErr result (IsReadCause self.new) }
    {
        if self.at >= self.block.len() && !self.ended {
            self.refill()?;
        }
        Ok(self.at >= self.block.len())
    }

    // Takes the next byte of the block.
    fn take_byte(&mut self) -> Option<u8>
        ensures same { self.new ≡ record self.old { at = self.new.at } }
        ensures taken { waiting self.old ≡ option_to_list result ++ waiting self.new }
        ensures none { IfNone result (waiting self.new ≡ []) }
    {
        let byte = *self.block.get(self.at)?;
        self.at += 1;
        Some(byte)
    }

    // Reads the next block, where the one before is taken.
    fn refill(&mut self) -> Result<(), ImportFault>
        requires { waiting self.old ≡ [] }
        ensures same_reader { SameReader self.old.source self.new.source }
        ensures ends { OnOk result (EndsRight R.remaining self.new) }
        ensures text { OnOk result (Keeps (text_left R.remaining self.old) (text_left R.remaining self.new)) }
        ensures some { OnOk result (IsTrue self.new.ended ⊎ (waiting self.new ≢ [])) }
        ensures start { OnOk result (self.new.at ≡ 0) }
        ensures full { OnOk result (IsFalse self.new.ended → length self.new.block.items ≡ BLOCK) }
        ensures line { self.new.line ≡ self.old.line }
        ensures whole { self.new.is_whole ≡ self.old.is_whole }
        ensures cause { IfErr result (IsReadCause self.new) }
    {
        let mut bytes = [0; BLOCK];
        let count = self.source.fill(&mut bytes)?;
        self.block.clear();
        self.at = 0;
        self.ended = count < BLOCK;
        self.block.extend_from_slice(&bytes[..count])?;
        Ok(())
    }
}

// How many bytes of a block are a byte order mark with which it begins.
fn mark_len(block: &[u8]) -> usize
    ensures { result ≡ mark_len block.now }
{
    if block.starts_with(MARK) {
        MARK.len()
    } else {
        0
    }
}

// Whether a byte at this place is the newline that ends a line.
fn ends_line(place: Place, byte: u8) -> bool
    ensures ends { IsTrue result → (byte ≡ newline) × (place ≢ Quoted) }
    ensures amid { IsFalse result → byte ≡ newline → place ≡ Quoted }
{
    byte == b'\n' && !place.is_quoted()
}

// Adds a byte.
fn push_byte(line: &mut Vec<u8>, byte: u8) -> Result<(), AllocError>
    ensures { OnOk result (line.new.items ≡ line.old.items ++ byte ∷ []) }
{
    line.push(byte)?;
    Ok(())
}

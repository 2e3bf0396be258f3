ghost use Rattle.std.specs.Prelude.{◌≡◌, ◌≢◌, ◌<◌, ◌^◌, List, [], ◌∷◌, ◌++◌, ℕ, Some, ◌+◌, ◌≤◌, length, take, MatchBool, IfOk, IfErr, OnOk, OnErr};
ghost use Rattle.exh_edits.specs.Comparison.{AreDifferences, Differs, EndsEarly, IsCompared, IsDifferent, IsThere, IsWholeBlocks, comparison_of, contents_of, pair_bytes};

use crate::{BlockEdit, DifferingFault};
use exh_codec::BLOCK_LEN;
use exh_direct::Blocks;
use std::alloc::Global;
use std::io;
use std::io::Write;
use std::marker::Model;

/// The blocks of a file, and those in which new content that is written to this differs from them. It takes the content
/// from its beginning on, and reads each of the file's blocks once. Beside the edits it has a block in memory.
#[derive(Drop)]
pub struct Differing<B: Blocks + Drop> {
    file: B,
    edits: Vec<BlockEdit>,
    // How many blocks were compared.
    place: u64,
    // The next one, of which so many bytes were written.
    block: [u8; BLOCK_LEN],
    filled: usize,
    // Why the last write failed, if it did.
    fault: Option<DifferingFault>,
}

impl<B: Blocks + Drop> Model for Differing<B> {
    ghost use Rattle.std.specs.Prelude.{Option, take};
    ghost use Rattle.exh_edits.specs.Comparison.{Comparison, IsComparing, comparison_of};

    ghost Value = { Option Comparison };

    ghost view = { λ a. comparison_of (B.known a.file) a.edits.items a.place (take a.filled a.block) };

    ghost invariant = { λ a. IsComparing (B.known a.file) a.edits.items a.place a.filled a.fault };
}

impl<B: Blocks + Drop> Differing<B> {
    /// Of the blocks of a file, of whose new content nothing is written yet.
    pub fn new(alloc: Global, blocks: B) -> Differing<B>
        ensures { result ≡ comparison_of (B.known blocks) [] 0 [] }
    {
        Differing {
            file: blocks,
            edits: Vec::new(alloc),
            place: 0,
            block: [0; BLOCK_LEN],
            filled: 0,
            fault: None,
        }
    }

    /// The edits that make the file what was written, one for each block that differs from the file's or is behind its last,
    /// and the blocks of the file.
    ///
    /// `Shorter`: what was written isn't whole blocks, or has fewer than the file. `Read`, `Long` and `Memory`: the last
    /// write failed by that.
    pub fn finish(self) -> (Result<Vec<BlockEdit>, DifferingFault>, B)
        ensures made { (old new : List ℕ) → contents_of self ≡ Some (pair_bytes old new) → IsWholeBlocks old
            → IfOk result.0 (λ edits. AreDifferences old edits.items new) }
        ensures shorter { (old new : List ℕ) → contents_of self ≡ Some (pair_bytes old new)
            → IfErr result.0 (λ fault. fault ≡ DifferingFault.Shorter → EndsEarly old new) }
        ensures same_bytes { (old new : List ℕ) → contents_of self ≡ Some (pair_bytes old new) → B.known result.1 ≡ Some old }
    {
        let is_whole = self.filled == 0 && self.file.count() <= self.place;
        match self.fault {
            Some(fault) => (Err(fault), self.file),
            None if is_whole => (Ok(self.edits), self.file),
            None => (Err(DifferingFault::Shorter), self.file),
        }
    }
}

// A write takes what the block that was begun has room for.
impl<B: Blocks + Drop> Write for Differing<B> {
    ghost use Rattle.exh_edits.specs.Comparison.{contents_of};

    ghost contents = { contents_of };

    fn write(&mut self, bytes: &[u8]) -> io::Result<usize> {
        let count = put(&mut self.block, self.filled, bytes);
        if self.filled + count < BLOCK_LEN {
            self.filled += count;
            self.fault = None;
            return Ok(count);
        }
        match compare(&mut self.file, &mut self.edits, self.place, &self.block) {
            Ok(()) => {
                self.place += 1;
                self.filled = 0;
                self.fault = None;
                Ok(count)
            }
            Err(fault) => {
                let error = fault.error();
                self.fault = Some(fault);
                Err(error)
            }
        }
    }

    fn flush(&mut self) -> io::Result<()> {
        Ok(())
    }
}

// Puts as many of the bytes as there is room for behind the first so many of a block, and answers how many that are.
fn put(block: &mut [u8; BLOCK_LEN], filled: usize, bytes: &[u8]) -> usize
    requires { filled < BLOCK_LEN }
    ensures few { result ≤ length bytes.now }
    ensures room { filled + result ≤ BLOCK_LEN }
    ensures len { length block.new ≡ BLOCK_LEN }
    ensures before { take filled block.new ≡ take filled block.old }
    ensures with_bytes { take (filled + result) block.new ≡ take filled block.old ++ take result bytes.now }
{
    let count = bytes.len().min(BLOCK_LEN - filled);
    block[filled..filled + count].copy_from_slice(&bytes[..count]);
    count
}

// Keeps the block as an edit of its place, unless the file has it there.
fn compare<B: Blocks>(
    blocks: &mut B,
    edits: &mut Vec<BlockEdit>,
    place: u64,
    block: &[u8; BLOCK_LEN],
) -> Result<(), DifferingFault>
    ensures same_bytes { B.known blocks.new ≡ B.known blocks.old }
    ensures compared { OnOk result (IsCompared (B.known blocks.old) place block.now edits.old.items edits.new.items) }
    ensures few { OnOk result (place < 2 ^ 32) }
    ensures err { OnErr result (edits.new.items ≡ edits.old.items) }
    ensures fault { IfErr result (λ fault. fault ≢ DifferingFault.Shorter) }
{
    let Ok(place) = u32::try_from(place) else {
        return Err(DifferingFault::Long);
    };
    if !is_there(blocks, place, block)? {
        edits.push(BlockEdit {
            place,
            block: *block,
        })?;
    }
    Ok(())
}

// Whether the file has the block at its place.
fn is_there<B: Blocks>(
    blocks: &mut B,
    place: u32,
    block: &[u8; BLOCK_LEN],
) -> Result<bool, DifferingFault>
    ensures same_bytes { B.known blocks.new ≡ B.known blocks.old }
    ensures there { IfOk result (λ there. MatchBool there (IsThere (B.known blocks.old) place block.now) (IsDifferent (B.known blocks.old) place block.now)) }
    ensures fault { IfErr result (λ fault. fault ≢ DifferingFault.Shorter) }
{
    if blocks.count() <= u64::from(place) {
        return Ok(false);
    }
    let mut there = [0; BLOCK_LEN];
    blocks.read(place, &mut there)?;
    Ok(there[..] == block[..])
}

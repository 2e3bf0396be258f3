//! A file in memory to which new content is written in pieces: each of its blocks is read once, and none after a read that
//! fails.
ghost use Rattle.std.specs.Prelude.{◌<◌, None, length};

use exh_codec::BLOCK_LEN;
use exh_direct::Blocks;
use exh_edits::{BlockEdit, Differing, DifferingFault};
use std::alloc::{AllocError, Global};
use std::io;
use std::io::{ErrorKind, Write};
use std::test::Fail;

type Block = [u8; BLOCK_LEN];

/// A file in memory, how often a block of it was read, and the block whose read fails.
#[derive(Drop)]
struct Held<'a> {
    blocks: &'a [Block],
    reads: u32,
    fails_at: Option<u32>,
}

// No model tells what it has.
impl Blocks for Held<'_> {
    ghost known = { λ _. None };

    ghost reads = { λ _. None };

    ghost whole = { λ held. length held.blocks.now };

    fn count(&self) -> u64 {
        self.blocks.len() as u64
    }

    fn read(&mut self, place: u32, block: &mut Block) -> io::Result<()> {
        self.reads = self.reads.saturating_add(1);
        if self.fails_at == Some(place) {
            return Err(io::Error::from(ErrorKind::TimedOut));
        }
        let Some(found) = self.blocks.get(place as usize) else {
            return Err(io::Error::from(ErrorKind::UnexpectedEof));
        };
        *block = *found;
        Ok(())
    }
}

const FILE: [Block; 3] = [[1; BLOCK_LEN], [2; BLOCK_LEN], [3; BLOCK_LEN]];

// What is found of new content, and how many reads that took.
type Found = (Result<Vec<BlockEdit>, DifferingFault>, u32);

// What is found where a file gets this content, in pieces of this length.
fn found(
    alloc: Global,
    content: &[Block],
    piece: usize,
    fails_at: Option<u32>,
) -> Result<Found, AllocError>
    requires { 0 < piece }
{
    let mut bytes = Vec::new(alloc);
    for block in content {
        bytes.extend_from_slice(block)?;
    }
    let held = Held {
        blocks: &FILE,
        reads: 0,
        fails_at,
    };
    let mut differing = Differing::new(alloc, held);
    for part in bytes.as_slice().chunks(piece) {
        if differing.write_all(part).is_err() {
            break;
        }
    }
    let (found, held) = differing.finish();
    Ok((found, held.reads))
}

// Whether these edits were found, after three reads.
fn are(found: &Found, expected: &[(u32, Block)]) -> bool {
    let Ok(edits) = &found.0 else {
        return false;
    };
    let mut same = edits.len() == expected.len() && found.1 == 3;
    for (edit, (place, block)) in edits.iter().zip(expected) {
        same = same && edit.place == *place && edit.block[..] == block[..];
    }
    same
}

// The second block changes in its last byte, and a fourth is added.
#[test]
fn reads_each_block_once(rt: HostRuntime) -> Result<(), Fail> {
    let mut second = [2; BLOCK_LEN];
    second[BLOCK_LEN - 1] = 9;
    let fourth = [4; BLOCK_LEN];
    let content = [FILE[0], second, FILE[2], fourth];
    for piece in [1, 37, 4095, 4096, 4097, 20000] {
        let found = found(rt.alloc(), &content, piece, None)?;
        assert!(rt; are(&found, &[(1, second), (3, fourth)]));
    }
    Ok(())
}

#[test]
fn reads_no_block_after_a_fault(rt: HostRuntime) -> Result<(), Fail> {
    let found = found(rt.alloc(), &FILE, 999, Some(1))?;
    let Err(DifferingFault::Read(error)) = &found.0 else {
        assert!(rt; false);
        return Ok(());
    };
    assert!(rt; error.kind() == ErrorKind::TimedOut);
    assert!(rt; found.1 == 2);
    Ok(())
}

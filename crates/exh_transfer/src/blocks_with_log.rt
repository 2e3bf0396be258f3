//! The blocks of an open file with what its log has.

use crate::open_blocks::OpenBlocks;
use exh_codec::BLOCK_LEN;
use exh_map::InMemory;
use exh_salvage::{ReadBlocks, blocks_in};
use std::alloc::{AllocError, Global};
use std::io;
use std::io::ErrorKind;

/// The blocks of an open file with what its log has. Where the file's header is damaged the log may be another file's, so the
/// file's own come first, and behind them those that the log changes.
#[derive(Drop)]
pub(crate) struct BlocksWithLog<'a> {
    /// The file's own, where they come first.
    own: Option<OpenBlocks<'a>>,
    /// The file with what its log has.
    bytes: &'a [u8],
    /// The places there of the blocks that are read.
    places: Vec<u32>,
}

impl<'a> BlocksWithLog<'a> {
    /// Of a file's blocks, and of the file in memory with what its log has.
    ///
    /// `AllocError`: memory is refused.
    pub(crate) fn of(
        alloc: Global,
        mut own: OpenBlocks<'a>,
        found: &'a InMemory,
    ) -> Result<BlocksWithLog<'a>, AllocError> {
        let bytes = found.bytes();
        let count = at_most(blocks_in(bytes.len() as u64));
        let mut places = Vec::new(alloc);
        for place in 0..count {
            if !found.is_damaged || is_changed(&mut own, bytes, place) {
                places.push(place)?;
            }
        }
        let own = if found.is_damaged { Some(own) } else { None };
        Ok(BlocksWithLog { own, bytes, places })
    }

    /// How many there are.
    pub(crate) fn count(&self) -> u32 {
        self.first()
            .saturating_add(at_most(self.places.len() as u64))
    }

    /// The number of the first that the log changes, where the file's own come before.
    pub(crate) fn first_of_log(&self) -> Option<u32> {
        self.own.as_ref().map(|own| own.count)
    }

    // How many come before those of the file in memory.
    fn first(&self) -> u32 {
        self.first_of_log().unwrap_or(0)
    }
}

// A count of blocks, of which there are fewer than 2^32.
fn at_most(count: u64) -> u32 {
    u32::try_from(count).unwrap_or(u32::MAX)
}

// Whether the block at a place is another one in the file, or can't be read there.
fn is_changed(own: &mut OpenBlocks<'_>, bytes: &[u8], place: u32) -> bool {
    let (mut one, mut other) = ([0; BLOCK_LEN], [0; BLOCK_LEN]);
    own.read(place, &mut one).is_err()
        || read_from(bytes, place, &mut other).is_err()
        || one != other
}

// Reads the block at a place of bytes.
fn read_from(bytes: &[u8], place: u32, block: &mut [u8; BLOCK_LEN]) -> io::Result<()> {
    let start = BLOCK_LEN * place as usize;
    match bytes
        .get(start..)
        .and_then(|rest| rest.first_chunk::<BLOCK_LEN>())
    {
        Some(found) => {
            *block = *found;
            Ok(())
        }
        None => Err(io::Error::from(ErrorKind::UnexpectedEof)),
    }
}

// No model tells what a file of the system has, nor of which of its blocks a read failed.
impl ReadBlocks for BlocksWithLog<'_> {
    ghost use Rattle.std.specs.Prelude.{None, true};

    ghost known = { λ _. None };

    ghost failed = { λ _ _. true };

    fn read(&mut self, place: u32, block: &mut [u8; BLOCK_LEN]) -> io::Result<()> {
        match (place.checked_sub(self.first()), &mut self.own) {
            (None, Some(own)) => own.read(place, block),
            (None, None) => Err(io::Error::from(ErrorKind::UnexpectedEof)),
            (Some(index), _) => match self.places.get(index as usize) {
                Some(found) => read_from(self.bytes, *found, block),
                None => Err(io::Error::from(ErrorKind::UnexpectedEof)),
            },
        }
    }
}

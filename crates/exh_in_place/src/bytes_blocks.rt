//! The blocks of a page file in memory.

use exh_codec::BLOCK_LEN;
use exh_paged::Blocks;
use std::io;
use std::io::ErrorKind;

/// The blocks of bytes in memory. What is behind the last whole one is none.
#[derive(Clone, Copy)]
pub struct BytesBlocks<'b> {
    bytes: &'b [u8],
}

impl<'b> BytesBlocks<'b> {
    ghost use Rattle.std.specs.Prelude.{◌≡◌};

    /// Of some bytes.
    pub fn new(bytes: &'b [u8]) -> BytesBlocks<'b>
        ensures { result.bytes.now ≡ bytes.now }
    {
        BytesBlocks { bytes }
    }
}

impl Blocks for BytesBlocks<'_> {
    ghost use Rattle.std.specs.Prelude.{None, Some, ◌/◌, length};

    ghost known = { λ blocks. Some blocks.bytes.now };

    ghost reads = { λ _. None };

    ghost whole = { λ blocks. length blocks.bytes.now / 4096 };

    fn count(&self) -> u64 {
        (self.bytes.len() / BLOCK_LEN) as u64
    }

    fn read(&mut self, place: u32, block: &mut [u8; BLOCK_LEN]) -> io::Result<()> {
        let start = BLOCK_LEN * place as usize;
        if self.bytes.len() < start {
            return Err(io::Error::from(ErrorKind::UnexpectedEof));
        }
        let Some(found) = self.bytes[start..].first_chunk::<BLOCK_LEN>() else {
            return Err(io::Error::from(ErrorKind::UnexpectedEof));
        };
        *block = *found;
        Ok(())
    }
}

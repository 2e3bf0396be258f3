ghost use Rattle.std.specs.Prelude.{◌≡◌, ◌+◌, ◌*◌, ◌<◌, ◌≤◌, ℕ, Bool, List, Option, IsTrue, OnOk, OnErr};
ghost use Rattle.exh_codec.specs.declared.block.TheConstants.{BLOCK_LEN};
ghost use Rattle.exh_salvage.specs.Blocks.{IsBlockAt};

use exh_codec::BLOCK_LEN;
use std::io;

/// A file of which each block is read by its place. Nothing changes it meanwhile.
pub trait ReadBlocks {
    /// The bytes of the file, where a model tells them.
    ghost known: { Self → Option (List ℕ) };

    /// Whether a read of the block at a place has failed so far.
    ghost failed: { Self → ℕ → Bool };

    /// Reads the block at a place, of which the first is 0. It fails where there is none.
    fn read(&mut self, place: u32, block: &mut [u8; BLOCK_LEN]) -> io::Result<()>
        ensures same_bytes { known self.new ≡ known self.old }
        ensures block { OnOk result (IsBlockAt (known self.old) place block.new) }
        ensures failed { OnErr result (IsTrue (failed self.new place)) }
        ensures still { (other : ℕ) → IsTrue (failed self.old other) → IsTrue (failed self.new other) };
}

/// How many blocks a file of so many bytes has, of which the last may be a piece.
pub fn blocks_in(len: u64) -> u64
    ensures all { len ≤ BLOCK_LEN * result }
    ensures piece { BLOCK_LEN * result < len + BLOCK_LEN }
{
    len.div_ceil(BLOCK_LEN as u64)
}

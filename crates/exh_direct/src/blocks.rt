ghost use Rattle.std.specs.Prelude.{◌≡◌, ℕ, List, Option, [], ◌∷◌, OnOk};
ghost use Rattle.std.specs.Io.KnownBytes.{Appends};
ghost use Rattle.exh_direct.specs.KnownBlocks.{IsBlockAt, IsCount};

use exh_codec::BLOCK_LEN;
use std::io;

/// The blocks of a file, of which each is read by its place. Nothing changes them meanwhile.
pub trait Blocks {
    /// The bytes of the file, where a model tells them.
    ghost known: { Self → Option (List ℕ) };

    /// The places of the blocks that were read, in order, where a model tells them.
    ghost reads: { Self → Option (List ℕ) };

    /// How many whole blocks there are.
    ghost whole: { Self → ℕ };

    /// How many whole blocks there are.
    fn count(&self) -> u64
        ensures count { result ≡ whole self.now }
        ensures bytes { IsCount (known self.now) result };

    /// Reads the block at a place, of which the first is 0. It fails where there is none.
    fn read(&mut self, place: u32, block: &mut [u8; BLOCK_LEN]) -> io::Result<()>
        ensures same_bytes { known self.new ≡ known self.old }
        ensures same_count { whole self.new ≡ whole self.old }
        ensures one_read { Appends (reads self.old) (reads self.new) (place ∷ []) }
        ensures block { OnOk result (IsBlockAt (known self.old) place block.new) };
}

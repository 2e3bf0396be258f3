//! Files that blocks are copied into.
ghost use Rattle.std.specs.Prelude.{◌≡◌, ℕ, List, None, OnOk, Option};
ghost use Rattle.exh_map.specs.Copy.{Becomes, EndsBehind, HasPut};

use exh_codec::BLOCK_LEN;
use std::fs::File;
use std::io;
use std::os::unix::fs::FileExt;

/// A file that blocks are copied into.
pub(crate) trait Target {
    /// Its bytes, where a model tells them.
    ghost has: { Self → Option (List ℕ) };

    /// Puts a block at a place, of which the first is 0.
    fn put(&mut self, place: u32, block: &[u8; BLOCK_LEN]) -> io::Result<()>
        ensures { OnOk result (Becomes (has self.old) (has self.new) (HasPut place block.now)) };

    /// Ends it behind so many blocks.
    fn end(&mut self, count: u32) -> io::Result<()>
        ensures { OnOk result (Becomes (has self.old) (has self.new) (EndsBehind count)) };

    /// Has all of it on the disk.
    fn synchronize(&mut self) -> io::Result<()>
        ensures { has self.new ≡ has self.old };
}

/// An open file of the system.
#[derive(Drop)]
pub(crate) struct FileTarget<'f> {
    pub(crate) file: &'f File,
}

// No model tells what a file of the system has.
impl Target for FileTarget<'_> {
    ghost has = { λ _. None };

    fn put(&mut self, place: u32, block: &[u8; BLOCK_LEN]) -> io::Result<()> {
        self.file.write_all_at(block, start_of(place))
    }

    fn end(&mut self, count: u32) -> io::Result<()> {
        self.file.set_len(start_of(count))
    }

    fn synchronize(&mut self) -> io::Result<()> {
        self.file.sync_all()
    }
}

// Where the block of a place begins.
fn start_of(place: u32) -> u64 {
    u64::from(place) * BLOCK_LEN as u64
}

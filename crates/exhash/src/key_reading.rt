//! A get as a reading of an open file, which may be made again.
ghost use Rattle.std.specs.Prelude.{⊤};
ghost use Rattle.exhash.specs.AnyAnswer.{IsOfLegal};

use crate::find_any;
use exh_map::{Blocks, BytesBlocks, DirectFault, FileBlocks, Reading, Reason, with_reason};
use exh_page::{Key, Value};
use std::alloc::Global;
use std::fs::File;

/// A get of a key. Why a block couldn't be read is the reason.
#[derive(Drop)]
pub(crate) struct KeyReading<'k> {
    pub(crate) alloc: Global,
    pub(crate) key: &'k Key,
    pub(crate) reason: &'k Reason,
}

impl KeyReading<'_> {
    // The value of the key in the blocks of a page file, whatever they are of: of a legal file its map's.
    //
    // Errors: as of `find_any`.
    fn find_in<B: Blocks>(&self, blocks: &mut B) -> Result<Option<Value>, DirectFault>
        ensures legal { IsOfLegal (B.known blocks.old) self.now.key.now (B.reads blocks.old) (B.reads blocks.new) result }
    {
        find_any(self.alloc, blocks, self.key)
    }
}

impl Reading for KeyReading<'_> {
    type Found = Result<Option<Value>, DirectFault>;

    ghost gives = { λ _. ⊤ };

    fn read(&mut self, file: &File) -> Result<Option<Value>, DirectFault> {
        self.reason.set(None);
        match with_reason(FileBlocks::new(file, self.reason), self.reason) {
            Ok(mut blocks) => self.find_in(&mut blocks),
            Err(_) => Err(DirectFault::Read),
        }
    }

    fn read_bytes(&mut self, bytes: &[u8]) -> Result<Option<Value>, DirectFault> {
        self.reason.set(None);
        self.find_in(&mut BytesBlocks::new(bytes))
    }
}

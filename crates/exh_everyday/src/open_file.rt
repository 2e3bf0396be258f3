//! Open page files, of which blocks are read for each key anew.
ghost use Rattle.std.specs.Prelude.{◌≡◌, ℕ, List, Option, None, Some, IfErr, IfOk};
ghost use Rattle.exh_direct.specs.declared.direct_fault.DirectFault.TheVariants.{Read};

use exh_direct::{Blocks, DirectFault};
use exh_transfer::{BytesBlocks, FileBlocks, Reason, with_reason};
use std::fs::File;

/// An open page file, whose bytes stay the same meanwhile.
pub(crate) trait OpenFile {
    /// Its blocks.
    type Own: Blocks + Drop;

    /// Its bytes, where a model tells them.
    ghost known: { Self → Option (List ℕ) };

    /// Its blocks, of which none is read yet.
    ///
    /// `Read`: it isn't known how many there are.
    fn blocks(&self) -> Result<Self::Own, DirectFault>
        ensures known { IfOk result (λ blocks. Self.Own.known blocks ≡ known self.now) }
        ensures refused { IfErr result (λ fault. fault ≡ Read) };
}

/// A file of the system. Why a block couldn't be read is the reason.
#[derive(Clone, Copy)]
pub(crate) struct SystemFile<'f> {
    pub(crate) file: &'f File,
    pub(crate) reason: &'f Reason,
}

// No model tells what it has.
impl<'f> OpenFile for SystemFile<'f> {
    type Own = FileBlocks<'f>;

    ghost known = { λ _. None };

    fn blocks(&self) -> Result<FileBlocks<'f>, DirectFault> {
        match with_reason(FileBlocks::new(self.file, self.reason), self.reason) {
            Ok(blocks) => Ok(blocks),
            Err(_) => Err(DirectFault::Read),
        }
    }
}

/// The bytes of a page file in memory.
#[derive(Clone, Copy)]
pub(crate) struct MemoryFile<'b> {
    pub(crate) bytes: &'b [u8],
}

impl<'b> OpenFile for MemoryFile<'b> {
    type Own = BytesBlocks<'b>;

    ghost known = { λ file. Some file.bytes.now };

    fn blocks(&self) -> Result<BytesBlocks<'b>, DirectFault> {
        Ok(BytesBlocks::new(self.bytes))
    }
}

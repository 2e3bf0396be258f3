//! Open files of a file system in memory.

use exh_saving::Stage;
use std::alloc::AllocError;
use std::rc::Rc;

/// A file that is open, and the number of this opening of it.
#[derive(Drop)]
pub struct MemoryOpened {
    pub node: usize,
    pub handle: Rc<usize>,
    pub opening: Rc<usize>,
}

/// An open file that is on its way to the path, the name that was asked about last, and whether it had that.
#[derive(Drop)]
pub struct MemoryFile {
    pub opened: MemoryOpened,
    pub stage: Stage,
    /// What it has since it was emptied.
    pub bytes: Vec<u8>,
    pub name: String,
    pub has_name: bool,
}

/// The lock of an open file, the path at which that was looked for last, and whether it was there.
#[derive(Drop)]
pub struct MemoryHeld {
    pub opened: MemoryOpened,
    pub path: String,
    pub stands: bool,
}

impl MemoryOpened {
    /// One more handle of the same opening.
    pub fn again(&self) -> Result<MemoryOpened, AllocError> {
        Ok(MemoryOpened {
            node: self.node,
            handle: self.handle.clone()?,
            opening: self.opening.clone()?,
        })
    }
}

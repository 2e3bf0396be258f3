//! What has stood at a path.
ghost use Rattle.std.specs.Prelude.{◌≡◌, None, OnErr, OnOk, Some};
ghost use Rattle.exh_saving.specs.History.{kept, placed};

use std::alloc::{AllocError, Global};

/// The path of a file system in memory, at which is saved.
pub const PATH: &str = "pairs.exh";

/// What has stood at the path, one after the other: nothing, or a file of these bytes.
#[derive(Drop)]
pub struct Past {
    pub(crate) stood: Vec<Option<Vec<u8>>>,
    /// How many of the first ones a power cut leaves no more.
    pub(crate) gone: usize,
}

impl Past {
    ghost use Rattle.exh_disk_fakes.specs.Past.{history_of};

    /// Nothing has stood there.
    pub fn new(alloc: Global) -> Result<Past, AllocError> {
        let mut stood = Vec::new(alloc);
        stood.push(None)?;
        Ok(Past { stood, gone: 0 })
    }

    /// A file of these bytes gets the path.
    pub fn place(&mut self, alloc: Global, bytes: &[u8]) -> Result<(), AllocError>
        ensures ok { OnOk result (Some (history_of self.new) ≡ placed (Some (history_of self.old)) (Some bytes.now)) }
        ensures err { OnErr result (history_of self.new ≡ history_of self.old) }
    {
        let copy = Vec::from_slice(alloc, bytes)?;
        self.stood.push(Some(copy))?;
        Ok(())
    }

    /// What stands there is on the disk.
    pub fn keep(&mut self)
        ensures { Some (history_of self.new) ≡ kept (Some (history_of self.old)) }
    {
        self.gone = self.stood.len().saturating_sub(1);
    }

    /// Whether this stands there now.
    pub fn ends_with(&self, bytes: Option<&[u8]>) -> bool {
        is_same(self.stood.last(), bytes)
    }

    /// Whether this stood there first of what a power cut may leave.
    pub fn begins_with(&self, bytes: Option<&[u8]>) -> bool {
        is_same(self.stood.get(self.gone), bytes)
    }
}

fn is_same(stood: Option<&Option<Vec<u8>>>, bytes: Option<&[u8]>) -> bool {
    match (stood, bytes) {
        (Some(Some(stood)), Some(bytes)) => stood.as_slice() == bytes,
        (Some(None), None) => true,
        _ => false,
    }
}

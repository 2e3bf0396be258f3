//! A file of a file system in memory, whether or not it has a name.

use crate::memory_disk::fault;
use crate::memory_file::MemoryOpened;
use exh_saving::{Found, UNFINISHED};
use std::io;
use std::io::ErrorKind;
use std::rc::Rc;

/// A file.
#[derive(Drop)]
pub struct Node {
    pub about: Found,
    pub bytes: Vec<u8>,
    /// Whether all of it is on the disk.
    pub is_kept: bool,
    /// By how many more than one it is open.
    pub handles: Rc<usize>,
    /// Which opening of it has the lock, as long as there is another handle of that.
    pub holder: Option<Rc<usize>>,
}

impl Node {
    pub(crate) fn has_lock(&self, opened: &MemoryOpened) -> bool {
        match &self.holder {
            Some(holder) => **holder == *opened.opening,
            None => false,
        }
    }

    /// Marks it as unfinished, as far as it goes.
    pub(crate) fn mark(&mut self) {
        for (to, from) in self.bytes.iter_mut().zip(UNFINISHED.iter()) {
            *to = *from;
        }
    }

    /// Gives it the first of these bytes in place of the mark.
    pub(crate) fn finish(&mut self, bytes: &[u8]) {
        for (to, from) in self
            .bytes
            .iter_mut()
            .zip(bytes.iter().take(UNFINISHED.len()))
        {
            *to = *from;
        }
    }
}

pub(crate) fn node_at(nodes: &[Node], number: usize) -> io::Result<&Node> {
    match nodes.get(number) {
        Some(node) => Ok(node),
        None => fault(ErrorKind::NotFound),
    }
}

pub(crate) fn node_at_mut(nodes: &mut [Node], number: usize) -> io::Result<&mut Node> {
    match nodes.get_mut(number) {
        Some(node) => Ok(node),
        None => fault(ErrorKind::NotFound),
    }
}

//! A file system in memory, of one path and the names beside it.
ghost use Rattle.std.specs.Prelude.{◌≡◌, IsErr};

use crate::memory_file::{MemoryHeld, MemoryOpened};
use crate::node::{Node, node_at, node_at_mut};
use crate::past::{PATH, Past};
use exh_saving::{Found, Kind};
use std::alloc::{AllocError, Global};
use std::io;
use std::io::ErrorKind;
use std::rc::Rc;

// The path, and the names that a save may use beside it.
const NAMES: [&str; 5] = [
    PATH,
    "pairs.exh.exhash-saving",
    "pairs.exh.exhash-saving-2",
    "pairs.exh.exhash-saving-3",
    "pairs.exh.exhash-saving-4",
];

pub(crate) const MAGIC: [u8; 8] = *b"EXHASHPF";

/// Of the old file a beginning stands for all of it: it is as long as a page file of one page.
pub const OLD: &[u8] = b"EXHASHPFoooooooo";

const OLD_SIZE: u64 = 8192;

/// What each of two savers saves.
pub const SAVED: [&[u8]; 2] = [b"EXHASHPFaaaaaaaa", b"EXHASHPFbbbbbbbb"];

/// For whom the savers run, and of whom the old file is.
pub(crate) const USER: u32 = 7;

/// The permissions of the old file.
pub const OLD_MODE: u32 = 0o640;

/// A file system of few names.
#[derive(Drop)]
pub struct MemoryDisk {
    pub alloc: Global,
    pub nodes: Vec<Node>,
    /// Which file has each name.
    pub names: [Option<usize>; 5],
    /// Which file has the path on the disk.
    pub kept: Option<usize>,
    /// What has stood at the path.
    pub past: Past,
    /// Whether a file was at the path from the beginning.
    pub has_old: bool,
    /// Whether a file may have two names.
    pub has_links: bool,
    /// Whether its clock goes on from one write to the next.
    pub is_timed: bool,
    pub openings: usize,
    pub time: i64,
    /// Whether something was done or might have been left that must not be.
    pub is_wrong: bool,
}

/// A call that fails in this way.
pub(crate) fn fault<T>(kind: ErrorKind) -> io::Result<T>
    ensures { IsErr result }
{
    Err(io::Error::from(kind))
}

impl MemoryDisk {
    pub fn new(alloc: Global) -> Result<MemoryDisk, AllocError> {
        Ok(MemoryDisk {
            alloc,
            nodes: Vec::new(alloc),
            names: [None; 5],
            kept: None,
            past: Past::new(alloc)?,
            has_old: false,
            has_links: true,
            is_timed: true,
            openings: 0,
            time: 0,
            is_wrong: false,
        })
    }

    /// Adds a file of a name, which is on the disk.
    pub fn add(&mut self, slot: usize, bytes: &[u8], mode: u32) -> Result<(), AllocError>
        ensures { self.new.past ≡ self.old.past }
    {
        self.pass();
        let node = Node {
            about: Found {
                kind: Kind::Regular,
                device: 1,
                inode: self.free_number(),
                links: 1,
                size: bytes.len() as u64,
                modified: (self.time, 0),
                owner: USER,
                group: USER,
                mode,
            },
            bytes: Vec::from_slice(self.alloc, bytes)?,
            is_kept: true,
            handles: counted(self.alloc, 0)?,
            holder: None,
        };
        let number = self.nodes.len();
        self.nodes.push(node)?;
        self.bind(slot, Some(number));
        Ok(())
    }

    /// Time goes on, where the clock does.
    pub fn pass(&mut self)
        ensures { self.new.past ≡ self.old.past }
    {
        if self.is_timed {
            self.time = self.time.wrapping_add(1);
        }
    }

    // The first number that no file has which has a name, or is open.
    fn free_number(&self) -> u64 {
        let mut number: u64 = 0;
        for _ in self.nodes.iter() {
            if self.has_number(number) {
                number = number.wrapping_add(1);
            }
        }
        number
    }

    fn has_number(&self, number: u64) -> bool {
        let mut nodes = self.nodes.iter().enumerate();
        nodes.any(|(at, node)| node.about.inode == number && self.is_there(at, node))
    }

    fn is_there(&self, at: usize, node: &Node) -> bool {
        Rc::strong_count(&node.handles) > 1 || self.names.iter().any(|name| *name == Some(at))
    }

    /// Opens a file by its number.
    pub fn opened(&mut self, number: usize) -> io::Result<MemoryOpened>
        ensures { self.new.past ≡ self.old.past }
    {
        self.openings = self.openings.wrapping_add(1);
        let opening = counted(self.alloc, self.openings)?;
        Ok(MemoryOpened {
            node: number,
            handle: node_at(&self.nodes, number)?.handles.clone()?,
            opening,
        })
    }

    /// Takes the lock of an open file, which one opening has at a time.
    pub fn lock(&mut self, opened: &MemoryOpened) -> io::Result<()>
        ensures { self.new.past ≡ self.old.past }
    {
        let opening = opened.opening.clone()?;
        let node = node_at_mut(&mut self.nodes, opened.node)?;
        if let Some(holder) = &node.holder {
            if Rc::strong_count(holder) > 1 && **holder != *opening {
                return fault(ErrorKind::WouldBlock);
            }
        }
        node.holder = Some(opening);
        Ok(())
    }

    /// Whether a lock is that of the file which has a name.
    pub fn is_held(&self, name: &str, held: &MemoryHeld) -> bool {
        match self.number(name) {
            Ok(number) => match self.nodes.get(number) {
                Some(node) => number == held.opened.node && node.has_lock(&held.opened),
                None => false,
            },
            Err(_) => false,
        }
    }

    /// Adds a file that has the path from the beginning, and is as long as said.
    pub fn add_first(&mut self, bytes: &[u8], size: u64) -> Result<(), AllocError> {
        self.add(0, bytes, OLD_MODE)?;
        if let Some(node) = self.nodes.last_mut() {
            node.about.size = size;
        }
        self.past.place(self.alloc, bytes)?;
        self.past.keep();
        self.kept = self.names[0];
        Ok(())
    }

    /// Adds the old file, which has the path.
    pub fn add_old(&mut self) -> Result<(), AllocError> {
        self.has_old = true;
        self.add_first(OLD, OLD_SIZE)
    }

    /// Gives a name to a file, or takes it away.
    pub fn bind(&mut self, slot: usize, node: Option<usize>)
        ensures { self.new.past ≡ self.old.past }
    {
        if let Some(name) = self.names.get_mut(slot) {
            *name = node;
        }
    }

    /// Sees what a power cut would leave at the path: the file that has it on the disk, or the one that has it now; and
    /// that both are what is written down of the path.
    pub fn see(&mut self)
        ensures { self.new.past ≡ self.old.past }
    {
        let now = self.names[0];
        let is_whole = self.is_whole(now) && self.is_whole(self.kept);
        let is_past = self.past.ends_with(self.bytes_of(now))
            && self.past.begins_with(self.bytes_of(self.kept));
        if !is_whole || !is_past {
            self.is_wrong = true;
        }
    }

    // Whether a file at the path is the old one whole, or a saved one.
    fn is_whole(&self, node: Option<usize>) -> bool {
        match node {
            None => !self.has_old,
            Some(number) => match self.nodes.get(number) {
                Some(node) => node.is_kept && is_saved(node.bytes.as_slice()),
                None => false,
            },
        }
    }

    fn bytes_of(&self, node: Option<usize>) -> Option<&[u8]> {
        Some(self.nodes.get(node?)?.bytes.as_slice())
    }

    /// The place of a name among those there are.
    pub fn slot(&self, name: &str) -> io::Result<usize> {
        for (slot, known) in NAMES.iter().enumerate() {
            if *known == name {
                return Ok(slot);
            }
        }
        fault(ErrorKind::InvalidInput)
    }

    /// The number of the file that has a name.
    pub fn number(&self, name: &str) -> io::Result<usize> {
        let slot = self.slot(name)?;
        match self.names.get(slot) {
            Some(Some(number)) => Ok(*number),
            _ => fault(ErrorKind::NotFound),
        }
    }

    pub fn node(&self, number: usize) -> io::Result<&Node> {
        node_at(&self.nodes, number)
    }

    /// Writes bytes behind those that a file has, which nobody may read that might not read the old file. The first ones wait
    /// until it is finished.
    pub fn append(&mut self, number: usize, bytes: &[u8])
        ensures { self.new.past ≡ self.old.past }
    {
        self.pass();
        let (time, has_old) = (self.time, self.has_old);
        let Ok(node) = node_at_mut(&mut self.nodes, number) else {
            return;
        };
        let is_full = node.bytes.extend_from_slice(bytes).is_err();
        node.mark();
        node.is_kept = false;
        node.about.size = node.bytes.len() as u64;
        node.about.modified = (time, 0);
        let is_open = has_old && node.about.mode & !OLD_MODE != 0;
        self.is_wrong |= is_open || is_full;
    }

    /// How many bytes a file has.
    pub fn len_of(&self, number: usize) -> usize {
        match self.nodes.get(number) {
            Some(node) => node.bytes.len(),
            None => 0,
        }
    }

    /// What the path has now.
    pub fn at_path(&self) -> Option<&[u8]> {
        self.bytes_of(self.names[0])
    }
}

// A number whose handles are counted.
fn counted(alloc: Global, number: usize) -> Result<Rc<usize>, AllocError> {
    match Rc::new(alloc, number) {
        Ok(counted) => Ok(counted),
        Err(_) => Err(AllocError),
    }
}

fn is_saved(bytes: &[u8]) -> bool {
    bytes == OLD || SAVED.iter().any(|saved| *saved == bytes)
}

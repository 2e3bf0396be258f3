//! What one saver sees of a file system in memory.
ghost use Rattle.std.specs.Prelude.{◌≡◌, ◌&&◌, ⊤, None, Some, [], OnOk, OnErr, bytes_eq, string_bytes, true};
ghost use Rattle.exh_saving.specs.History.{placed};
ghost use Rattle.exh_disk_fakes.specs.Past.{history_at, known};

use crate::between::Between;
use crate::memory_disk::{MemoryDisk, OLD_MODE, USER, fault};
use crate::memory_file::{MemoryFile, MemoryHeld, MemoryOpened};
use crate::memory_writer::{MemoryWriter, PIECE};
use crate::node::node_at_mut;
use crate::past::PATH;
use crate::saver::Saver;
use exh_saving::{Disk, Found, Head, Kind, Runner, Stage};
use std::alloc::Global;
use std::io;
use std::io::ErrorKind;

/// One saver's calls, and who comes in between.
#[derive(Drop)]
pub struct Side<'d, B: Between + Drop> {
    disk: &'d mut MemoryDisk,
    saver: Saver,
    calls: usize,
    between: B,
}

impl<'d, B: Between + Drop> Side<'d, B> {
    pub fn new(disk: &'d mut MemoryDisk, saver: Saver, between: B) -> Side<'d, B> {
        Side {
            disk,
            saver,
            calls: 0,
            between,
        }
    }

    // One more call: it is seen what a power cut before it would leave, and it may fail.
    fn enter(&mut self) -> io::Result<()>
        ensures { known B.comes self.new.disk.now.past ≡ known B.comes self.old.disk.now.past }
    {
        self.between.come(self.disk);
        self.disk.see();
        self.calls = self.calls.wrapping_add(1);
        if self.saver.fails(self.calls) {
            return fault(ErrorKind::Other);
        }
        Ok(())
    }

    fn found(&mut self, name: &str) -> io::Result<Found>
        ensures { known B.comes self.new.disk.now.past ≡ known B.comes self.old.disk.now.past }
    {
        self.enter()?;
        let number = self.disk.number(name)?;
        Ok(self.disk.node(number)?.about)
    }

    // Gives a file its first bytes, in a call of its own.
    fn finish(&mut self, file: &MemoryFile) -> io::Result<()>
        ensures { known B.comes self.new.disk.now.past ≡ known B.comes self.old.disk.now.past }
    {
        self.enter()?;
        node_at_mut(&mut self.disk.nodes, file.opened.node)?.finish(file.bytes.as_slice());
        Ok(())
    }

    // Gives a file the path, and takes its name away.
    fn give_path(&mut self, file: &MemoryFile, name: &str, path: &str) -> io::Result<()>
        ensures ok { OnOk result (history_at (known B.comes self.new.disk.now.past) path.now
            ≡ placed (history_at (known B.comes self.old.disk.now.past) path.now) (Some file.now.bytes.items)) }
        ensures err { OnErr result (known B.comes self.new.disk.now.past ≡ known B.comes self.old.disk.now.past) }
    {
        if path != PATH {
            return fault(ErrorKind::InvalidInput);
        }
        let alloc = self.disk.alloc;
        let from = self.disk.slot(name)?;
        let number = self.disk.number(name)?;
        self.disk.past.place(alloc, file.bytes.as_slice())?;
        self.disk.bind(0, Some(number));
        self.disk.bind(from, None);
        Ok(())
    }

    // Gives a file the path beside its name.
    fn give_link(&mut self, file: &MemoryFile, name: &str, path: &str) -> io::Result<()>
        ensures ok { OnOk result (history_at (known B.comes self.new.disk.now.past) path.now
            ≡ placed (history_at (known B.comes self.old.disk.now.past) path.now) (Some file.now.bytes.items)) }
        ensures err { OnErr result (known B.comes self.new.disk.now.past ≡ known B.comes self.old.disk.now.past) }
    {
        if path != PATH {
            return fault(ErrorKind::InvalidInput);
        }
        if self.disk.number(path).is_ok() {
            return fault(ErrorKind::AlreadyExists);
        }
        let alloc = self.disk.alloc;
        let number = self.disk.number(name)?;
        node_at_mut(&mut self.disk.nodes, number)?.about.links = 2;
        self.disk.past.place(alloc, file.bytes.as_slice())?;
        self.disk.bind(0, Some(number));
        Ok(())
    }

    // Takes a name away.
    fn unlink(&mut self, name: &str) -> io::Result<()>
        ensures { self.new.disk.now.past ≡ self.old.disk.now.past }
    {
        if name == PATH {
            return fault(ErrorKind::InvalidInput);
        }
        let slot = self.disk.slot(name)?;
        let number = self.disk.number(name)?;
        self.disk.bind(slot, None);
        node_at_mut(&mut self.disk.nodes, number)?.about.links = 1;
        Ok(())
    }
}

impl<B: Between + Drop> Disk for Side<'_, B> {
    type File = MemoryFile;

    type Writer = MemoryWriter;

    type Opened = MemoryOpened;

    type Held = MemoryHeld;

    type Device = Vec<u8>;

    ghost stage = { λ file. file.stage };

    ghost bears = { λ file name. (file.has_name ≡ true) × (string_bytes file.name ≡ name) };

    ghost unwritten = { Some [] };

    ghost holds = { λ file. Some file.bytes.items };

    ghost stands = { λ held path. held.stands && bytes_eq (string_bytes held.path) path };

    ghost history = { λ side. history_at (known B.comes side.disk.now.past) };

    ghost leads = { λ named whole. whole ≡ named };

    ghost answers = { λ _. ⊤ };

    ghost finds = { λ _ _. ⊤ };

    fn runner(&mut self) -> io::Result<Runner> {
        self.enter()?;
        Ok(Runner {
            user: USER,
            group: USER,
        })
    }

    fn whole_path(&mut self, alloc: Global, path: &str) -> io::Result<String> {
        self.enter()?;
        Ok(String::from_str(alloc, path)?)
    }

    fn ask(&mut self, path: &str) -> io::Result<Found> {
        self.found(path)
    }

    fn ask_name(&mut self, name: &str) -> io::Result<Found> {
        self.found(name)
    }

    fn head(&mut self, path: &str) -> io::Result<Head> {
        let found = self.found(path)?;
        let number = self.disk.number(path)?;
        let mut bytes = [0; 8];
        for (to, from) in bytes.iter_mut().zip(self.disk.node(number)?.bytes.iter()) {
            *to = *from;
        }
        Ok(Head { found, bytes })
    }

    fn open_old(&mut self, path: &str) -> io::Result<MemoryOpened> {
        self.enter()?;
        let number = self.disk.number(path)?;
        self.disk.opened(number)
    }

    fn ask_opened(&mut self, opened: &MemoryOpened) -> io::Result<Found> {
        self.enter()?;
        Ok(self.disk.node(opened.node)?.about)
    }

    fn hold(&mut self, opened: &MemoryOpened) -> io::Result<MemoryHeld> {
        self.enter()?;
        self.disk.lock(opened)?;
        Ok(MemoryHeld {
            opened: opened.again()?,
            path: String::new(self.disk.alloc),
            stands: false,
        })
    }

    fn confirm_old(&mut self, held: &mut MemoryHeld, path: &str, was: &Found) -> io::Result<bool> {
        let found = self.found(path)?;
        let is_there = self.disk.node(held.opened.node)?.about.is_unchanged(&found);
        held.path = String::from_str(self.disk.alloc, path)?;
        held.stands = is_there && was.is_unchanged(&found);
        Ok(held.stands)
    }

    fn unname_old(&mut self, held: &MemoryHeld, name: &str, path: &str) -> io::Result<()> {
        self.enter()?;
        let is_free = !self.disk.is_held(path, held);
        self.disk.is_wrong |= is_free;
        self.unlink(name)
    }

    fn open(&mut self, _path: &str) -> io::Result<Option<Vec<u8>>> {
        fault(ErrorKind::Unsupported)
    }

    fn synchronize_device(&mut self, _device: &mut Vec<u8>) -> io::Result<()> {
        fault(ErrorKind::Unsupported)
    }

    fn make(&mut self, name: &str, mode: u32) -> io::Result<MemoryFile> {
        self.enter()?;
        if name == PATH {
            return fault(ErrorKind::InvalidInput);
        }
        let slot = self.disk.slot(name)?;
        if self.disk.number(name).is_ok() {
            return Err(io::Error::from(ErrorKind::AlreadyExists));
        }
        let node = self.disk.nodes.len();
        self.disk.add(slot, b"", mode & 0o644)?;
        Ok(MemoryFile {
            opened: self.disk.opened(node)?,
            stage: Stage::Made,
            bytes: Vec::new(self.disk.alloc),
            name: String::new(self.disk.alloc),
            has_name: false,
        })
    }

    fn take(&mut self, name: &str, _path: &str) -> io::Result<MemoryFile> {
        self.enter()?;
        let node = self.disk.number(name)?;
        let is_strange = self.disk.node(node)?.about.kind != Kind::Regular;
        self.disk.is_wrong |= is_strange;
        Ok(MemoryFile {
            opened: self.disk.opened(node)?,
            stage: Stage::Left,
            bytes: Vec::new(self.disk.alloc),
            name: String::new(self.disk.alloc),
            has_name: false,
        })
    }

    fn lock(&mut self, file: &mut MemoryFile) -> io::Result<()> {
        self.enter()?;
        self.disk.lock(&file.opened)?;
        file.stage = file.stage.locked();
        Ok(())
    }

    fn confirm(&mut self, file: &mut MemoryFile, name: &str) -> io::Result<bool> {
        let found = self.found(name)?;
        let is_own = self.disk.node(file.opened.node)?.about.is_only(&found);
        file.name = String::from_str(self.disk.alloc, name)?;
        file.has_name = is_own;
        file.stage = file.stage.asked(is_own);
        Ok(is_own)
    }

    fn restrict(&mut self, file: &mut MemoryFile) -> io::Result<()> {
        self.enter()?;
        node_at_mut(&mut self.disk.nodes, file.opened.node)?
            .about
            .mode = 0o600;
        file.stage = Stage::Restricted;
        Ok(())
    }

    // A file that has bytes is emptied only where nobody else can open it that might not read the old file.
    fn empty(&mut self, file: &mut MemoryFile) -> io::Result<()> {
        self.enter()?;
        let node = node_at_mut(&mut self.disk.nodes, file.opened.node)?;
        let is_open = !node.bytes.is_empty() && node.about.mode & !OLD_MODE != 0;
        node.bytes.clear();
        node.about.size = 0;
        node.is_kept = false;
        self.disk.is_wrong |= is_open;
        file.bytes.clear();
        file.stage = Stage::Empty;
        Ok(())
    }

    fn give(
        &mut self,
        _file: &mut MemoryFile,
        _owner: Option<u32>,
        _group: Option<u32>,
    ) -> io::Result<()> {
        self.enter()
    }

    // A file has its permissions before its first byte.
    fn permit(&mut self, file: &mut MemoryFile, mode: u32) -> io::Result<()> {
        self.enter()?;
        let node = node_at_mut(&mut self.disk.nodes, file.opened.node)?;
        let is_late = !node.bytes.is_empty();
        node.about.mode = mode;
        self.disk.is_wrong |= is_late;
        file.stage = Stage::Dressed;
        Ok(())
    }

    fn begin_writing(&mut self, file: MemoryFile) -> MemoryWriter {
        MemoryWriter {
            file,
            saver: self.saver,
            calls: self.calls,
        }
    }

    // The pieces come to the file system one after the other, as they were written.
    fn end_writing(&mut self, writer: MemoryWriter) -> MemoryFile {
        let MemoryWriter {
            mut file,
            calls,
            ..
        } = writer;
        let mut at = self.disk.len_of(file.opened.node);
        'pieces: for _ in self.calls..calls {
            self.between.come(self.disk);
            self.disk.see();
            let end = file.bytes.len().min(at.saturating_add(PIECE));
            if at < end {
                self.disk.append(file.opened.node, &file.bytes[at..end]);
                at = end;
            }
        }
        self.calls = calls;
        file.stage = Stage::Written;
        file
    }

    fn synchronize(&mut self, file: &mut MemoryFile) -> io::Result<()> {
        self.enter()?;
        node_at_mut(&mut self.disk.nodes, file.opened.node)?.is_kept = true;
        file.stage = Stage::Synchronized;
        Ok(())
    }

    // A file is replaced only under its lock.
    fn rename(
        &mut self,
        file: &mut MemoryFile,
        name: &str,
        path: &str,
        held: &MemoryHeld,
    ) -> io::Result<()> {
        self.finish(file)?;
        self.enter()?;
        let is_free = !self.disk.is_held(path, held);
        self.disk.is_wrong |= is_free;
        self.give_path(file, name, path)?;
        file.stage = Stage::Placed;
        Ok(())
    }

    fn link(&mut self, file: &mut MemoryFile, name: &str, path: &str) -> io::Result<bool> {
        self.finish(file)?;
        self.enter()?;
        if !self.disk.has_links {
            file.stage = Stage::Unlinkable;
            return Ok(false);
        }
        self.give_link(file, name, path)?;
        file.stage = Stage::Linked;
        Ok(true)
    }

    fn unname(&mut self, file: &mut MemoryFile, name: &str) -> io::Result<()> {
        file.stage = Stage::Placed;
        self.enter()?;
        self.unlink(name)
    }

    fn rename_new(&mut self, file: &mut MemoryFile, name: &str, path: &str) -> io::Result<()> {
        self.finish(file)?;
        self.enter()?;
        self.give_path(file, name, path)?;
        file.stage = Stage::Placed;
        Ok(())
    }

    fn synchronize_folder(&mut self, file: &mut MemoryFile, path: &str) -> io::Result<()> {
        file.stage = Stage::Settled;
        self.enter()?;
        if path != PATH {
            return fault(ErrorKind::InvalidInput);
        }
        self.disk.kept = self.disk.names[0];
        self.disk.past.keep();
        Ok(())
    }

    fn remove(&mut self, _file: &MemoryFile, name: &str) -> io::Result<()> {
        self.enter()?;
        self.unlink(name)
    }
}

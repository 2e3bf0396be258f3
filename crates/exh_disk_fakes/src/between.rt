//! Who comes in between the calls of a saver.
ghost use Rattle.std.specs.Prelude.{◌≡◌, Bool, false, true};
ghost use Rattle.exh_saving.specs.declared.source.SourceFault.TheVariants.{Writer};
ghost use Rattle.exh_disk_fakes.specs.Past.{known};

use crate::memory_disk::{MAGIC, MemoryDisk, SAVED};
use crate::memory_file::MemoryOpened;
use crate::past::PATH;
use crate::saver::Saver;
use crate::side::Side;
use exh_saving::{Seen, Source, SourceFault, Target, Watch, save};
use std::io;
use std::io::Write;

/// What a save came to.
#[derive(Clone, Copy)]
pub enum Ending {
    Refused,
    /// It is done, but its folder may not be on the disk.
    Placed,
    /// It is done, and on the disk.
    Settled,
}

/// Who comes in between the calls of a saver.
pub trait Between {
    /// Whether anybody does.
    ghost comes: { Bool };

    fn come(&mut self, disk: &mut MemoryDisk)
        ensures { known comes disk.new.past ≡ known comes disk.old.past };
}

#[derive(Drop)]
pub struct Nobody;

impl Between for Nobody {
    ghost comes = { false };

    fn come(&mut self, _disk: &mut MemoryDisk) {}
}

/// Another saver, which saves before one of the calls. It saw what was there in the beginning.
#[derive(Drop)]
pub struct OtherSaver<'s> {
    pub at: usize,
    /// At which of its own calls it is killed, and 0 is none.
    pub killed_at: usize,
    pub calls: usize,
    pub seen: Option<&'s Seen<MemoryOpened>>,
    pub ending: &'s mut Ending,
}

impl Between for OtherSaver<'_> {
    ghost comes = { true };

    fn come(&mut self, disk: &mut MemoryDisk) {
        self.calls = self.calls.wrapping_add(1);
        if self.calls == self.at {
            *self.ending = save_as(disk, Saver::killed(1, self.killed_at), self.seen, Nobody);
        }
    }
}

/// Saves as a saver. At its end its locks are let go.
pub fn save_as<B: Between + Drop>(
    disk: &mut MemoryDisk,
    saver: Saver,
    seen: Option<&Seen<MemoryOpened>>,
    between: B,
) -> Ending {
    let target = Target {
        path: PATH,
        magic: MAGIC,
        seen,
    };
    let alloc = disk.alloc;
    let Some(saved) = SAVED.get(saver.number) else {
        return Ending::Refused;
    };
    let Ok(bytes) = Vec::from_slice(alloc, *saved) else {
        return Ending::Refused;
    };
    let source = Bytes { bytes };
    let (saved, _source) = save(
        alloc,
        &mut Side::new(disk, saver, between),
        &target,
        source,
        &Unwatched,
    );
    match saved {
        Ok(saved) => ending_of(saved.folder),
        Err(_) => Ending::Refused,
    }
}

// How a save ended that is done, by why its folder isn't on the disk.
fn ending_of(folder: Option<io::Error>) -> Ending {
    match folder {
        Some(_) => Ending::Placed,
        None => Ending::Settled,
    }
}

/// A saver's bytes.
#[derive(Drop)]
struct Bytes {
    bytes: Vec<u8>,
}

impl Source for Bytes {
    ghost leaves = { λ old new. new ≡ old };

    ghost fails = { λ _ _ fault. fault ≡ Writer };

    ghost bytes = { λ source. source.bytes.items };

    fn write_to<W: Write>(self, writer: &mut W) -> (Result<(), SourceFault>, Self) {
        match writer.write_all(self.bytes.as_slice()) {
            Ok(()) => (Ok(()), self),
            Err(_) => (Err(SourceFault::Writer), self),
        }
    }
}

/// Nobody is told of what is written.
#[derive(Drop)]
struct Unwatched;

impl Watch for Unwatched {
    fn wrote(&self, _bytes: &[u8]) {}
}

ghost use Rattle.std.specs.Prelude.{◌≡◌, ◌⊎◌, ◌↔◌, IfErr, IfOk, IsOk, IsTrue, OnErr, OnOk, string_bytes};
ghost use Rattle.std.specs.IoError.{error_kind};
ghost use Rattle.std.specs.Option.{option_copied};
ghost use Rattle.std.specs.declared.io.ErrorKind.TheVariants.{OutOfMemory};
ghost use Rattle.exh_saving.specs.Answer.{Fails};
ghost use Rattle.exh_saving.specs.Found.{IsSame, IsUnchanged};
ghost use Rattle.exh_saving.specs.declared.fault.DiskFault.TheVariants.{NotAsOpened};
ghost use Rattle.exh_saving.specs.Seen.{IsAt, IsKept, IsSeenAt, MayBeSeen, MayReplace};

use crate::{Call, Disk, DiskFault, Found};
use std::alloc::Global;
use std::io;
use std::io::ErrorKind;

/// A file that was opened, and is held open: the path that was named, and what the file was then.
#[derive(Drop)]
pub struct Seen<O: Drop> {
    named: String,
    opened: O,
    about: io::Result<About>,
}

// What was asked of a file when it was opened.
#[derive(Drop)]
struct About {
    // Its path without links.
    path: String,
    found: Found,
}

impl<O: Drop> Seen<O> {
    /// A file that was just opened at a path. Where the system doesn't say what it is, or where, that is kept, since it
    /// keeps a save from replacing it.
    ///
    /// An error: memory ran out.
    pub fn new<D: Disk<Opened = O>>(
        alloc: Global,
        disk: &mut D,
        path: &str,
        opened: O,
    ) -> io::Result<Seen<O>>
        ensures seen { IfOk result (IsSeenAt D.leads D.answers D.finds path.now opened) }
        ensures err { IfErr result (λ error. error_kind error ≡ OutOfMemory) }
        ensures crash { D.history disk.new ≡ D.history disk.old }
    {
        let about = match about_of(alloc, disk, path, &opened) {
            Err(error) if error.kind() == ErrorKind::OutOfMemory => return Err(error),
            about => about,
        };
        let named = String::from_str(alloc, path)?;
        Ok(Seen {
            named,
            opened,
            about,
        })
    }

    /// The file itself, to be read.
    pub fn opened(&self) -> &O
        ensures { result.now ≡ self.now.opened }
    {
        &self.opened
    }

    /// Whether what is to be saved to is where the file was opened, or is this file.
    pub fn is_at(&self, named: &str, path: &str, there: &Found) -> bool
        ensures { IsTrue result ↔ IsAt self.now named.now path.now there.now }
    {
        let is_named = self.named.as_str() == named;
        match &self.about {
            Ok(about) => { is_named || about.path.as_str() == path || about.found.is_same(there) }
            Err(_) => is_named,
        }
    }

    /// Sees that what is at a path may be replaced, as far as this file goes: where it was named so when it was opened, it
    /// must be there as it was; else only where it is there, or was.
    pub fn check<D: Disk<Opened = O>>(
        &self,
        disk: &mut D,
        named: &str,
        path: &str,
        there: Option<&Found>,
    ) -> Result<(), DiskFault>
        ensures ok { OnOk result (MayReplace D.finds self.now named.now path.now (option_copied there.entry)) }
        ensures may { IsOk self.now.about → MayReplace D.finds self.now named.now path.now (option_copied there.entry) → IsOk result }
        ensures err { IfErr result (IsKept self.now) }
        ensures unasked { IfErr self.now.about (λ _. OnErr result (MayBeSeen D.answers D.finds self.now named.now (option_copied there.entry))) }
        ensures crash { D.history disk.new ≡ D.history disk.old }
    {
        let is_named = self.named.as_str() == named;
        match (&self.about, there) {
            (Ok(about), Some(there)) => about.check(is_named, path, there),
            (Ok(_), None) if is_named => Err(DiskFault::NotAsOpened),
            (Err(error), _) if is_named => Err(DiskFault::at(Call::Ask, *error)),
            (Err(error), Some(there)) => match disk.ask_opened(&self.opened) {
                Ok(opened) if !opened.is_same(there) => Ok(()),
                _ => Err(DiskFault::at(Call::Ask, *error)),
            },
            (_, None) => Ok(()),
        }
    }
}

impl About {
    fn check(&self, is_named: bool, path: &str, there: &Found) -> Result<(), DiskFault>
        ensures named { OnOk result (IsTrue is_named → (string_bytes self.now.path ≡ path.now) × IsUnchanged self.now.found there.now) }
        ensures elsewhere { OnOk result ((string_bytes self.now.path ≡ path.now) ⊎ IsSame self.now.found there.now → IsUnchanged self.now.found there.now) }
        ensures kept { OnErr result ((IsTrue is_named → (string_bytes self.now.path ≡ path.now) × IsUnchanged self.now.found there.now)
            → ((string_bytes self.now.path ≡ path.now) ⊎ IsSame self.now.found there.now → IsUnchanged self.now.found there.now) → ⊥) }
        ensures err { IfErr result (λ fault. fault ≡ NotAsOpened) }
    {
        let is_path = self.path.as_str() == path;
        let is_at = is_path || !is_named && self.found.is_same(there);
        let is_asked = is_named || is_at;
        if is_asked && !(is_at && self.found.is_unchanged(there)) {
            return Err(DiskFault::NotAsOpened);
        }
        Ok(())
    }
}

// What a file is that was just opened at a path, and where.
fn about_of<D: Disk>(
    alloc: Global,
    disk: &mut D,
    path: &str,
    opened: &D::Opened,
) -> io::Result<About>
    ensures whole { IfOk result (λ about. D.leads path.now (string_bytes about.path) × D.finds opened.now about.found) }
    ensures fails { IfErr result (λ error. D.answers (Fails error)) }
    ensures crash { D.history disk.new ≡ D.history disk.old }
{
    let found = disk.ask_opened(opened)?;
    let path = disk.whole_path(alloc, path)?;
    Ok(About { path, found })
}

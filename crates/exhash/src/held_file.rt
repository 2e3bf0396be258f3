//! A page file under the writers' lock.
ghost use Rattle.std.specs.Prelude.{◌≡◌, IfErr};
ghost use Rattle.exh_map.specs.Opened.{AreWardsOf, settings_in};
ghost use Rattle.exh_map.specs.FileMap.{KeepsMap};
ghost use Rattle.exh_map.specs.Sizes.{IsOfCause, IsOfOpening};
ghost use Rattle.exhash.specs.Store.{IsOfSaving};

use crate::Pending;
use crate::disk_commit::drafted;
use crate::new_file::{draft_anew, save_draft, synchronized};
use crate::reading::read_whole;
use exh_calls::Call;
use exh_frames::FileStore;
use exh_map::{
    Draft, FileForm, FileMap, Opened, OpenedFile, PlacedForm, Stamps, StoreError, SystemDisk,
    SystemFile, WAIT, above_limit, answer_in_place, draw_stamp, file_size_limit, front_of, is_at,
    lock_soon, open_above, opened_at, recover_at, save_in_place, see_no_log,
};
use exh_saving::{DiskFault, Saved};
use std::fs::File;
use std::io::{ErrorKind, Seek};
use std::{fs, io};

// How often a path is opened anew to which another file came before it was locked.
const TRIES: u32 = 100;

// Of how many pages of a file one may be changed by a call of a commit in place, and how many calls are in any case.
const PAGES_OF_A_CALL: usize = 8;

const FEW_CALLS: usize = 16;

/// The page file of a path, which is locked.
#[derive(Drop)]
pub struct HeldFile {
    path: String,
    seen: OpenedFile,
    // Its lock, where it came of a save of its own.
    lock: Option<SystemFile>,
    form: FileForm,
    // Calls were made in it since, which may have added pages that the form hasn't.
    has_grown: bool,
}

impl HeldFile {
    /// Opens and locks the page file of a path, for which it waits so many seconds, recovers a change that was cut off, and
    /// reads it.
    ///
    /// `Absent`: nothing is there. `Busy`: another process has the lock. `Changed`: other files come to the path. Others: it
    /// isn't opened or read, as the error says.
    pub fn open(
        rt: &HostRuntime,
        path: &str,
        seconds: u64,
    ) -> Result<(HeldFile, Opened<FileStore>), StoreError>
        ensures { IfErr result IsOfOpening }
    {
        for _ in 0..TRIES {
            let file = opened_at(rt, path)?;
            lock_soon(rt, &file, seconds)?;
            let whole = fs::canonicalize(rt, path)?;
            if is_at(rt, &file, whole.as_str())? {
                return HeldFile::locked(rt, path, file);
            }
        }
        Err(StoreError::Changed)
    }

    // Of a file that is locked.
    fn locked(
        rt: &HostRuntime,
        path: &str,
        file: File,
    ) -> Result<(HeldFile, Opened<FileStore>), StoreError>
        ensures { IfErr result IsOfCause }
    {
        if front_of(&file)?.is_some() {
            recover_at(rt, path, &file)?;
        }
        let seen = seen_of(rt, path, file)?;
        let (opened, form) = read_whole(rt.alloc(), seen.opened())?;
        let held = HeldFile {
            path: String::from_str(rt.alloc(), path)?,
            seen,
            lock: None,
            form,
            has_grown: false,
        };
        Ok((held, opened))
    }

    /// How many calls are made in the file where it is saved, rather than that it is compared with all pages; of version 1
    /// or 2 none.
    pub(crate) fn call_limit(&self) -> usize {
        match &self.form {
            FileForm::Placed(form) => FEW_CALLS.max(form.lows.len() / PAGES_OF_A_CALL),
            FileForm::Plain => 0,
        }
    }

    /// Saves a map as the file: of version 3 by the calls that are pending, where they are known, else by the blocks that
    /// differ; of another the whole file.
    ///
    /// `Vanished`: it is no longer at its path. `Changed`: another process changed it all the same. `Unsure`: it may be saved.
    /// `Unheld`: it is saved, but no longer held. `Unsynchronized`: it is saved, but a power failure may take it back.
    pub(crate) fn save(
        &mut self,
        rt: &HostRuntime,
        map: &mut FileMap<FileStore>,
        pending: &Pending,
    ) -> Result<(), StoreError>
        ensures kept { KeepsMap map.old map.new }
        ensures settings { settings_in map.new ≡ settings_in map.old }
        ensures refused { IfErr result IsOfSaving }
    {
        self.see_there(rt)?;
        match pending.calls() {
            Some(calls) => self.answer(rt, calls),
            None => self.save_all(rt, map),
        }
    }

    /// Replaces the file by a new one of version 3, of these wards, and lets it go. Of version 1 or 2 it must have no log
    /// beside it.
    ///
    /// `Vanished`: it is no longer at its path. `AboveLimit`: the new one would be longer than the system lets it be.
    /// `Unsynchronized`: it is saved, but a power failure may take it back. Others: nothing was saved, as they say.
    pub fn replace(self, rt: &HostRuntime, wards: Opened<FileStore>) -> Result<(), StoreError>
        ensures { IfErr result IsOfSaving }
    {
        self.see_there(rt)?;
        if let FileForm::Plain = &self.form {
            see_no_log(rt, &self.path)?;
        }
        if let Some(above) = above_limit(file_size_limit(rt, &self.path), &wards.header(), true) {
            return Err(StoreError::AboveLimit(above));
        }
        let draft = draft_anew(rt, wards)?;
        let saved = save_draft(rt, &self.path, Some(&self.seen), draft)?;
        synchronized(saved.folder)
    }

    // Makes calls in the file, which is of version 3.
    fn answer(&mut self, rt: &HostRuntime, calls: &[Call]) -> Result<(), StoreError>
        ensures { IfErr result IsOfSaving }
    {
        let FileForm::Placed(form) = &mut self.form else {
            return Err(StoreError::OldVersion);
        };
        let file = self.seen.opened();
        let answered = answer_in_place(rt, &self.path, file, form.stamp, calls, WAIT)?;
        form.stamp = answered.stamp;
        self.has_grown = true;
        Ok(())
    }

    // Saves a map by a copy of its wards.
    fn save_all(&mut self, rt: &HostRuntime, map: &mut FileMap<FileStore>) -> Result<(), StoreError>
        ensures kept { KeepsMap map.old map.new }
        ensures settings { settings_in map.new ≡ settings_in map.old }
        ensures refused { IfErr result IsOfSaving }
    {
        self.see_places(rt)?;
        let copy = map.copied(rt.alloc())?;
        match &mut self.form {
            FileForm::Placed(form) => save_placed(rt, &self.path, &self.seen, form, map, copy),
            FileForm::Plain => self.save_whole(rt, copy),
        }
    }

    // Reads in which places the file has its pages, where calls were made in it.
    fn see_places(&mut self, rt: &HostRuntime) -> Result<(), StoreError>
        ensures { IfErr result IsOfCause }
    {
        let FileForm::Placed(form) = &mut self.form else {
            return Ok(());
        };
        if !self.has_grown {
            return Ok(());
        }
        let mut file = self.seen.opened();
        file.rewind()?;
        let (_wards, found) = read_whole(rt.alloc(), file)?;
        let FileForm::Placed(there) = found else {
            return Err(StoreError::Changed);
        };
        if there.stamp != form.stamp {
            return Err(StoreError::Changed);
        }
        *form = there;
        self.has_grown = false;
        Ok(())
    }

    // Sees that the file is still at its path.
    fn see_there(&self, rt: &HostRuntime) -> Result<(), StoreError>
        ensures { IfErr result IsOfSaving }
    {
        match fs::canonicalize(rt, self.path.as_str()) {
            Ok(whole) if is_at(rt, self.seen.opened(), whole.as_str())? => Ok(()),
            Ok(_) => Err(StoreError::Vanished),
            Err(error) if error.kind() == ErrorKind::NotFound => Err(StoreError::Vanished),
            Err(error) => Err(StoreError::from(error)),
        }
    }

    // Replaces the file by a new one, which is then held.
    fn save_whole(&mut self, rt: &HostRuntime, copy: Opened<FileStore>) -> Result<(), StoreError>
        ensures { IfErr result IsOfSaving }
    {
        if let Some(above) = above_limit(file_size_limit(rt, &self.path), &copy.header(), false) {
            return Err(StoreError::AboveLimit(above));
        }
        // The save takes the lock of the file that it replaces.
        self.lock = None;
        let draft = Draft::plain(copy);
        let Saved { file, folder } = save_draft(rt, &self.path, Some(&self.seen), draft)?;
        match seen_at(rt, &self.path) {
            Ok(seen) => {
                self.seen = seen;
                self.lock = file;
                synchronized(folder)
            }
            Err(error) => Err(StoreError::Unheld(error)),
        }
    }
}

// A file that was opened at a path, so that a save sees whether it is still there as it was.
fn seen_of(rt: &HostRuntime, path: &str, file: File) -> Result<OpenedFile, StoreError>
    ensures { IfErr result IsOfCause }
{
    let mut disk = SystemDisk::new(rt);
    let seen = disk.seen(path, file)?;
    // Where the system didn't say what it is, each save would be refused.
    match seen.check(&mut disk, path, path, None) {
        Err(DiskFault::System { error, .. }) => Err(StoreError::from(error)),
        _ => Ok(seen),
    }
}

// The file of a path, as it was just saved.
fn seen_at(rt: &HostRuntime, path: &str) -> io::Result<OpenedFile> {
    let file = open_above(rt, path)?;
    SystemDisk::new(rt).seen(path, file)
}

// Saves a map, of whose wards a copy is given, over a file of version 3, whose places and stamp become those that it has then.
fn save_placed(
    rt: &HostRuntime,
    path: &str,
    seen: &OpenedFile,
    form: &mut PlacedForm,
    map: &mut FileMap<FileStore>,
    copy: Opened<FileStore>,
) -> Result<(), StoreError>
    requires { AreWardsOf copy }
    ensures kept { KeepsMap map.old map.new }
    ensures settings { settings_in map.new ≡ settings_in map.old }
    ensures refused { IfErr result IsOfSaving }
{
    if let Some(above) = above_limit(file_size_limit(rt, path), &copy.header(), true) {
        return Err(StoreError::AboveLimit(above));
    }
    let lows = map.lows_grown(rt.alloc(), &form.lows)?;
    let stamps = Stamps {
        own: draw_stamp(rt)?,
        before: form.stamp,
    };
    let draft = drafted(rt.alloc(), copy, &form.lows, stamps)?;
    save_in_place(rt, path, seen.opened(), form.stamp, draft, WAIT)?;
    form.lows = lows;
    form.stamp = stamps.own;
    Ok(())
}

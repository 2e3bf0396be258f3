//! A page file that is opened whole, and worked on in memory.
ghost use Rattle.std.specs.Prelude.{◌≡◌, [], ◌∷◌, Err, IfErr, IfOk, IsTrue, OnErr, OnOk, length};
ghost use Rattle.std.specs.FinMap.{from_entries, len};
ghost use Rattle.exh_map.specs.FileChange.{HasMap};
ghost use Rattle.exh_map.specs.Opened.{settings_in};
ghost use Rattle.exh_page.specs.KeyMap.{KeyMap};
ghost use Rattle.exh_map.specs.CallFault.{IsCallFault, IsWardFault};
ghost use Rattle.exh_map.specs.FileMap.{IsGot, IsPut, IsPutNew, IsRemoved, IsReplaced, IsSwap, KeepsMap};
ghost use Rattle.exh_map.specs.Pairs.{AreOnce, pairs_in};
ghost use Rattle.exh_map.specs.Sizes.{IsOfCause, IsOfOpening};
ghost use Rattle.exh_map.specs.declared.store_error.StoreError.TheVariants.{ReadOnly, Settings as SettingsFault};
ghost use Rattle.exhash.specs.Pending.{IsEmpty, KeepsPending};
ghost use Rattle.exh_page.specs.FileSettings.{AreInRange};
ghost use Rattle.exhash.specs.Store.{IsHeld, IsNew, IsOfCommit, IsOfMaking, IsOfNew, IsOfSaving, IsReadOnly, IsUnheld};

use crate::Pending;
use crate::held_file::HeldFile;
use crate::new_file::make;
use crate::reading::read_opened;
use exh_frames::FileStore;
use exh_map::{FileMap, Pairs, Put, PutNew, Settings, StoreError, Swap, WAIT, key_of, value_of};
use exh_page::Value;

/// A page file that is opened whole: calls are answered in memory, and `commit` saves what they changed, all of it or
/// nothing. A store that is let go without a commit leaves the file as it was.
#[derive(Drop)]
pub struct Store<'r> {
    rt: &'r HostRuntime,
    map: FileMap<FileStore>,
    // The file, where it is held.
    file: Option<HeldFile>,
    // What was changed since the last commit.
    pending: Pending,
}

impl<'r> Store<'r> {
    /// Makes a page file of version 3 at a path, and opens it.
    ///
    /// `Exists`: something is there already that isn't empty, or another process changed the file before it was opened.
    /// `Settings`: the settings are no file's. `Unsynchronized`: it is made and not opened, and a power failure may take it away.
    /// `Vanished`: it was gone before it was opened. Others: it isn't made or opened, as they say. Then an empty file may be left.
    pub fn create(
        rt: &'r HostRuntime,
        path: &str,
        settings: Settings,
    ) -> Result<Store<'r>, StoreError>
        ensures new { IfOk result (λ store. IsNew settings store.map) }
        ensures held { IfOk result (λ store. IsHeld store.file) }
        ensures pending { IfOk result (λ store. IsEmpty store.pending) }
        ensures settings { (AreInRange settings → ⊥) → result ≡ Err SettingsFault }
        ensures refused { IfErr result (IsOfMaking settings) }
    {
        make(rt, path, settings)?;
        let mut store = Store::open_there(rt, path)?;
        if store.is_new(settings)? {
            Ok(store)
        } else {
            Err(StoreError::Exists)
        }
    }

    // Whether it has these settings, and no pairs.
    fn is_new(&mut self, settings: Settings) -> Result<bool, StoreError>
        ensures new { IfOk result (λ is. IsTrue is → IsNew settings self.new.map) }
        ensures file { self.new.file ≡ self.old.file }
        ensures pending { self.new.pending ≡ self.old.pending }
        ensures refused { IfErr result IsOfCause }
    {
        let is_empty = self.pairs()?.len() == 0;
        Ok(is_empty && self.settings().are_same(&settings))
    }

    /// Opens the page file of a path, of any version, and holds its writers' lock until the store is let go. It waits five
    /// seconds for the lock. A change that another process didn't finish is recovered before.
    ///
    /// `Absent`: nothing is there, or an empty file. `Busy`: another process has the lock. Others: it isn't opened, as they
    /// say.
    pub fn open(rt: &'r HostRuntime, path: &str) -> Result<Store<'r>, StoreError>
        ensures held { IfOk result (λ store. IsHeld store.file) }
        ensures pending { IfOk result (λ store. IsEmpty store.pending) }
        ensures refused { IfErr result IsOfOpening }
    {
        Store::open_within(rt, path, WAIT)
    }

    /// The same, and waits so many seconds for the lock.
    pub fn open_within(
        rt: &'r HostRuntime,
        path: &str,
        seconds: u64,
    ) -> Result<Store<'r>, StoreError>
        ensures held { IfOk result (λ store. IsHeld store.file) }
        ensures pending { IfOk result (λ store. IsEmpty store.pending) }
        ensures refused { IfErr result IsOfOpening }
    {
        let (file, opened) = HeldFile::open(rt, path, seconds)?;
        let pending = Pending::new(rt.alloc(), file.call_limit());
        Ok(Store {
            rt,
            map: FileMap::new(opened),
            file: Some(file),
            pending,
        })
    }

    // Opens a file that was there just now. `Vanished`: it is gone.
    fn open_there(rt: &'r HostRuntime, path: &str) -> Result<Store<'r>, StoreError>
        ensures held { IfOk result (λ store. IsHeld store.file) }
        ensures pending { IfOk result (λ store. IsEmpty store.pending) }
        ensures refused { IfErr result IsOfSaving }
    {
        match Store::open(rt, path) {
            Err(StoreError::Absent) => Err(StoreError::Vanished),
            opened => opened,
        }
    }

    /// Opens the page file of a path, or makes one of these settings where nothing is there. The settings of a file that is
    /// there are its own.
    ///
    /// Errors: as of `open` and `create`, but for `Absent` and `Exists`.
    pub fn open_or_create(
        rt: &'r HostRuntime,
        path: &str,
        settings: Settings,
    ) -> Result<Store<'r>, StoreError>
        ensures held { IfOk result (λ store. IsHeld store.file) }
        ensures pending { IfOk result (λ store. IsEmpty store.pending) }
        ensures refused { IfErr result (IsOfNew settings) }
    {
        match Store::open(rt, path) {
            Err(StoreError::Absent) => match Store::create(rt, path, settings) {
                Err(StoreError::Exists) => Store::open_there(rt, path),
                made => made,
            },
            opened => opened,
        }
    }

    /// Opens one state of the page file of a path to be read, also beside others that change it, and holds nothing of it.
    /// What is changed of the store isn't committed. It reads for five seconds while others are changing the file.
    ///
    /// `Absent`: nothing is there, or an empty file. `Changed`: it was being changed all the while. Others: it isn't opened, as
    /// they say.
    pub fn open_read(rt: &'r HostRuntime, path: &str) -> Result<Store<'r>, StoreError>
        ensures read { IfOk result (λ store. IsReadOnly store.file) }
        ensures refused { IfErr result IsOfOpening }
    {
        Store::open_read_within(rt, path, WAIT)
    }

    /// The same, and reads for so many seconds.
    pub fn open_read_within(
        rt: &'r HostRuntime,
        path: &str,
        seconds: u64,
    ) -> Result<Store<'r>, StoreError>
        ensures read { IfOk result (λ store. IsReadOnly store.file) }
        ensures refused { IfErr result IsOfOpening }
    {
        let opened = read_opened(rt, path, seconds)?;
        Ok(Store {
            rt,
            map: FileMap::new(opened),
            file: None,
            pending: Pending::new(rt.alloc(), 0),
        })
    }

    /// The settings of the file.
    pub fn settings(&self) -> Settings
        ensures { result ≡ settings_in self.now.map }
    {
        self.map.settings()
    }

    /// The value of a key, or `None` where it has none.
    ///
    /// `EmptyKey`, `KeyTooLong`: it is no key. `Memory`: a growth was refused. The pairs are as before.
    pub fn get(&mut self, key: &[u8]) -> Result<Option<Value>, StoreError>
        ensures got { IfOk result (λ answer. IsGot self.old.map key.now answer self.new.map) }
        ensures refused { IfErr result (IsCallFault key.now []) }
        ensures err { OnErr result (KeepsMap self.old.map self.new.map) }
        ensures pending { self.new.pending ≡ self.old.pending }
        ensures settings { settings_in self.new.map ≡ settings_in self.old.map }
    {
        let key = key_of(key)?;
        Ok(self.map.get(&key)?)
    }

    /// Gives a key a value, new or in place of another.
    ///
    /// `EmptyKey`, `KeyTooLong`, `ValueTooLong`: it is no key or no value. `Memory`: a growth was refused. The pairs are as
    /// before.
    pub fn put(&mut self, key: &[u8], value: &[u8]) -> Result<Put, StoreError>
        ensures put { IfOk result (λ answer. IsPut self.old.map key.now value.now answer self.new.map) }
        ensures refused { IfErr result (IsCallFault key.now (value.now ∷ [])) }
        ensures err { OnErr result (KeepsMap self.old.map self.new.map) }
        ensures pending { KeepsPending self.old.map self.old.pending self.new.map self.new.pending }
        ensures settings { settings_in self.new.map ≡ settings_in self.old.map }
    {
        let key = key_of(key)?;
        let value = value_of(value)?;
        let put = self.map.put(&key, &value)?;
        self.pending.note_put(&key, &value, &put);
        Ok(put)
    }

    /// Gives a key a value, where it has none.
    ///
    /// Errors: as of `put`.
    pub fn put_new(&mut self, key: &[u8], value: &[u8]) -> Result<PutNew, StoreError>
        ensures put { IfOk result (λ answer. IsPutNew self.old.map key.now value.now answer self.new.map) }
        ensures refused { IfErr result (IsCallFault key.now (value.now ∷ [])) }
        ensures err { OnErr result (KeepsMap self.old.map self.new.map) }
        ensures pending { KeepsPending self.old.map self.old.pending self.new.map self.new.pending }
        ensures settings { settings_in self.new.map ≡ settings_in self.old.map }
    {
        let key = key_of(key)?;
        let value = value_of(value)?;
        let put = self.map.put_new(&key, &value)?;
        self.pending.note_put_new(&key, &value, &put);
        Ok(put)
    }

    /// Gives a key a value in place of the one that it has, which is the answer; `None` where it has none, and gets none.
    ///
    /// Errors: as of `put`.
    pub fn replace(&mut self, key: &[u8], value: &[u8]) -> Result<Option<Value>, StoreError>
        ensures replaced { IfOk result (λ answer. IsReplaced self.old.map key.now value.now answer self.new.map) }
        ensures refused { IfErr result (IsCallFault key.now (value.now ∷ [])) }
        ensures err { OnErr result (KeepsMap self.old.map self.new.map) }
        ensures pending { KeepsPending self.old.map self.old.pending self.new.map self.new.pending }
        ensures settings { settings_in self.new.map ≡ settings_in self.old.map }
    {
        let key = key_of(key)?;
        let value = value_of(value)?;
        let replaced = self.map.replace(&key, &value)?;
        self.pending.note_replaced(&key, &value, &replaced);
        Ok(replaced)
    }

    /// Takes a key and its value out, which is the answer; `None` where it has none.
    ///
    /// Errors: as of `get`.
    pub fn remove(&mut self, key: &[u8]) -> Result<Option<Value>, StoreError>
        ensures removed { IfOk result (λ answer. IsRemoved self.old.map key.now answer self.new.map) }
        ensures refused { IfErr result (IsCallFault key.now []) }
        ensures err { OnErr result (KeepsMap self.old.map self.new.map) }
        ensures pending { KeepsPending self.old.map self.old.pending self.new.map self.new.pending }
        ensures settings { settings_in self.new.map ≡ settings_in self.old.map }
    {
        let key = key_of(key)?;
        let removed = self.map.remove(&key)?;
        self.pending.note_removed(&key, &removed);
        Ok(removed)
    }

    /// Gives a key the new value, where it has the old one.
    ///
    /// Errors: as of `put`.
    pub fn swap(&mut self, key: &[u8], old: &[u8], new: &[u8]) -> Result<Swap, StoreError>
        ensures swapped { IfOk result (λ answer. IsSwap self.old.map key.now old.now new.now answer self.new.map) }
        ensures refused { IfErr result (IsCallFault key.now (old.now ∷ new.now ∷ [])) }
        ensures err { OnErr result (KeepsMap self.old.map self.new.map) }
        ensures pending { KeepsPending self.old.map self.old.pending self.new.map self.new.pending }
        ensures settings { settings_in self.new.map ≡ settings_in self.old.map }
    {
        let key = key_of(key)?;
        let old = value_of(old)?;
        let new = value_of(new)?;
        let swap = self.map.swap(&key, &old, &new)?;
        self.pending.note_swap(&key, &old, &new, &swap);
        Ok(swap)
    }

    /// How many pairs there are. It goes over all of them, and takes memory for them.
    ///
    /// `Memory`: a growth was refused.
    pub fn len(&mut self) -> Result<usize, StoreError>
        ensures refused { IfErr result IsWardFault }
        ensures len { IfOk result (λ count. count ≡ length (pairs_in self.old.map.wards)) }
        ensures map { IfOk result (λ count. (whole : KeyMap) → HasMap self.old.map whole → count ≡ len whole) }
        ensures same { OnOk result (self.new.map ≡ self.old.map) }
        ensures err { OnErr result (KeepsMap self.old.map self.new.map) }
        ensures pending { self.new.pending ≡ self.old.pending }
        ensures settings { settings_in self.new.map ≡ settings_in self.old.map }
    {
        Ok(self.pairs()?.len())
    }

    /// The pairs, each key once, in the order of the pages. It takes memory for them.
    ///
    /// `Memory`: a growth was refused.
    pub fn pairs(&mut self) -> Result<Pairs, StoreError>
        ensures refused { IfErr result IsWardFault }
        ensures cause { IfErr result IsOfCause }
        ensures pairs { IfOk result (λ pairs. pairs ≡ pairs_in self.old.map.wards) }
        ensures once { IfOk result (λ pairs. AreOnce pairs) }
        ensures has { IfOk result (λ pairs. HasMap self.old.map (from_entries pairs)) }
        ensures map { IfOk result (λ pairs. (whole : KeyMap) → HasMap self.old.map whole → from_entries pairs ≡ whole) }
        ensures same { OnOk result (self.new.map ≡ self.old.map) }
        ensures err { OnErr result (KeepsMap self.old.map self.new.map) }
        ensures file { self.new.file ≡ self.old.file }
        ensures pending { self.new.pending ≡ self.old.pending }
        ensures settings { settings_in self.new.map ≡ settings_in self.old.map }
    {
        Ok(self.map.pairs(self.rt.alloc())?)
    }

    /// Saves what was changed since the last commit, if something was: of a file of version 3 by the calls that changed it, or
    /// where these are many by the blocks that differ, of an older one the whole file. On `Ok` it is on the disk. A crash
    /// leaves all of it or nothing.
    ///
    /// `ReadOnly`: the store was opened to be read. `Vanished`, `Changed`: the file is no longer the one that was opened.
    /// `Unsure`: the change is saved or not, which the next open tells, and this store commits no more. `Unheld`: it is saved,
    /// but this store commits no more. `Unsynchronized`: it is saved, but a power failure may take that back; the next commit
    /// saves it again. Others: nothing was saved, as they say. The pairs of the store are as before in each case.
    pub fn commit(&mut self) -> Result<(), StoreError>
        ensures read { IsReadOnly self.old.file → result ≡ Err ReadOnly }
        ensures kept { KeepsMap self.old.map self.new.map }
        ensures done { OnOk result (IsEmpty self.new.pending) }
        ensures err { OnErr result (self.new.pending ≡ self.old.pending) }
        ensures refused { IfErr result (IsOfCommit self.old.file) }
        ensures settings { settings_in self.new.map ≡ settings_in self.old.map }
    {
        let Some(file) = &mut self.file else {
            return Err(StoreError::ReadOnly);
        };
        if self.pending.is_empty() {
            return Ok(());
        }
        file.save(self.rt, &mut self.map, &self.pending)?;
        self.pending = Pending::new(self.rt.alloc(), file.call_limit());
        Ok(())
    }

    /// Commits, and lets the file go.
    ///
    /// Errors: as of `commit`, without `Unheld`. What wasn't saved is lost then.
    pub fn close(self) -> Result<(), StoreError>
        ensures read { IsReadOnly self.entry.file → result ≡ Err ReadOnly }
        ensures refused { IfErr result (IsOfCommit self.entry.file) }
        ensures held { IfErr result (λ fault. IsUnheld fault → ⊥) }
    {
        let mut store = self;
        match store.commit() {
            Err(StoreError::Unheld(_)) => Ok(()),
            committed => committed,
        }
    }
}

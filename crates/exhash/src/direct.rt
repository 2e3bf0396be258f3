//! Calls that go to a page file, without opening it whole.
ghost use Rattle.std.specs.Prelude.{◌≡◌, [], ◌∷◌, IfErr};
ghost use Rattle.exh_map.specs.SystemLimits.{WAIT};
ghost use Rattle.exh_map.specs.Sizes.{IsOther, IsSized};

use crate::change_at::{changed_at, put_if_at};
use crate::key_reading::KeyReading;
use crate::reading::unread;
use crate::{KeyIs, PutIf};
use exh_calls::{Call, Reply};
use exh_map::{Put, PutNew, StoreError, Swap, WAIT, key_of, read_one_state, value_of};
use exh_page::{Key, Value};
use std::cell::Cell;

/// The page file of a path, of which each call reads what it needs, and is a commit by itself. A get reads a file of any
/// version; other calls change one of version 3 in place.
#[derive(Drop)]
pub struct Direct<'r> {
    rt: &'r HostRuntime,
    path: &'r str,
    // How long it is waited for others, in seconds.
    seconds: u64,
}

impl<'r> Direct<'r> {
    /// Of a path, which isn't opened yet. Each call waits five seconds for others that change the file.
    pub fn new(rt: &'r HostRuntime, path: &'r str) -> Direct<'r>
        ensures { (result.path.now ≡ path.now) × (result.seconds ≡ WAIT) }
    {
        Direct {
            rt,
            path,
            seconds: WAIT,
        }
    }

    /// The same file, of which each call waits so many seconds for others that change it; with 0 it doesn't wait.
    pub fn within(self, seconds: u64) -> Direct<'r>
        ensures { (result.path.now ≡ self.entry.path.now) × (result.seconds ≡ seconds) }
    {
        Direct { seconds, ..self }
    }

    /// The value of a key in one state of the file, or `None` where it has none.
    ///
    /// `EmptyKey`, `KeyTooLong`: it is no key. `Absent`: nothing is there, or an empty file. `Changed`: the file was being
    /// changed all the while. Others: the file isn't opened or read, as they say.
    pub fn get(&self, key: &[u8]) -> Result<Option<Value>, StoreError>
        ensures sized { IsSized key.now [] result }
    {
        let key = key_of(key)?;
        self.found(&key)
    }

    // The value of a key in one state of the file.
    fn found(&self, key: &Key) -> Result<Option<Value>, StoreError>
        ensures { IfErr result IsOther }
    {
        let reason = Cell::new(None);
        let mut reading = KeyReading {
            alloc: self.rt.alloc(),
            key,
            reason: &reason,
        };
        let fault = match read_one_state(self.rt, self.path, &mut reading, self.seconds) {
            Ok(Ok(value)) => return Ok(value),
            Ok(Err(fault)) => StoreError::of_finding(fault, reason.get()),
            Err(refused) => StoreError::from(refused),
        };
        Err(unread(self.rt, self.path, fault))
    }

    /// Gives a key a value, new or in place of another.
    ///
    /// `EmptyKey`, `KeyTooLong`, `ValueTooLong`: it is no key or no value. `Absent`: nothing is there, or an empty file.
    /// `OldVersion`: the file is of version 1 or 2.
    /// `Busy`: another process has the writers' lock. `Unsure`: the change is saved or not, which the next call tells. Others:
    /// nothing was changed, as they say.
    pub fn put(&self, key: &[u8], value: &[u8]) -> Result<Put, StoreError>
        ensures sized { IsSized key.now (value.now ∷ []) result }
    {
        let key = key_of(key)?;
        let value = value_of(value)?;
        let reply = changed_at(self.rt, self.path, &Call::Put { key, value }, self.seconds)?;
        Ok(Put::of(reply))
    }

    /// Gives a key a value, where it has none.
    ///
    /// Errors: as of `put`.
    pub fn put_new(&self, key: &[u8], value: &[u8]) -> Result<PutNew, StoreError>
        ensures sized { IsSized key.now (value.now ∷ []) result }
    {
        let key = key_of(key)?;
        let value = value_of(value)?;
        let put = PutIf {
            key,
            value,
            key_is: KeyIs::New,
        };
        let reply = put_if_at(self.rt, self.path, &put, self.seconds)?;
        Ok(PutNew::of(reply))
    }

    /// Gives a key a value in place of the one that it has, which is the answer; `None` where it has none, and gets none.
    ///
    /// Errors: as of `put`.
    pub fn replace(&self, key: &[u8], value: &[u8]) -> Result<Option<Value>, StoreError>
        ensures sized { IsSized key.now (value.now ∷ []) result }
    {
        let key = key_of(key)?;
        let value = value_of(value)?;
        let put = PutIf {
            key,
            value,
            key_is: KeyIs::There,
        };
        let reply = put_if_at(self.rt, self.path, &put, self.seconds)?;
        Ok(value_was(reply))
    }

    /// Takes a key and its value out, which is the answer; `None` where it has none.
    ///
    /// Errors: as of `put`.
    pub fn remove(&self, key: &[u8]) -> Result<Option<Value>, StoreError>
        ensures sized { IsSized key.now [] result }
    {
        let key = key_of(key)?;
        let reply = changed_at(self.rt, self.path, &Call::Del { key }, self.seconds)?;
        Ok(value_was(reply))
    }

    /// Gives a key the new value, where it has the old one.
    ///
    /// Errors: as of `put`.
    pub fn swap(&self, key: &[u8], old: &[u8], new: &[u8]) -> Result<Swap, StoreError>
        ensures sized { IsSized key.now (old.now ∷ new.now ∷ []) result }
    {
        let key = key_of(key)?;
        let old = value_of(old)?;
        let new = value_of(new)?;
        let call = Call::Swap { key, old, new };
        let reply = changed_at(self.rt, self.path, &call, self.seconds)?;
        Ok(Swap::of(reply))
    }
}

// The value that a reply says the key had, if it had one.
fn value_was(reply: Reply) -> Option<Value> {
    match reply {
        Reply::Was(value) => Some(value),
        _ => None,
    }
}

//! Page files of which one key at a time is changed.
ghost use Rattle.std.specs.Prelude.{IfOk};
ghost use Rattle.exh_everyday.specs.declared.answer.Answer.{Answer as Said};
ghost use Rattle.exh_everyday.specs.declared.change.Change.{Change as Asked};
ghost use Rattle.exh_everyday.specs.declared.change.Change.TheVariants as asked;
ghost use Rattle.exh_everyday.specs.Answers.{put_answer, put_new_answer, swap_answer, was_answer};

use exh_page::Value;
use exh_transfer::{Direct, Put, PutNew, Store, StoreError, Swap};

/// A page file that answers changes of one key.
pub(crate) trait ChangedFile {
    /// This is the answer to a change, and the file behind it.
    ghost gives: { Self → Asked → Said → Self → Type 0 };

    /// Gives a key a value.
    fn put(&mut self, key: &[u8], value: &[u8]) -> Result<Put, StoreError>
        ensures { IfOk result (λ put. gives self.old (asked.Put key.now value.now) (put_answer put) self.new) };

    /// Gives a key a value, where it has none.
    fn put_new(&mut self, key: &[u8], value: &[u8]) -> Result<PutNew, StoreError>
        ensures { IfOk result (λ put. gives self.old (asked.PutNew key.now value.now) (put_new_answer put) self.new) };

    /// Gives a key a value in place of the one that it has, which is the answer.
    fn replace(&mut self, key: &[u8], value: &[u8]) -> Result<Option<Value>, StoreError>
        ensures { IfOk result (λ was. gives self.old (asked.Replace key.now value.now) (was_answer was) self.new) };

    /// Takes a key and its value out, which is the answer.
    fn remove(&mut self, key: &[u8]) -> Result<Option<Value>, StoreError>
        ensures { IfOk result (λ was. gives self.old (asked.Remove key.now) (was_answer was) self.new) };

    /// Gives a key the new value, where it has the old one.
    fn swap(&mut self, key: &[u8], old: &[u8], new: &[u8]) -> Result<Swap, StoreError>
        ensures { IfOk result (λ swap. gives self.old (asked.Swap key.now old.now new.now) (swap_answer swap) self.new) };
}

// What a file of the system has no model tells.
impl ChangedFile for Direct<'_> {
    ghost use Rattle.std.specs.Prelude.{⊤};

    ghost gives = { λ old change answer new. ⊤ };

    fn put(&mut self, key: &[u8], value: &[u8]) -> Result<Put, StoreError> {
        Direct::put(self, key, value)
    }

    fn put_new(&mut self, key: &[u8], value: &[u8]) -> Result<PutNew, StoreError> {
        Direct::put_new(self, key, value)
    }

    fn replace(&mut self, key: &[u8], value: &[u8]) -> Result<Option<Value>, StoreError> {
        Direct::replace(self, key, value)
    }

    fn remove(&mut self, key: &[u8]) -> Result<Option<Value>, StoreError> {
        Direct::remove(self, key)
    }

    fn swap(&mut self, key: &[u8], old: &[u8], new: &[u8]) -> Result<Swap, StoreError> {
        Direct::swap(self, key, old, new)
    }
}

// The answer is that of the one map that the store has.
impl ChangedFile for Store<'_> {
    ghost use Rattle.exh_everyday.specs.Changes.{IsAnswerOf};

    ghost gives = { λ old change answer new. IsAnswerOf old.map change answer new.map };

    fn put(&mut self, key: &[u8], value: &[u8]) -> Result<Put, StoreError> {
        Store::put(self, key, value)
    }

    fn put_new(&mut self, key: &[u8], value: &[u8]) -> Result<PutNew, StoreError> {
        Store::put_new(self, key, value)
    }

    fn replace(&mut self, key: &[u8], value: &[u8]) -> Result<Option<Value>, StoreError> {
        Store::replace(self, key, value)
    }

    fn remove(&mut self, key: &[u8]) -> Result<Option<Value>, StoreError> {
        Store::remove(self, key)
    }

    fn swap(&mut self, key: &[u8], old: &[u8], new: &[u8]) -> Result<Swap, StoreError> {
        Store::swap(self, key, old, new)
    }
}

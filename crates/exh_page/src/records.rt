ghost use Rattle.std.specs.Prelude.{◌≡◌, ◌<◌, ◌≤◌, [], ◌∷◌, ◌++◌, ◌↔◌, length, remove, slice_get, IsTrue, IsOk, IfSome, IfOk, OnOk, OnErr};
ghost use Rattle.std.specs.Iterator.{YieldsFirst, item_count};
ghost use Rattle.exh_page.specs.Place.{place_of};
ghost use Rattle.exh_page.specs.Records.{IsRising, value_at, with_record, without_place};
ghost use Rattle.exh_page.specs.Page.{begun_by};
ghost use Rattle.exh_page.specs.Search.{IsSought, IsSpot};

use crate::packed_records::PackedRecords;
use crate::{Key, LentValue, Record, Spot, Value};
use exh_prefix::Prefix;
use std::alloc::{AllocError, Global};
use std::marker::Model;

/// Records in strictly rising order of (pseudokey, key), so no key stands twice under one pseudokey.
#[derive(Drop)]
pub struct Records {
    packed: PackedRecords,
}

impl Model for Records {
    ghost use Rattle.std.specs.Prelude.{List};
    ghost use Rattle.exh_page.specs.declared.record.Record.{Record};
    ghost use Rattle.exh_page.specs.Records.{IsRising};

    ghost Value = { List Record };

    ghost view = { λ a. a.packed };

    ghost invariant = { λ a. IsRising a.packed };
}

impl Records {
    /// No records. It takes no memory.
    pub fn new(alloc: Global) -> Records
        ensures { result ≡ [] }
    {
        Records {
            packed: PackedRecords::new(alloc),
        }
    }

    /// Adds a record that stands after all others. It may need memory: an `AllocError` where that is
    /// refused, and the records are as before.
    pub fn push(&mut self, item: &Record) -> Result<(), AllocError>
        requires { IsRising (self.old ++ item.now ∷ []) }
        ensures ok { OnOk result (self.new ≡ self.old ++ item.now ∷ []) }
        ensures err { OnErr result (self.new ≡ self.old) }
    {
        self.packed
            .insert(self.packed.end(), item.pseudokey, &item.key, &item.value)
    }

    /// How many records there are.
    pub fn len(&self) -> usize
        ensures { result ≡ length self.now }
    {
        self.packed.len()
    }

    /// Whether there is no record.
    pub fn is_empty(&self) -> bool
        ensures { IsTrue result ↔ (self.now ≡ []) }
    {
        self.packed.len() == 0
    }

    /// The record at a place, from 0 on; `None` past the last. It takes no memory.
    pub fn get(&self, at: usize) -> Option<Record>
        ensures { result ≡ slice_get self.now at }
    {
        self.packed.get(at)
    }

    /// The records, in their order. It takes no memory.
    pub fn iter(&self) -> RecordsIter<'_>
        ensures records { result ≡ self.now }
        ensures rising { IsRising self.now }
    {
        RecordsIter {
            packed: &self.packed,
            next: self.packed.first(),
        }
    }

    /// The value of a key with this pseudokey, or `None` where no record has both. It takes no
    /// memory.
    pub fn find(&self, pseudokey: u64, key: &Key) -> Option<Value>
        ensures { result ≡ value_at (pseudokey, key.now) self.now }
    {
        let stood = self.seek(pseudokey, key).1?;
        Some(stood.to_value())
    }

    /// The spot of the record of a key with this pseudokey, and its value. Where no record has both,
    /// `Err` of the spot where it would stand, and `None`. It takes no memory.
    pub fn seek(&self, pseudokey: u64, key: &Key) -> (Result<Spot, Spot>, Option<LentValue<'_>>)
        ensures spot { IsSought (pseudokey, key.now) self.now result.0 }
        ensures value { result.1 ≡ value_at (pseudokey, key.now) self.now }
    {
        match self.packed.search(pseudokey, key) {
            Ok(spot) => (Ok(spot), Some(self.packed.value(spot))),
            Err(spot) => (Err(spot), None),
        }
    }

    /// Puts a record at its place, and answers the value that it replaces, or `None` where it is
    /// new. Only a new record, or a value longer than the one it replaces, may need memory: where
    /// that is refused, an `AllocError`, the records are as before.
    pub fn put(&mut self, item: Record) -> Result<Option<Value>, AllocError>
        ensures old { IfOk result (λ old. old ≡ value_at (place_of item) self.old) }
        ensures ok { IfOk result (λ _. self.new ≡ with_record item self.old) }
        ensures err { OnErr result (self.new ≡ self.old) }
        ensures replaces { IfSome (value_at (place_of item) self.old) (λ old. length item.value ≤ length old → IsOk result) }
    {
        let (spot, stood) = self.seek(item.pseudokey, &item.key);
        let old = match stood {
            Some(stood) => Some(stood.to_value()),
            None => None,
        };
        self.put_at(spot, item.pseudokey, &item.key, &item.value)?;
        Ok(old)
    }

    /// Puts a record at the spot that a search for its key came to, without searching again. Only a
    /// new record, or a value longer than the one it replaces, may need memory: where that is
    /// refused, an `AllocError`, the records are as before.
    pub fn put_at(
        &mut self,
        spot: Result<Spot, Spot>,
        pseudokey: u64,
        key: &Key,
        value: &Value,
    ) -> Result<(), AllocError>
        requires { IsSought (pseudokey, key.now) self.old spot }
        ensures ok { OnOk result (self.new ≡ with_record (record { pseudokey = pseudokey; key = key.now; value = value.now }) self.old) }
        ensures err { OnErr result (self.new ≡ self.old) }
        ensures replaces { IfSome (value_at (pseudokey, key.now) self.old) (λ old. length value.now ≤ length old → IsOk result) }
    {
        match spot {
            Ok(spot) => self.packed.replace(spot, pseudokey, key, value)?,
            Err(spot) => self.packed.insert(spot, pseudokey, key, value)?,
        }
        Ok(())
    }

    /// Takes out the record of a key with this pseudokey, and answers its value, or `None` where no
    /// record has both, and the records are as before. It takes no memory.
    pub fn remove(&mut self, pseudokey: u64, key: &Key) -> Option<Value>
        ensures old { result ≡ value_at (pseudokey, key.now) self.old }
        ensures others { self.new ≡ without_place (pseudokey, key.now) self.old }
    {
        let (spot, stood) = self.seek(pseudokey, key);
        let old = match stood {
            Some(stood) => Some(stood.to_value()),
            None => None,
        };
        if let Ok(spot) = spot {
            self.remove_at(spot);
        }
        old
    }

    /// Takes out the record of a spot. It takes no memory.
    pub fn remove_at(&mut self, spot: Spot)
        requires there { spot.index < length self.old }
        requires spot { IsSpot self.old spot }
        ensures { self.new ≡ remove self.old spot.index }
    {
        self.packed.remove(spot);
    }

    /// The records whose pseudokeys a prefix begins, in their order (Fagin et al. 1979). It takes
    /// memory, room for as many as there are here: an `AllocError` where that is refused.
    pub fn begun_by(&self, prefix: Prefix) -> Result<Records, AllocError>
        ensures { IfOk result (λ records. records ≡ begun_by prefix self.now) }
    {
        Ok(Records {
            packed: self.packed.begun_by(prefix)?,
        })
    }

    /// These records and others, each of which stands after all of these. It takes memory where
    /// there is no room for the others: an `AllocError` where that is refused.
    pub fn followed_by(self, others: &Records) -> Result<Records, AllocError>
        requires { IsRising (self ++ others.now) }
        ensures { IfOk result (λ records. records ≡ self ++ others.now) }
    {
        Ok(Records {
            packed: self.packed.followed_by(&others.packed)?,
        })
    }

    /// Records equal to these, with room for `more` further ones that are as long as these are on
    /// average. It takes memory for all of them: an `AllocError` where that is refused.
    pub fn try_clone_with_room(&self, more: usize) -> Result<Records, AllocError>
        ensures { IfOk result (λ records. records ≡ self.now) }
    {
        Ok(Records {
            packed: self.packed.try_clone_with_room(more)?,
        })
    }
}

/// Records in their order, from one on.
#[derive(Drop)]
pub struct RecordsIter<'a> {
    packed: &'a PackedRecords,
    next: Spot,
}

impl<'a> Model for RecordsIter<'a> {
    ghost use Rattle.std.specs.Prelude.{List, drop};
    ghost use Rattle.exh_page.specs.declared.record.Record.{Record};
    ghost use Rattle.exh_page.specs.Search.{IsSpot};

    ghost Value = { List Record };

    ghost view = { λ a. drop a.next.index a.packed.now };

    ghost invariant = { λ a. IsSpot a.packed.now a.next };
}

impl<'a> Iterator for RecordsIter<'a> {
    type Item = Record;

    ghost next_gives = { YieldsFirst (λ records. records) };

    ghost remaining = { item_count (λ records. records) };

    fn next(&mut self) -> Option<Record> {
        if self.next.index >= self.packed.len() {
            return None;
        }
        let item = self.packed.record(self.next);
        self.next = self.packed.after(self.next);
        Some(item)
    }
}

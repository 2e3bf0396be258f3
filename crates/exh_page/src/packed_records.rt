ghost use Rattle.std.specs.Prelude.{◌≡◌, ℕ, ◌+◌, ◌-◌, ◌<◌, ◌≤◌, [], ◌++◌, length, take, drop, insert, remove, set, slice_get, vec_len, ◌↔◌, IsTrue, IsOk, IfOk, IfErr, IfSome, OnOk, OnErr};
ghost use Rattle.std.specs.List.{copy_within, flat_map};
ghost use Rattle.exh_prefix.specs.declared.prefix.TheConstants.{LIMIT};
ghost use Rattle.exh_page.specs.declared.key.TheConstants.{KEY_LIMIT};
ghost use Rattle.exh_page.specs.declared.value.TheConstants.{VALUE_LIMIT};
ghost use Rattle.exh_page.specs.PackedRecords.{record_text};
ghost use Rattle.exh_page.specs.Page.{begun_by};
ghost use Rattle.exh_page.specs.Records.{IsRising};
ghost use Rattle.exh_page.specs.Search.{IsCutAt, IsSought, IsSpot, bound_of};
ghost use Rattle.exh_page.specs.ShareLemmas.{AreWords};

use crate::stored_record::StoredRecord;
use crate::{Key, LentValue, Record, Spot, Value};
use exh_prefix::{LIMIT, Prefix};
use std::alloc::{AllocError, Global};
use std::cmp::Ordering;
use std::marker::Model;

/// A list of records, in any order. A record takes 16 bytes and those of its key and value, so that
/// many pages are near at hand.
#[derive(Drop)]
pub(crate) struct PackedRecords {
    stored: Vec<StoredRecord>,
    texts: Vec<u8>,
}

impl Model for PackedRecords {
    ghost use Rattle.std.specs.Prelude.{List};
    ghost use Rattle.exh_page.specs.declared.record.Record.{Record};
    ghost use Rattle.exh_page.specs.PackedRecords.{ArePacked, records_in};

    ghost Value = { List Record };

    ghost view = { λ a. records_in a.stored.items a.texts.items };

    ghost invariant = { λ a. ArePacked (records_in a.stored.items a.texts.items) a.stored.items a.texts.items };
}

impl PackedRecords {
    /// No records. It takes no memory.
    pub(crate) fn new(alloc: Global) -> PackedRecords
        ensures { result ≡ [] }
    {
        PackedRecords {
            stored: Vec::new(alloc),
            texts: Vec::new(alloc),
        }
    }

    /// How many records there are.
    pub(crate) fn len(&self) -> usize
        ensures { result ≡ length self.now }
    {
        self.stored.len()
    }

    /// The record at a place, from 0 on; `None` past the last. It takes no memory.
    pub(crate) fn get(&self, at: usize) -> Option<Record>
        ensures { result ≡ slice_get self.now at }
    {
        if at >= self.stored.len() {
            return None;
        }
        Some(self.record(Spot {
            index: at,
            start: self.start_of(at),
        }))
    }

    /// The spot of the first record, or where it would stand.
    pub(crate) fn first(&self) -> Spot
        ensures spot { IsSpot self.now result }
        ensures index { result.index ≡ 0 }
    {
        Spot { index: 0, start: 0 }
    }

    /// The spot after all records.
    pub(crate) fn end(&self) -> Spot
        ensures spot { IsSpot self.now result }
        ensures index { result.index ≡ length self.now }
    {
        Spot {
            index: self.stored.len(),
            start: self.texts.len(),
        }
    }

    /// The spot after that of a record.
    pub(crate) fn after(&self, spot: Spot) -> Spot
        requires there { spot.index < length self.now }
        requires spot { IsSpot self.now spot }
        ensures spot { IsSpot self.now result }
        ensures index { result.index ≡ spot.index + 1 }
    {
        let len = self.stored[spot.index].text_len();
        Spot {
            index: spot.index + 1,
            start: spot.start + len,
        }
    }

    /// The record of a spot. It takes no memory.
    pub(crate) fn record(&self, spot: Spot) -> Record
        requires there { spot.index < length self.now }
        requires spot { IsSpot self.now spot }
        ensures { slice_get self.now spot.index ≡ Some result }
    {
        let stored = self.stored[spot.index];
        let text = self.text_from(spot);
        let value = &text[usize::from(stored.key_len)..stored.text_len()];
        Record {
            pseudokey: stored.pseudokey,
            key: Key::of(&text[..usize::from(stored.key_len)]),
            value: Value::of(value),
        }
    }

    /// The value of the record of a spot. It takes no memory.
    pub(crate) fn value(&self, spot: Spot) -> LentValue<'_>
        requires there { spot.index < length self.now }
        requires spot { IsSpot self.now spot }
        ensures { IfSome (slice_get self.now spot.index) (λ r. result ≡ r.value) }
    {
        let stored = self.stored[spot.index];
        let text = self.text_from(spot);
        LentValue::of(&text[usize::from(stored.key_len)..stored.text_len()])
    }

    /// Where the record of a key stands among rising records, or where it would.
    pub(crate) fn search(&self, pseudokey: u64, key: &Key) -> Result<Spot, Spot>
        requires { IsRising self.now }
        ensures { IsSought (pseudokey, key.now) self.now result }
    {
        let mut start = 0;
        for (i, stored) in self.stored.iter().enumerate() {
            match stored.cmp_place(&self.texts[start..], pseudokey, key) {
                Ordering::Less => {}
                Ordering::Equal => return Ok(Spot { index: i, start }),
                Ordering::Greater => return Err(Spot { index: i, start }),
            }
            start += stored.text_len();
        }
        Err(self.end())
    }

    /// Puts a record at a spot, before those from there on. It takes memory: where that is refused,
    /// an `AllocError`, the records are as before.
    pub(crate) fn insert(
        &mut self,
        spot: Spot,
        pseudokey: u64,
        key: &Key,
        value: &Value,
    ) -> Result<(), AllocError>
        requires within { spot.index ≤ length self.old }
        requires spot { IsSpot self.old spot }
        ensures ok { OnOk result (self.new ≡ insert self.old spot.index (record { pseudokey = pseudokey; key = key.now; value = value.now })) }
        ensures err { OnErr result (self.new ≡ self.old) }
    {
        self.stored.reserve(1)?;
        let (key, value) = (key.as_bytes(), value.as_bytes());
        put_text(&mut self.texts, spot.start, spot.start, key, value)?;
        // There is room for it.
        self.stored
            .insert(spot.index, StoredRecord::of(pseudokey, key, value))
            .unwrap();
        Ok(())
    }

    /// Puts a record in place of the one of a spot. Only one of more bytes may need memory: where
    /// that is refused, an `AllocError`, the records are as before.
    pub(crate) fn replace(
        &mut self,
        spot: Spot,
        pseudokey: u64,
        key: &Key,
        value: &Value,
    ) -> Result<(), AllocError>
        requires there { spot.index < length self.old }
        requires spot { IsSpot self.old spot }
        ensures ok { OnOk result (self.new ≡ set self.old spot.index (record { pseudokey = pseudokey; key = key.now; value = value.now })) }
        ensures err { OnErr result (self.new ≡ self.old) }
        ensures fits { IfSome (slice_get self.old spot.index) (λ r. length (key.now ++ value.now) ≤ length (record_text r) → IsOk result) }
    {
        let end = spot.start + self.stored[spot.index].text_len();
        let (key, value) = (key.as_bytes(), value.as_bytes());
        put_text(&mut self.texts, spot.start, end, key, value)?;
        self.stored[spot.index] = StoredRecord::of(pseudokey, key, value);
        Ok(())
    }

    /// Takes out the record of a spot. It takes no memory.
    pub(crate) fn remove(&mut self, spot: Spot)
        requires there { spot.index < length self.old }
        requires spot { IsSpot self.old spot }
        ensures { self.new ≡ remove self.old spot.index }
    {
        let end = spot.start + self.stored.remove(spot.index).text_len();
        cut_text(&mut self.texts, spot.start, end);
    }

    /// The records whose pseudokeys a prefix begins, in their order, of rising records, where they
    /// stand one after the other. It takes memory, room for as many as there are here: an `AllocError`
    /// where that is refused.
    pub(crate) fn begun_by(&self, prefix: Prefix) -> Result<PackedRecords, AllocError>
        requires { IsRising self.now }
        ensures { IfOk result (λ records. records ≡ begun_by prefix self.now) }
    {
        prove!(prefix.len() <= LIMIT);
        let from = self.first_from(prefix, false);
        let to = self.first_from(prefix, true);
        self.run(from, to)
    }

    /// These records and then others. Where these need memory and it is refused, an `AllocError`.
    pub(crate) fn followed_by(self, others: &PackedRecords) -> Result<PackedRecords, AllocError>
        ensures { IfOk result (λ records. records ≡ self ++ others.now) }
    {
        let PackedRecords {
            mut stored,
            mut texts,
        } = self;
        stored.extend_from_slice(&others.stored)?;
        texts.extend_from_slice(&others.texts)?;
        Ok(PackedRecords { stored, texts })
    }

    /// Records equal to these, with room for `more` further ones that are as long as these are on
    /// average. It takes memory for all of them: an `AllocError` where that is refused.
    pub(crate) fn try_clone_with_room(&self, more: usize) -> Result<PackedRecords, AllocError>
        ensures { IfOk result (λ records. records ≡ self.now) }
    {
        let alloc = *self.stored.allocator();
        let (count, len) = (self.stored.len(), self.texts.len());
        let more_len = len.saturating_mul(more) / count.max(1);
        let stored = copied(alloc, &self.stored, count.saturating_add(more))?;
        let texts = copied(alloc, &self.texts, len.saturating_add(more_len))?;
        Ok(PackedRecords { stored, texts })
    }

    // The records from one spot up to another. It takes memory, room for as many as there are here, so
    // that a page's half fills up again without more.
    fn run(&self, from: Spot, to: Spot) -> Result<PackedRecords, AllocError>
        requires order { from.index ≤ to.index }
        requires within { to.index ≤ length self.now }
        requires from { IsSpot self.now from }
        requires to { IsSpot self.now to }
        ensures { IfOk result (λ records. records ≡ take (to.index - from.index) (drop from.index self.now)) }
    {
        let alloc = *self.stored.allocator();
        let stored = copied(alloc, &self.stored[from.index..to.index], self.stored.len())?;
        let texts = copied(alloc, &self.texts[from.start..to.start], self.texts.len())?;
        Ok(PackedRecords { stored, texts })
    }

    // The spot of the first of rising records that no lesser pseudokey than those that a prefix begins
    // has; where `past`, of the first after those that it begins.
    fn first_from(&self, prefix: Prefix, past: bool) -> Spot
        requires short { length prefix ≤ LIMIT }
        requires rising { IsRising self.now }
        ensures cut { IsCutAt (bound_of prefix past) self.now result }
        ensures words { AreWords self.now }
    {
        let mut start = 0;
        for (i, stored) in self.stored.iter().enumerate() {
            if !is_below(prefix, past, stored.pseudokey) {
                return Spot { index: i, start };
            }
            prove!(start <= self.texts.as_slice().len());
            start += stored.text_len();
        }
        self.end()
    }

    // The bytes of the records from a spot on.
    fn text_from(&self, spot: Spot) -> &[u8]
        requires { IsSpot self.now spot }
        ensures { result.now ≡ flat_map record_text (drop spot.index self.now) }
    {
        &self.texts[spot.start..]
    }

    // How many bytes the records before a place have.
    fn start_of(&self, at: usize) -> usize
        requires { at ≤ length self.now }
        ensures { result ≡ length (flat_map record_text (take at self.now)) }
    {
        let mut start = 0;
        for stored in &self.stored[..at] {
            prove!(start <= self.texts.as_slice().len());
            start += stored.text_len();
        }
        start
    }
}

// Whether a pseudokey is less than all that a prefix begins, or, where `past`, than all after these.
fn is_below(prefix: Prefix, past: bool, pseudokey: u64) -> bool
    requires { length prefix ≤ LIMIT }
    ensures { IsTrue result ↔ (pseudokey < bound_of prefix past) }
{
    pseudokey < prefix.low() || (past && prefix.begins(pseudokey))
}

// The elements of a slice, in a list that has room for `room` of them, or for all if these are more. An
// `AllocError` where that is refused.
fn copied<T: Copy>(alloc: Global, items: &[T], room: usize) -> Result<Vec<T>, AllocError>
    ensures { IfOk result (λ list. list.items ≡ items.now) }
{
    let mut list = Vec::with_capacity(alloc, room)?;
    list.extend_from_slice(items)?;
    Ok(list)
}

// Puts a key and a value in place of the bytes from `start` to `end`. Only more bytes than these may
// need memory: where that is refused, the bytes are as before.
fn put_text(
    texts: &mut Vec<u8>,
    start: usize,
    end: usize,
    key: &[u8],
    value: &[u8],
) -> Result<(), AllocError>
    requires order { start ≤ end }
    requires within { end ≤ length texts.old.items }
    requires key { length key.now ≤ KEY_LIMIT }
    requires value { length value.now ≤ VALUE_LIMIT }
    ensures ok { OnOk result (texts.new.items ≡ take start texts.old.items ++ ((key.now ++ value.now) ++ drop end texts.old.items)) }
    ensures err { OnErr result (texts.new.items ≡ texts.old.items) }
    ensures fits { start + length key.now + length value.now ≤ end → IsOk result }
{
    let old_len = texts.len();
    let middle = start + key.len();
    let new_end = middle + value.len();
    if new_end > end {
        texts.resize(old_len + (new_end - end), 0)?;
    }
    move_tail(texts, end, old_len, new_end);
    texts[start..middle].copy_from_slice(key);
    texts[middle..new_end].copy_from_slice(value);
    texts.truncate(new_end + (old_len - end));
    Ok(())
}

// Moves the bytes from `start` to `end` to another place. Most texts are as long as those that they stand in place of,
// and then nothing is to be moved: std's loop would move each byte to where it is.
fn move_tail(texts: &mut Vec<u8>, start: usize, end: usize, to: usize)
    requires order { start ≤ end }
    requires within { end ≤ length texts.old.items }
    requires room { to + (end - start) ≤ length texts.old.items }
    ensures items { texts.new.items ≡ copy_within texts.old.items start end to }
    ensures len { vec_len texts.new ≡ vec_len texts.old }
{
    if to == start {
        return;
    }
    texts.copy_within(start..end, to);
}

// Takes out the bytes from `start` to `end`.
fn cut_text(texts: &mut Vec<u8>, start: usize, end: usize)
    requires order { start ≤ end }
    requires within { end ≤ length texts.old.items }
    ensures { texts.new.items ≡ take start texts.old.items ++ drop end texts.old.items }
{
    let old_len = texts.len();
    texts.copy_within(end..old_len, start);
    texts.truncate(old_len - (end - start));
}

ghost use Rattle.std.specs.Prelude.{◌≡◌, ℕ, ◌≤◌, ◌↔◌, length, IsTrue, IsOk, IfSome, IfOk, OnErr};

use crate::{Key, Lookup, PageHead, Record, Records, Spot, Value};
use exh_prefix::{PageNo, Prefix};
use std::alloc::AllocError;

/// The most records that a page of any file holds.
pub const CAP_LIMIT: usize = 16;

/// A page: a bucket (Fagin et al. 1979), or what is left of one that was merged away (exhash's
/// own).
#[derive(Drop)]
pub enum Page {
    /// Holds the records whose pseudokeys the prefix begins, the prefix's length being the local
    /// depth. The right link is the live page with the next greater low bound, if there is one.
    Live {
        prefix: Prefix,
        right: Option<PageNo>,
        records: Records,
    },
    /// Sends callers on to the page whose low bound is this page's with its lowest set bit cleared.
    Forward {
        low: u64,
        target: PageNo,
    },
}

impl Page {
    ghost use Rattle.std.specs.Prelude.{◌≡◌, ◌<◌, ◌≤◌, ◌++◌, ◌↔◌, length, remove, IsTrue, IsOk, IfSome, IfOk, OnOk, OnErr};
    ghost use Rattle.exh_page.specs.Place.{place_of};
    ghost use Rattle.exh_page.specs.Records.{IsRising, value_at, with_record, without_place};
    ghost use Rattle.exh_page.specs.Search.{IsSpot, IsStood};
    ghost use Rattle.exh_page.specs.Lookup.{IsLookup};
    ghost use Rattle.exh_page.specs.Page.{low_bound, records_of, with_records, IsLive};
    ghost use Rattle.exh_page.specs.PageHead.{head_of};

    /// The low bound: the least pseudokey that the page is for.
    pub fn low(&self) -> u64
        ensures { result ≡ low_bound self.now }
    {
        match self {
            Page::Live { prefix, .. } => prefix.low(),
            Page::Forward { low, .. } => *low,
        }
    }

    /// All of the page but its records, which are counted. It takes no memory.
    pub fn head(&self) -> PageHead
        ensures { result ≡ head_of self.now }
    {
        match self {
            Page::Live {
                prefix,
                right,
                records,
            } => PageHead::Live {
                prefix: *prefix,
                right: *right,
                count: records.len(),
            },
            Page::Forward { low, target } => PageHead::Forward {
                low: *low,
                target: *target,
            },
        }
    }

    /// What the page has for a key with this pseudokey: its head, and where the record of both stands,
    /// if it has one. It takes no memory.
    pub fn look_up(&self, pseudokey: u64, key: &Key) -> Lookup<'_>
        ensures { IsLookup (pseudokey, key.now) self.now result }
    {
        let (spot, value) = match self {
            Page::Live { records, .. } => {
                let (spot, value) = records.seek(pseudokey, key);
                (spot.ok(), value)
            }
            Page::Forward { .. } => (None, None),
        };
        Lookup {
            head: self.head(),
            spot,
            value,
        }
    }

    /// The value of a key with this pseudokey, or `None` where no record of the page has both. It
    /// takes no memory.
    pub fn find(&self, pseudokey: u64, key: &Key) -> Option<Value>
        ensures { result ≡ value_at (pseudokey, key.now) (records_of self.now) }
    {
        match self {
            Page::Live { records, .. } => records.find(pseudokey, key),
            Page::Forward { .. } => None,
        }
    }

    /// Puts a record into a live page, and answers the value that it replaces, or `None` where it is
    /// new. Neither the number of records nor the prefix is tested. Only a new record, or a value longer
    /// than the one it replaces, may need memory: where that is refused, an `AllocError`, the page is
    /// as before.
    pub fn put(&mut self, item: Record) -> Result<Option<Value>, AllocError>
        requires { IsLive self.old }
        ensures old { IfOk result (λ old. old ≡ value_at (place_of item) (records_of self.old)) }
        ensures ok { OnOk result (self.new ≡ with_records (with_record item (records_of self.old)) self.old) }
        ensures err { OnErr result (self.new ≡ self.old) }
        ensures replaces { IfSome (value_at (place_of item) (records_of self.old)) (λ old. length item.value ≤ length old → IsOk result) }
    {
        match self {
            Page::Live { records, .. } => records.put(item),
            Page::Forward { .. } => unreachable!(),
        }
    }

    /// Puts a record of a key into a live page: over the record that stands at a spot, where the page has
    /// one, else where it belongs. Neither the number of records nor the prefix is tested. Only a new
    /// record, or a value longer than the one it replaces, may need memory: where that is refused, an
    /// `AllocError`, the page is as before.
    pub fn put_at(
        &mut self,
        stood: Option<Spot>,
        pseudokey: u64,
        key: &Key,
        value: &Value,
    ) -> Result<(), AllocError>
        requires live { IsLive self.old }
        requires stood { IsStood (pseudokey, key.now) (records_of self.old) stood }
        ensures ok { OnOk result (self.new ≡ with_records (with_record (record { pseudokey = pseudokey; key = key.now; value = value.now }) (records_of self.old)) self.old) }
        ensures err { OnErr result (self.new ≡ self.old) }
        ensures replaces { IfSome (value_at (pseudokey, key.now) (records_of self.old)) (λ old. length value.now ≤ length old → IsOk result) }
    {
        match self {
            Page::Live { records, .. } => {
                let spot = match stood {
                    Some(spot) => Ok(spot),
                    None => records.seek(pseudokey, key).0,
                };
                records.put_at(spot, pseudokey, key, value)
            }
            Page::Forward { .. } => unreachable!(),
        }
    }

    /// Takes the record of a key with this pseudokey out of a live page, and answers its value, or
    /// `None` where no record has both, and the page is as before. It takes no memory.
    pub fn remove(&mut self, pseudokey: u64, key: &Key) -> Option<Value>
        requires { IsLive self.old }
        ensures old { result ≡ value_at (pseudokey, key.now) (records_of self.old) }
        ensures others { self.new ≡ with_records (without_place (pseudokey, key.now) (records_of self.old)) self.old }
    {
        match self {
            Page::Live { records, .. } => records.remove(pseudokey, key),
            Page::Forward { .. } => unreachable!(),
        }
    }

    /// Takes the record of a spot out of a live page. It takes no memory.
    pub fn remove_at(&mut self, spot: Spot)
        requires live { IsLive self.old }
        requires there { spot.index < length (records_of self.old) }
        requires spot { IsSpot (records_of self.old) spot }
        ensures { self.new ≡ with_records (remove (records_of self.old) spot.index) self.old }
    {
        match self {
            Page::Live { records, .. } => records.remove_at(spot),
            Page::Forward { .. } => unreachable!(),
        }
    }

    /// A page equal to this one. It takes memory for the records: an `AllocError` where that is
    /// refused.
    pub fn try_clone(&self) -> Result<Page, AllocError>
        ensures { IfOk result (λ page. page ≡ self.now) }
    {
        self.try_clone_with_room(0)
    }

    /// A page equal to this one, with room for `more` further records that are as long as its own are
    /// on average. It takes memory for all of them: an `AllocError` where that is refused.
    pub fn try_clone_with_room(&self, more: usize) -> Result<Page, AllocError>
        ensures { IfOk result (λ page. page ≡ self.now) }
    {
        match self {
            Page::Live {
                prefix,
                right,
                records,
            } => Ok(Page::Live {
                prefix: *prefix,
                right: *right,
                records: records.try_clone_with_room(more)?,
            }),
            Page::Forward { low, target } => Ok(Page::Forward {
                low: *low,
                target: *target,
            }),
        }
    }
}

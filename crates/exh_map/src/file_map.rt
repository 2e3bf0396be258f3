//! The map of a page file, whose wards are in memory.
ghost use Rattle.std.specs.Prelude.{◌≡◌, IfErr, IfOk, OnErr, OnOk};
ghost use Rattle.exh_in_place.specs.FileChange.{ChangesOneMap, HasMap};
ghost use Rattle.exh_page.specs.KeyMap.{KeyMap};
ghost use Rattle.std.specs.FinMap.{from_entries};
ghost use Rattle.exh_in_place.specs.Opened.{AreWardsOf, settings_in};
ghost use Rattle.exh_in_place.specs.Reopened.{IsReopened};
ghost use Rattle.exh_map.specs.Answers.{value_said};
ghost use Rattle.exh_map.specs.FileMap.{IsGot, IsPut, IsPutAbsent, IsPutNew, IsPutOver, IsRemoved, IsReplaced, IsSwap, KeepsMap};
ghost use Rattle.exh_map.specs.Pairs.{AreOnce, pairs_in};
ghost use Rattle.exh_map.specs.Places.{lows_in_places};
ghost use Rattle.exh_map.specs.Sizes.{IsOfCause};

use crate::answering::answer_in;
use crate::copying::copied;
use crate::pairs::pairs_of;
use crate::places::lows_grown;
use crate::{Pairs, Put, PutNew, StoreError, Swap};
use exh_calls::{Call, Reply};
use exh_in_place::{FileStore, Opened};
use exh_keyer::AnyKeyer;
use exh_page::{FileSettings, Key, Value};
use exh_stores::Pages;
use exh_ward::{Ward, WardFault};
use std::alloc::Global;
use std::marker::Model;

/// The pairs of a page file, in memory. Each call that is refused leaves the pairs as before.
#[derive(Drop)]
pub struct FileMap<P: Pages + Drop> {
    pub(crate) settings: FileSettings<AnyKeyer>,
    pub(crate) wards: Vec<Ward<P, AnyKeyer>>,
}

impl<P: Pages + Drop> Model for FileMap<P> {
    ghost use Rattle.std.specs.Coded.{codes};
    ghost use Rattle.exh_page.specs.KeyMap.{coded_key_map};
    ghost use Rattle.exh_table.specs.Table.{coded_table};
    ghost use Rattle.exh_in_place.specs.Opened.{AreWardsOf, OpenedState, in_file};

    ghost Value = { OpenedState };

    ghost coded = { Prim.hlevel (codes, coded_key_map, coded_table) };

    ghost view = { λ a. in_file a.settings a.wards.items };

    ghost invariant = { λ a. AreWardsOf (in_file a.settings a.wards.items) };
}

impl<P: Pages + Drop> FileMap<P> {
    /// Of the wards of a page file. It takes no memory.
    pub fn new(opened: Opened<P>) -> FileMap<P>
        ensures { result ≡ opened }
    {
        let settings = opened.settings();
        let wards = opened.into_wards();
        FileMap { settings, wards }
    }

    /// The settings of the file. It takes no memory.
    pub fn settings(&self) -> FileSettings<AnyKeyer>
        ensures { result ≡ settings_in self.now }
    {
        self.settings
    }

    /// The value of a key, or `None` where it has none.
    ///
    /// `Memory`: a growth was refused. `Page`: a page is out of reach.
    pub fn get(&mut self, key: &Key) -> Result<Option<Value>, WardFault>
        ensures got { IfOk result (λ answer. IsGot self.old key.now answer self.new) }
        ensures err { OnErr result (KeepsMap self.old self.new) }
        ensures settings { settings_in self.new ≡ settings_in self.old }
    {
        match self.answer(&Call::Get { key: *key }) {
            Ok(reply) => Ok(value_in(reply)),
            Err(fault) => Err(fault),
        }
    }

    /// Gives a key a value, new or in place of another.
    ///
    /// Errors: as of `get`.
    pub fn put(&mut self, key: &Key, value: &Value) -> Result<Put, WardFault>
        ensures put { IfOk result (λ answer. IsPut self.old key.now value.now answer self.new) }
        ensures err { OnErr result (KeepsMap self.old self.new) }
        ensures settings { settings_in self.new ≡ settings_in self.old }
    {
        let call = Call::Put {
            key: *key,
            value: *value,
        };
        match self.answer(&call) {
            Ok(reply) => Ok(Put::of(reply)),
            Err(fault) => Err(fault),
        }
    }

    /// Gives a key a value, where it has none.
    ///
    /// Errors: as of `get`.
    pub fn put_new(&mut self, key: &Key, value: &Value) -> Result<PutNew, WardFault>
        ensures put { IfOk result (λ answer. IsPutNew self.old key.now value.now answer self.new) }
        ensures err { OnErr result (KeepsMap self.old self.new) }
        ensures settings { settings_in self.new ≡ settings_in self.old }
    {
        match self.get(key) {
            Ok(Some(stood)) => Ok(PutNew::Is(stood)),
            Ok(None) => self.put_absent(key, value),
            Err(fault) => Err(fault),
        }
    }

    // Gives a key that has no value one.
    fn put_absent(&mut self, key: &Key, value: &Value) -> Result<PutNew, WardFault>
        ensures put { IfOk result (λ answer. IsPutAbsent self.old key.now value.now answer self.new) }
        ensures err { OnErr result (KeepsMap self.old self.new) }
        ensures settings { settings_in self.new ≡ settings_in self.old }
    {
        let call = Call::Put {
            key: *key,
            value: *value,
        };
        match self.answer(&call) {
            Ok(reply) => Ok(PutNew::of(reply)),
            Err(fault) => Err(fault),
        }
    }

    /// Gives a key a value in place of the one that it has, which is the answer; `None` where it has none, and gets none.
    ///
    /// Errors: as of `get`.
    pub fn replace(&mut self, key: &Key, value: &Value) -> Result<Option<Value>, WardFault>
        ensures replaced { IfOk result (λ answer. IsReplaced self.old key.now value.now answer self.new) }
        ensures err { OnErr result (KeepsMap self.old self.new) }
        ensures settings { settings_in self.new ≡ settings_in self.old }
    {
        match self.get(key) {
            Ok(Some(_)) => self.put_over(key, value),
            Ok(None) => Ok(None),
            Err(fault) => Err(fault),
        }
    }

    // Gives a key a value, and answers the one that it had.
    fn put_over(&mut self, key: &Key, value: &Value) -> Result<Option<Value>, WardFault>
        ensures put { IfOk result (λ answer. IsPutOver self.old key.now value.now answer self.new) }
        ensures err { OnErr result (KeepsMap self.old self.new) }
        ensures settings { settings_in self.new ≡ settings_in self.old }
    {
        let call = Call::Put {
            key: *key,
            value: *value,
        };
        match self.answer(&call) {
            Ok(reply) => Ok(value_in(reply)),
            Err(fault) => Err(fault),
        }
    }

    /// Takes a key and its value out, which is the answer; `None` where it has none.
    ///
    /// Errors: as of `get`.
    pub fn remove(&mut self, key: &Key) -> Result<Option<Value>, WardFault>
        ensures removed { IfOk result (λ answer. IsRemoved self.old key.now answer self.new) }
        ensures err { OnErr result (KeepsMap self.old self.new) }
        ensures settings { settings_in self.new ≡ settings_in self.old }
    {
        match self.answer(&Call::Del { key: *key }) {
            Ok(reply) => Ok(value_in(reply)),
            Err(fault) => Err(fault),
        }
    }

    /// Gives a key the new value, where it has the old one.
    ///
    /// Errors: as of `get`.
    pub fn swap(&mut self, key: &Key, old: &Value, new: &Value) -> Result<Swap, WardFault>
        ensures swapped { IfOk result (λ answer. IsSwap self.old key.now old.now new.now answer self.new) }
        ensures err { OnErr result (KeepsMap self.old self.new) }
        ensures settings { settings_in self.new ≡ settings_in self.old }
    {
        let call = Call::Swap {
            key: *key,
            old: *old,
            new: *new,
        };
        match self.answer(&call) {
            Ok(reply) => Ok(Swap::of(reply)),
            Err(fault) => Err(fault),
        }
    }

    /// The pairs, each key once, in the order of the pages. It takes memory for them.
    ///
    /// Errors: as of `get`.
    pub fn pairs(&mut self, alloc: Global) -> Result<Pairs, WardFault>
        ensures pairs { IfOk result (λ pairs. pairs ≡ pairs_in self.old.wards) }
        ensures once { IfOk result (λ pairs. AreOnce pairs) }
        ensures has { IfOk result (λ pairs. HasMap self.old (from_entries pairs)) }
        ensures map { IfOk result (λ pairs. (whole : KeyMap) → HasMap self.old whole → from_entries pairs ≡ whole) }
        ensures same { OnOk result (self.new ≡ self.old) }
        ensures err { OnErr result (KeepsMap self.old self.new) }
        ensures settings { settings_in self.new ≡ settings_in self.old }
    {
        pairs_of(alloc, self.settings, &mut self.wards)
    }

    /// The wards of the map, once more. It takes memory for their page file and for them.
    ///
    /// `Memory`: a growth was refused. `OutOfReach`: a page is out of reach.
    pub fn copied(&mut self, alloc: Global) -> Result<Opened<FileStore>, StoreError>
        ensures copy { IfOk result (IsReopened self.old) }
        ensures wards { IfOk result (λ copy. AreWardsOf copy) }
        ensures same { IfOk result (λ copy. KeepsMap self.old copy) }
        ensures refused { IfErr result IsOfCause }
        ensures kept { KeepsMap self.old self.new }
        ensures settings { settings_in self.new ≡ settings_in self.old }
    {
        copied(alloc, self.settings, &mut self.wards)
    }

    /// The low bounds of its pages in their places, of which those have places already that have these low bounds. It takes
    /// memory for them.
    ///
    /// Errors: as of `get`.
    pub fn lows_grown(&mut self, alloc: Global, lows: &[u64]) -> Result<Vec<u64>, WardFault>
        ensures lows { IfOk result (λ grown. grown.items ≡ lows_in_places self.old.ward_bits lows.now self.old.wards) }
        ensures same { OnOk result (self.new ≡ self.old) }
        ensures err { OnErr result (KeepsMap self.old self.new) }
        ensures settings { settings_in self.new ≡ settings_in self.old }
    {
        lows_grown(alloc, self.settings, &mut self.wards, lows)
    }

    // Answers a call.
    fn answer(&mut self, call: &Call) -> Result<Reply, WardFault>
        ensures one { IfOk result (λ reply. ChangesOneMap self.old call.now reply self.new) }
        ensures err { OnErr result (KeepsMap self.old self.new) }
        ensures settings { settings_in self.new ≡ settings_in self.old }
    {
        let settings = self.settings;
        answer_in(&settings, &mut self.wards, call)
    }
}

// The value that a reply names, if it names one.
fn value_in(reply: Reply) -> Option<Value>
    ensures { result ≡ value_said reply }
{
    match reply {
        Reply::Is(value) | Reply::Was(value) | Reply::Differs(value) => Some(value),
        Reply::None | Reply::New | Reply::Full | Reply::Swapped => None,
    }
}

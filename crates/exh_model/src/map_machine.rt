ghost use Rattle.std.specs.Prelude.{◌≡◌, IfOk, OnOk, OnErr};
ghost use Rattle.std.specs.FinMap as map;
ghost use Rattle.exh_calls.specs.MapMachine.{sharing, is_full};
ghost use Rattle.exh_prefix.specs.declared.prefix.TheConstants.{LIMIT};
ghost use Rattle.exh_prefix.specs.Leading.{leading};
ghost use Rattle.exh_model.specs.MachineState.{reply_from, state_after};

use crate::PairMap;
use exh_calls::{Call, Reply};
use exh_keyer::Keyer;
use exh_page::{Key, Value};
use exh_prefix::LIMIT;
use std::alloc::{AllocError, Global};
use std::marker::Model;

/// A map that answers calls as the whole file answers them, one after another.
#[derive(Drop)]
pub struct MapMachine<K: Keyer> {
    cap: usize,
    keyer: K,
    map: PairMap,
}

impl<K: Keyer> Model for MapMachine<K> {
    ghost use Rattle.std.specs.Coded.{codes};
    ghost use Rattle.exh_page.specs.KeyMap.{coded_key_map};
    ghost use Rattle.exh_model.specs.MachineState.{MachineState};

    ghost Value = { MachineState K };

    ghost coded = { Prim.hlevel (codes, coded_key_map) };

    ghost view = { λ a. record { cap = a.cap; keyer = a.keyer; map = a.map } };
}

impl<K: Keyer> MapMachine<K> {
    /// The machine at the map of no keys. A page of the file holds at most `cap` records, and the
    /// keyer gives keys their pseudokeys. It takes no memory.
    pub fn new(alloc: Global, cap: usize, keyer: K) -> MapMachine<K>
        ensures { result ≡ record { cap = cap; keyer = keyer; map = map.empty } }
    {
        MapMachine::from_map(cap, keyer, PairMap::new(alloc))
    }

    /// The machine at a map, as `new` at the map of no keys. It takes no memory.
    pub fn from_map(cap: usize, keyer: K, map: PairMap) -> MapMachine<K>
        ensures { result ≡ record { cap = cap; keyer = keyer; map = map } }
    {
        MapMachine { cap, keyer, map }
    }

    /// The map that the calls so far leave. It takes no memory.
    pub fn map(&self) -> &PairMap
        ensures { result.now ≡ self.now.map }
    {
        &self.map
    }

    /// Answers a call, by the map machine's table. Where a growth is refused, an
    /// `AllocError`, the machine is as before.
    pub fn answer(&mut self, call: &Call) -> Result<Reply, AllocError>
        ensures reply { IfOk result (λ reply. reply ≡ reply_from K.pseudokey_of self.old call.now) }
        ensures ok { OnOk result (self.new ≡ state_after K.pseudokey_of self.old call.now) }
        ensures err { OnErr result (self.new ≡ self.old) }
    {
        match call {
            Call::Get { key } => Ok(self.get(key)),
            Call::Put { key, value } => self.put(key, value),
            Call::Del { key } => Ok(self.del(key)),
            Call::Swap { key, old, new } => self.swap(key, old, new),
        }
    }

    fn get(&self, key: &Key) -> Reply
        ensures reply { result ≡ reply_from K.pseudokey_of self.now (Call.Get key.now) }
        ensures same { state_after K.pseudokey_of self.now (Call.Get key.now) ≡ self.now }
    {
        match self.map.get(key) {
            Some(value) => Reply::Is(value),
            None => Reply::None,
        }
    }

    fn put(&mut self, key: &Key, value: &Value) -> Result<Reply, AllocError>
        ensures reply { IfOk result (λ reply. reply ≡ reply_from K.pseudokey_of self.old (Call.Put key.now value.now)) }
        ensures ok { OnOk result (self.new ≡ state_after K.pseudokey_of self.old (Call.Put key.now value.now)) }
        ensures err { OnErr result (self.new ≡ self.old) }
    {
        if let Some(old) = self.map.get(key) {
            self.map.insert(*key, *value)?;
            return Ok(Reply::Was(old));
        }
        if self.is_full(key) {
            return Ok(Reply::Full);
        }
        self.map.insert(*key, *value)?;
        Ok(Reply::New)
    }

    fn del(&mut self, key: &Key) -> Reply
        ensures reply { result ≡ reply_from K.pseudokey_of self.old (Call.Del key.now) }
        ensures ok { self.new ≡ state_after K.pseudokey_of self.old (Call.Del key.now) }
    {
        let Some(old) = self.map.get(key) else {
            return Reply::None;
        };
        self.map.remove(key);
        Reply::Was(old)
    }

    fn swap(&mut self, key: &Key, old: &Value, new: &Value) -> Result<Reply, AllocError>
        ensures reply { IfOk result (λ reply. reply ≡ reply_from K.pseudokey_of self.old (Call.Swap key.now old.now new.now)) }
        ensures ok { OnOk result (self.new ≡ state_after K.pseudokey_of self.old (Call.Swap key.now old.now new.now)) }
        ensures err { OnErr result (self.new ≡ self.old) }
    {
        let Some(value) = self.map.get(key) else {
            return Ok(Reply::None);
        };
        if value != *old {
            return Ok(Reply::Differs(value));
        }
        self.map.insert(*key, *new)?;
        Ok(Reply::Swapped)
    }

    // Whether at least `cap` keys share the `LIMIT` leading bits of this key's pseudokey.
    fn is_full(&self, key: &Key) -> bool
        ensures { result ≡ is_full self.now.cap (K.pseudokey_of self.now.keyer) self.now.map key.now }
    {
        self.sharing(key) >= self.cap
    }

    // How many keys share the leading bits of this key's pseudokey.
    fn sharing(&self, key: &Key) -> usize
        ensures { result ≡ sharing (K.pseudokey_of self.now.keyer) self.now.map key.now }
    {
        let leading = self.leading(key);
        self.map
            .pairs()
            .iter()
            .filter(|pair| self.leading(&pair.0) == leading)
            .count()
    }

    // The leading bits of a key's pseudokey, as a number.
    fn leading(&self, key: &Key) -> u64
        ensures { result ≡ leading LIMIT (K.pseudokey_of self.now.keyer key.now) }
    {
        exh_prefix::leading(LIMIT, self.keyer.pseudo(key.as_bytes()))
    }
}

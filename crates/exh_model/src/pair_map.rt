ghost use Rattle.std.specs.Prelude.{◌≡◌, IfOk, OnErr};
ghost use Rattle.std.specs.FinMap as map;
ghost use Rattle.std.specs.List.Sorted.{IsPermutation};

use exh_calls::Pairs;
use exh_page::{Key, Value};
use std::alloc::{AllocError, Global};
use std::marker::Model;

/// A map from keys to values, as a list of pairs in which no key stands twice.
#[derive(Drop)]
pub struct PairMap {
    pairs: Vec<(Key, Value)>,
}

impl Model for PairMap {
    ghost use Rattle.std.specs.FinMap as map;
    ghost use Rattle.exh_page.specs.KeyMap.{KeyMap, coded_key_map};
    ghost use Rattle.exh_model.specs.MachinePairs.{AreApart};

    ghost Value = { KeyMap };

    ghost coded = { coded_key_map };

    ghost view = { λ a. map.from_entries a.pairs.items };

    ghost invariant = { λ a. AreApart a.pairs.items };
}

impl PairMap {
    /// The map of no keys. It takes no memory.
    pub fn new(alloc: Global) -> PairMap
        ensures { result ≡ map.empty }
    {
        PairMap {
            pairs: Vec::new(alloc),
        }
    }

    /// The map of these pairs: of two pairs of one key the first counts. An `AllocError` where memory
    /// for them is refused.
    pub fn from_pairs(alloc: Global, pairs: Pairs<'_>) -> Result<PairMap, AllocError>
        ensures { IfOk result (λ made. made ≡ map.from_entries pairs.entry) }
    {
        let mut map = PairMap::new(alloc);
        for (key, value) in pairs {
            if map.get(&key).is_none() {
                map.insert(key, value)?;
            }
        }
        Ok(map)
    }

    /// The pairs of the map, each once, in some order. It takes no memory.
    pub fn pairs(&self) -> &[(Key, Value)]
        ensures { IsPermutation (map.entries self.now) result.now }
    {
        &self.pairs
    }

    /// The key's value, or `None` where the map lacks the key. It takes no memory.
    pub fn get(&self, key: &Key) -> Option<Value>
        ensures { result ≡ map.get self.now key.now }
    {
        for (other, value) in &self.pairs {
            if other == key {
                return Some(*value);
            }
        }
        None
    }

    /// Gives the key a value, and answers the one that it had, or `None` where it is new. Where a
    /// growth is refused, an `AllocError`, the map is as before.
    pub fn insert(&mut self, key: Key, value: Value) -> Result<Option<Value>, AllocError>
        ensures old { IfOk result (λ old. old ≡ map.get self.old key) }
        ensures ok { IfOk result (λ _. self.new ≡ map.insert self.old key value) }
        ensures err { OnErr result (self.new ≡ self.old) }
    {
        self.pairs.reserve(1)?;
        let old = self.get(&key);
        self.pairs.retain(|pair| pair.0 != key);
        self.pairs.push_reserved((key, value));
        Ok(old)
    }

    /// Takes the key out, and answers its value, or `None` where the map lacks the key. It takes no
    /// memory.
    pub fn remove(&mut self, key: &Key) -> Option<Value>
        ensures old { result ≡ map.get self.old key.now }
        ensures others { self.new ≡ map.remove self.old key.now }
    {
        let old = self.get(key);
        self.pairs.retain(|pair| pair.0 != *key);
        old
    }
}

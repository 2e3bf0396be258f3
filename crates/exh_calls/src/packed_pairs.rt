ghost use Rattle.std.specs.Prelude.{◌≡◌, [], ◌∷◌, ◌++◌, length, slice_get, OnOk, OnErr};
ghost use Rattle.std.specs.Iterator.{YieldsFirst, item_count};

use crate::journal::bytes_at;
use exh_page::{Key, Value};
use std::alloc::{AllocError, Global};
use std::marker::Model;

/// Pairs of keys and values, in order. A pair takes its bytes, and 16 more.
#[derive(Debug, Drop)]
pub struct PackedPairs {
    texts: Vec<u8>,
    stored: Vec<StoredPair>,
}

// What is kept of a pair beside its bytes: where they start among those of all pairs, and the
// lengths of its key and its value, which stand there in this order.
#[derive(Clone, Copy, Debug)]
struct StoredPair {
    start: usize,
    key_len: u8,
    value_len: u8,
}

impl Model for PackedPairs {
    ghost use Rattle.std.specs.Prelude.{ℕ, List};
    ghost use Rattle.exh_calls.specs.PackedPairs.{ArePairsWithin, pairs_in};

    ghost Value = { List (List ℕ × List ℕ) };

    ghost view = { λ a. pairs_in a.texts.items a.stored.items };

    ghost invariant = { λ a. ArePairsWithin a.texts.items a.stored.items };
}

impl PackedPairs {
    /// No pairs. It takes no memory.
    pub fn new(alloc: Global) -> PackedPairs
        ensures { result ≡ [] }
    {
        PackedPairs {
            texts: Vec::new(alloc),
            stored: Vec::new(alloc),
        }
    }

    /// Adds a pair behind all others. Where a growth is refused, an `AllocError`, the pairs are as
    /// before.
    pub fn push(&mut self, key: &Key, value: &Value) -> Result<(), AllocError>
        ensures ok { OnOk result (self.new ≡ self.old ++ (key.now, value.now) ∷ []) }
        ensures err { OnErr result (self.new ≡ self.old) }
    {
        let key = key.as_bytes();
        let value = value.as_bytes();
        self.stored.reserve(1)?;
        self.texts.reserve(key.len() + value.len())?;
        self.stored.push_reserved(StoredPair {
            start: self.texts.len(),
            key_len: key.len() as u8,
            value_len: value.len() as u8,
        });
        // There is room for these bytes.
        self.texts.extend_from_slice(key).unwrap();
        self.texts.extend_from_slice(value).unwrap();
        Ok(())
    }

    /// The pairs, in order. It takes no memory.
    pub fn iter(&self) -> Pairs<'_>
        ensures { result ≡ self.now }
    {
        Pairs {
            pairs: self,
            next: 0,
        }
    }

    // How many pairs there are.
    fn count(&self) -> usize
        ensures { result ≡ length self.now }
    {
        self.stored.len()
    }

    // The pair at a place, from 0 on; `None` past the last.
    fn get(&self, at: usize) -> Option<(Key, Value)>
        ensures { result ≡ slice_get self.now at }
    {
        let stored = self.stored.get(at).copied()?;
        let value_start = stored.start + usize::from(stored.key_len);
        let key = bytes_at(&self.texts, stored.start, stored.key_len);
        let value = bytes_at(&self.texts, value_start, stored.value_len);
        let key = Key::from_bytes(key).unwrap();
        Some((key, Value::from_bytes(value).unwrap()))
    }
}

/// The pairs of a list, from one on.
#[derive(Drop)]
pub struct Pairs<'a> {
    pairs: &'a PackedPairs,
    next: usize,
}

impl<'a> Model for Pairs<'a> {
    ghost use Rattle.std.specs.Prelude.{ℕ, List, drop};

    ghost Value = { List (List ℕ × List ℕ) };

    ghost view = { λ a. drop a.next a.pairs.now };
}

impl Pairs<'_> {
    /// How many pairs are left. It takes no memory, and no time for the pairs.
    pub fn len(&self) -> usize
        ensures { result ≡ length self.now }
    {
        self.pairs.count().saturating_sub(self.next)
    }
}

impl<'a> Iterator for Pairs<'a> {
    type Item = (Key, Value);

    ghost next_gives = { YieldsFirst (λ pairs. pairs) };

    ghost remaining = { item_count (λ pairs. pairs) };

    fn next(&mut self) -> Option<(Key, Value)> {
        if self.next >= self.pairs.count() {
            return None;
        }
        let pair = self.pairs.get(self.next);
        self.next += 1;
        pair
    }
}

ghost use Rattle.std.specs.Prelude.{◌≡◌, ◌≢◌, Some, None, IsSome, IfOk, MatchOption, OnOk, OnErr};
ghost use Rattle.std.specs.FinMap as map;
ghost use Rattle.std.specs.BTreeMap.Entry.{MatchEntry, entry_value};
ghost use Rattle.exh_table.specs.Table.{table_with, table_at, raised, greater_of, entry_number, entry_after};

use exh_notice::{Entry, Kind, Notice};
use exh_prefix::Prefix;
use std::alloc::{AllocError, Global};
use std::collections::BTreeMap;
use std::collections::btree_map::{Entry as Place, Iter};
use std::marker::Model;

/// What a copy of the directory knows: at each prefix the greatest entry that it was told, or none.
#[derive(Drop)]
pub struct Table {
    pub(crate) alloc: Global,
    pub(crate) entries: BTreeMap<Prefix, Entry>,
}

impl Model for Table {
    ghost use Rattle.std.specs.Coded.{codes};
    ghost use Rattle.std.specs.FinMap.{from_entries};
    ghost use Rattle.exh_table.specs.Table.{TableMap, coded_table};

    ghost Value = { TableMap };

    ghost coded = { Prim.hlevel (codes, coded_table) };

    ghost view = { λ a. from_entries a.entries.entries };
}

impl Table {
    /// The table with no entry. It takes no memory.
    pub fn new(alloc: Global) -> Table
        ensures { result ≡ map.empty }
    {
        Table {
            alloc,
            entries: BTreeMap::new(alloc),
        }
    }

    /// The entry at a prefix, if there is one. It takes no memory.
    pub fn get(&self, prefix: Prefix) -> Option<Entry>
        ensures { result ≡ map.get self.now prefix }
    {
        self.entries.get(&prefix).copied()
    }

    /// All entries with their prefixes, in the order of prefixes. It takes no memory.
    pub fn entries(&self) -> Iter<'_, Prefix, Entry>
        ensures { result ≡ map.entries self.now }
    {
        self.entries.iter()
    }

    /// Takes a notice: at its prefix the greater entry stays. It answers what stood there. Where
    /// memory is refused, an `AllocError`, the table is as before; it is asked for only where no
    /// entry stands at the prefix.
    pub fn take(&mut self, notice: &Notice) -> Result<Option<Entry>, AllocError>
        ensures stood { IfOk result (λ stood. stood ≡ map.get self.old notice.now.prefix) }
        ensures ok { OnOk result (self.new ≡ table_with self.old notice.now) }
        ensures err { OnErr result (self.new ≡ self.old) }
        ensures absent { OnErr result (map.get self.old notice.now.prefix ≡ None) }
    {
        self.put_greater(notice.prefix, notice.entry())
    }

    /// Takes an entry at a prefix: there the greater one stays. It answers what stood there. Where
    /// memory is refused, an `AllocError`, the table is as before; it is asked for only where no
    /// entry stands at the prefix.
    pub fn put_greater(&mut self, prefix: Prefix, entry: Entry) -> Result<Option<Entry>, AllocError>
        ensures stood { IfOk result (λ stood. stood ≡ map.get self.old prefix) }
        ensures ok { OnOk result (self.new ≡ raised self.old prefix entry) }
        ensures err { OnErr result (self.new ≡ self.old) }
        ensures absent { OnErr result (map.get self.old prefix ≡ None) }
    {
        let stood = self.entries.insert(prefix, entry)?;
        match kept_from(stood, entry) {
            None => Ok(stood),
            // Told late: what stood there counts on.
            Some(greater) => {
                self.put_back(prefix, Some(greater));
                Ok(stood)
            }
        }
    }

    /// Puts the entry of the next change at a prefix: its number is one more than that of what stands
    /// there, 1 where nothing does. It answers what stood there: where that has the greatest number,
    /// it stays. Where memory is refused, an `AllocError`, the table is as before; it is asked for
    /// only where no entry stands at the prefix.
    pub fn put_next(&mut self, prefix: Prefix, kind: Kind) -> Result<Option<Entry>, AllocError>
        ensures stood { IfOk result (λ stood. stood ≡ map.get self.old prefix) }
        ensures ok { OnOk result (entry_number (map.get self.old prefix) ≢ u32.MAX → self.new ≡ raised self.old prefix (entry_after (map.get self.old prefix) kind)) }
        ensures worn { entry_number (map.get self.old prefix) ≡ u32.MAX → self.new ≡ self.old }
        ensures err { OnErr result (self.new ≡ self.old) }
        ensures absent { OnErr result (map.get self.old prefix ≡ None) }
    {
        let place = self.entries.entry(prefix)?;
        let stood = stood_at(&place);
        let next = next_after(stood, kind);
        *place.or_insert(next) = next;
        Ok(stood)
    }

    /// Puts the given entry, or none, where one stands. It takes no memory.
    pub fn put_back(&mut self, prefix: Prefix, entry: Option<Entry>)
        requires { IsSome (map.get self.old prefix) }
        ensures { self.new ≡ table_at self.old prefix entry }
    {
        match entry {
            None => {
                self.entries.remove(&prefix);
            }
            Some(entry) => {
                if let Some(place) = self.entries.get_mut(&prefix) {
                    *place = entry;
                }
            }
        }
    }
}

// What stood at a prefix, where an entry doesn't replace it.
fn kept_from(stood: Option<Entry>, entry: Entry) -> Option<Entry>
    ensures { MatchOption result (greater_of stood entry ≡ entry) (λ old. greater_of stood entry ≡ old) }
{
    match stood {
        Some(old) if old >= entry => Some(old),
        _ => None,
    }
}

// What stands at a place, if anything does.
fn stood_at(place: &Place<'_, Prefix, Entry, Global>) -> Option<Entry>
    ensures { MatchEntry place.now (entry_value place.now ≡ result) (result ≡ None) }
{
    match place {
        Place::Vacant(_) => None,
        Place::Occupied(place) => Some(*place.get()),
    }
}

// The entry of the next change after what stood at a prefix: where that has the greatest number, that
// itself.
fn next_after(stood: Option<Entry>, kind: Kind) -> Entry
    ensures next { entry_number stood ≢ u32.MAX → result ≡ entry_after stood kind }
    ensures worn { entry_number stood ≡ u32.MAX → stood ≡ Some result }
{
    match stood {
        None => Entry { number: 1, kind },
        Some(stood) => match stood.number.checked_add(1) {
            Some(number) => Entry { number, kind },
            None => stood,
        },
    }
}

ghost use Rattle.std.specs.Prelude.{◌≡◌, None, IfOk, IsSome, OnOk, OnErr};
ghost use Rattle.std.specs.BTreeMap.Entry.{MatchEntry, entry_value};
ghost use Rattle.std.specs.FinMap as map;

use exh_prefix::PageNo;
use std::alloc::{AllocError, Global};
use std::collections::BTreeMap;
use std::collections::btree_map::Entry;
use std::marker::Model;

/// The numbers of a ward's pages by their low bounds.
#[derive(Drop)]
pub struct PageIndex {
    numbers: BTreeMap<u64, PageNo>,
}

impl Model for PageIndex {
    ghost use Rattle.std.specs.Coded.{coded_ℕ};
    ghost use Rattle.std.specs.FinMap.{from_entries, code};
    ghost use Rattle.exh_legal.specs.PageIndex.{IndexMap};

    ghost Value = { IndexMap };

    ghost coded = { code coded_ℕ coded_ℕ };

    ghost view = { λ a. from_entries a.numbers.entries };
}

impl PageIndex {
    /// The index of no page. It takes no memory.
    pub fn new(alloc: Global) -> PageIndex
        ensures { result ≡ map.empty }
    {
        PageIndex {
            numbers: BTreeMap::new(alloc),
        }
    }

    /// Adds the page of this low bound.
    pub fn insert(&mut self, low: u64, number: PageNo) -> Result<(), AllocError>
        ensures ok { OnOk result (self.new ≡ map.insert self.old low number) }
        ensures err { OnErr result (self.new ≡ self.old) }
    {
        self.numbers.insert(low, number)?;
        Ok(())
    }

    /// The page of this low bound, if it is in the index; else that is given the page `number`, and
    /// the answer is `None`. It is looked up once. Where memory is refused, an `AllocError`, the index
    /// is as before; it is asked for only where the low bound isn't in the index.
    pub fn get_or_insert(&mut self, low: u64, number: PageNo) -> Result<Option<PageNo>, AllocError>
        ensures stood { IfOk result (λ stood. stood ≡ map.get self.old low) }
        ensures there { IsSome (map.get self.old low) → self.new ≡ self.old }
        ensures added { OnOk result (map.get self.old low ≡ None → self.new ≡ map.insert self.old low number) }
        ensures err { OnErr result (self.new ≡ self.old) }
        ensures absent { OnErr result (map.get self.old low ≡ None) }
    {
        let place = self.numbers.entry(low)?;
        let stood = stood_at(&place);
        place.or_insert(number);
        Ok(stood)
    }

    /// Takes the page of this low bound out. It takes no memory.
    pub fn remove(&mut self, low: u64)
        ensures { self.new ≡ map.remove self.old low }
    {
        self.numbers.remove(&low);
    }
}

// The page that stands at a place, if one does.
fn stood_at(place: &Entry<'_, u64, PageNo, Global>) -> Option<PageNo>
    ensures { MatchEntry place.now (entry_value place.now ≡ result) (result ≡ None) }
{
    match place {
        Entry::Vacant(_) => None,
        Entry::Occupied(place) => Some(*place.get()),
    }
}

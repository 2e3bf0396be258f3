ghost use Rattle.std.specs.Prelude.{◌≡◌, ℕ, List, [], ◌∷◌, ◌++◌, length, OnOk, OnErr, None};
ghost use Rattle.std.specs.Option.{option_copied};
ghost use Rattle.std.specs.Map.Iter.{ShowsInOrder, TakesFirst, deref_pair};
ghost use Rattle.std.specs.Iterator.{at_most};
ghost use Rattle.exh_ward.specs.declared.hop.Hop.TheVariants.{Moved};
ghost use Rattle.exh_world.specs.InFlight.{HasRoom, request_named, requests_after, moved_to, without};
ghost use Rattle.exh_world.specs.declared.request.Request.{Request as RequestType};

use crate::Request;
use crate::slot::Slot;
use exh_prefix::PageNo;
use exh_ward::Hop;
use indexmap::IndexMap;
use indexmap::map::Iter;
use std::alloc::{AllocError, Global};
use std::collections::HashMap;
use std::marker::Model;

/// The requests in flight by their names, in the order begun. One that is answered is marked, and moves no other: the
/// marked ones are taken out together once they are half of all.
#[derive(Drop)]
pub(crate) struct InFlight {
    // By how many were begun before it.
    slots: IndexMap<u64, Slot>,
    // The key of each name's slot.
    places: HashMap<u32, u64>,
    // How many were begun.
    begun: u64,
}

impl Model for InFlight {
    ghost use Rattle.std.specs.Prelude.{ℕ, List, nat_eq};
    ghost use Rattle.std.specs.HashMap.{get};
    ghost use Rattle.exh_world.specs.declared.request.Request.{Request};
    ghost use Rattle.exh_world.specs.Slots.{AreKept, standing_in};

    ghost Value = { List (ℕ × Request) };

    ghost view = { λ a. standing_in a.slots.entries };

    ghost invariant = { λ a. AreKept a.slots.entries (get nat_eq a.places) a.begun };
}

impl InFlight {
    /// No requests. It takes no memory.
    pub(crate) fn new(alloc: Global) -> InFlight
        ensures { result ≡ [] }
    {
        InFlight {
            slots: IndexMap::new(alloc),
            places: HashMap::new(alloc),
            begun: 0,
        }
    }

    /// The request of a name.
    pub(crate) fn get(&self, name: u32) -> Option<&Request>
        ensures { option_copied result ≡ request_named name self.now }
    {
        let place = self.places.get(&name)?;
        let slot = self.slots.get(place)?;
        Some(&slot.request)
    }

    /// The requests with their names.
    pub(crate) fn iter(&self) -> Requests<'_>
        ensures rest { result ≡ self.now }
        ensures runs { ShowsInOrder (deref_pair {K = ℕ} {X = RequestType}) }
    {
        Requests {
            slots: self.slots.iter(),
        }
    }

    /// Adds a request, of a name that isn't taken. An `AllocError` where memory is refused, or 2^64 - 1 were begun.
    pub(crate) fn begin(&mut self, name: u32, request: Request) -> Result<(), AllocError>
        requires { request_named name self.old ≡ None }
        ensures ok { OnOk result (self.new ≡ self.old ++ (name, request) ∷ []) }
        ensures err { OnErr result (self.new ≡ self.old) }
    {
        let place = self.begun;
        let begun = place.checked_add(1).ok_or(AllocError)?;
        // The proof of what is put in has to see the types of its fields.
        let _ = &request.call;
        let slot = Slot {
            name,
            request,
            is_answered: false,
        };
        self.places.reserve(1)?;
        self.slots.insert(place, slot)?;
        // There is room for it.
        let _ = self.places.insert(name, place);
        self.begun = begun;
        Ok(())
    }

    /// Takes note of what a hop of a request came to. An answered one is taken out, and the others keep their order.
    pub(crate) fn note_hop(&mut self, name: u32, hop: &Hop)
        requires room { (next : ℕ) → hop.now ≡ Moved next → HasRoom name self.old }
        ensures { self.new ≡ requests_after name hop.now self.old }
    {
        match hop {
            Hop::Done(_) => self.take_out(name),
            Hop::Moved(next) => self.move_to(name, *next),
            Hop::MustSplit | Hop::Stray => {}
        }
    }

    fn take_out(&mut self, name: u32)
        ensures { self.new ≡ without name self.old }
    {
        let Some(place) = self.places.remove(&name) else {
            return;
        };
        let Some(slot) = self.slots.get_mut(&place) else {
            return;
        };
        slot.is_answered = true;
        self.sweep();
    }

    // Takes out what is marked, where that is half of all slots.
    fn sweep(&mut self)
        ensures { self.new ≡ self.old }
    {
        if self.slots.len() >= 2 * self.places.len() {
            self.slots.retain(|_, slot| !slot.is_answered);
        }
    }

    fn move_to(&mut self, name: u32, page: PageNo)
        requires room { HasRoom name self.old }
        ensures { self.new ≡ moved_to name page self.old }
    {
        let Some(place) = self.places.get(&name) else {
            return;
        };
        let Some(slot) = self.slots.get_mut(place) else {
            return;
        };
        slot.request.page = page;
        slot.request.moves += 1;
    }
}

/// Requests in flight with their names, in the order begun.
#[derive(Drop)]
pub struct Requests<'a> {
    slots: Iter<'a, u64, Slot>,
}

impl<'a> Model for Requests<'a> {
    ghost use Rattle.std.specs.Prelude.{ℕ, List, length, ◌<◌, ◌^◌};
    ghost use Rattle.exh_world.specs.declared.request.Request.{Request};
    ghost use Rattle.exh_world.specs.Slots.{standing_in};

    ghost Value = { List (ℕ × Request) };

    ghost view = { λ a. standing_in a.slots };

    ghost invariant = { λ a. length a.slots < 2 ^ 63 };
}

impl<'a> Iterator for Requests<'a> {
    type Item = (&'a u32, &'a Request);

    ghost next_gives = { TakesFirst deref_pair };

    ghost remaining = { λ requests. at_most (length requests) };

    fn next(&mut self) -> Option<(&'a u32, &'a Request)> {
        loop {
            let (_, slot) = self.slots.next()?;
            if !slot.is_answered {
                return Some((&slot.name, &slot.request));
            }
        }
    }
}

impl<'a> ExactSizeIterator for Requests<'a> {
    fn len(&self) -> usize {
        let mut len = 0;
        for (_, slot) in self.slots.as_slice().iter() {
            if !slot.is_answered {
                len += 1;
            }
        }
        len
    }
}

ghost use Rattle.std.specs.Prelude.{◌≡◌, ◌≤◌, ◌↔◌, [], ◌∷◌, ◌++◌, length, slice_get, IsTrue, OnOk};
ghost use Rattle.std.specs.Iterator.{YieldsFirst, item_count};
ghost use Rattle.exh_calls.specs.declared.diary.TheConstants.{CALLER_LIMIT};

use crate::{Call, DiaryEntry, Entries, Journal, Reply};
use std::alloc::{AllocError, Global};
use std::marker::Model;

/// The greatest number of a caller.
pub const CALLER_LIMIT: u32 = 65_535;

/// A caller's number, and its calls that were answered, in order, with their replies.
#[derive(Drop)]
pub struct Diary {
    client: u32,
    // The entries, as those of a journal in which all are this caller's.
    journal: Journal,
}

impl Model for Diary {
    ghost use Rattle.std.specs.Prelude.{◌≤◌, map};
    ghost use Rattle.exh_calls.specs.Diary.{DiaryState, without_client};
    ghost use Rattle.exh_calls.specs.declared.diary.TheConstants.{CALLER_LIMIT};

    ghost Value = { DiaryState };

    ghost view = { λ a. record { client = a.client; entries = map without_client a.journal.entries; room = a.journal.room } };

    ghost invariant = { λ a. (1 ≤ a.client) × (a.client ≤ CALLER_LIMIT) };
}

impl Diary {
    /// The diary of a caller that was answered nothing yet, by its number, 1 to `CALLER_LIMIT`. It
    /// takes no memory.
    pub fn new(alloc: Global, client: u32) -> Diary
        requires some { 1 ≤ client }
        requires limit { client ≤ CALLER_LIMIT }
        ensures client { result.client ≡ client }
        ensures empty { result.entries ≡ [] }
    {
        Diary {
            client,
            journal: Journal::new(alloc),
        }
    }

    /// The caller's number, 1 to `CALLER_LIMIT`.
    pub fn client(&self) -> u32
        ensures client { result ≡ self.now.client }
        ensures some { 1 ≤ result }
        ensures limit { result ≤ CALLER_LIMIT }
    {
        self.client
    }

    /// Makes room for one more entry of any size. The caller and the entries are the same, whatever
    /// the result: an `AllocError` where a growth is refused.
    pub fn reserve(&mut self) -> Result<(), AllocError>
        ensures ok { OnOk result (IsTrue self.new.room) }
        ensures client { self.new.client ≡ self.old.client }
        ensures entries { self.new.entries ≡ self.old.entries }
    {
        self.journal.reserve()
    }

    /// Adds an answered call, for which there is room. It takes no memory.
    pub fn push_reserved(&mut self, call: &Call, reply: &Reply)
        requires { IsTrue self.old.room }
        ensures client { self.new.client ≡ self.old.client }
        ensures entries { self.new.entries ≡ self.old.entries ++ record { call = call.now; reply = reply.now } ∷ [] }
    {
        self.journal.push_reserved(self.client, call, reply);
    }

    /// How many entries there are.
    pub fn len(&self) -> usize
        ensures { result ≡ length self.now.entries }
    {
        self.journal.len()
    }

    /// Whether there is no entry.
    pub fn is_empty(&self) -> bool
        ensures { IsTrue result ↔ (self.now.entries ≡ []) }
    {
        self.len() == 0
    }

    /// The entry at a place, from 0 on; `None` past the last. It takes no memory.
    pub fn get(&self, at: usize) -> Option<DiaryEntry>
        ensures { result ≡ slice_get self.now.entries at }
    {
        let entry = self.journal.get(at)?;
        Some(DiaryEntry::from(entry))
    }

    /// The entries, in order. It takes no memory.
    pub fn iter(&self) -> DiaryEntries<'_>
        ensures { result ≡ self.now.entries }
    {
        DiaryEntries {
            entries: self.journal.iter(),
        }
    }
}

/// The entries of a diary, from one on.
#[derive(Drop)]
pub struct DiaryEntries<'a> {
    entries: Entries<'a>,
}

impl<'a> Model for DiaryEntries<'a> {
    ghost use Rattle.std.specs.Prelude.{List, map};
    ghost use Rattle.exh_calls.specs.Diary.{without_client};
    ghost use Rattle.exh_calls.specs.declared.diary_entry.DiaryEntry.{DiaryEntry};

    ghost Value = { List DiaryEntry };

    ghost view = { λ a. map without_client a.entries };
}

impl<'a> Iterator for DiaryEntries<'a> {
    type Item = DiaryEntry;

    ghost next_gives = { YieldsFirst (λ entries. entries) };

    ghost remaining = { item_count (λ entries. entries) };

    fn next(&mut self) -> Option<DiaryEntry> {
        let entry = self.entries.next()?;
        Some(DiaryEntry::from(entry))
    }
}

ghost use Rattle.std.specs.Prelude.{◌≡◌, ◌+◌, ◌≤◌, ◌↔◌, [], ◌∷◌, ◌++◌, length, slice_get, vec_len, vec_capacity, IsTrue, OnOk};
ghost use Rattle.std.specs.Iterator.{YieldsFirst, item_count};
ghost use Rattle.std.specs.Option.{option_map};
ghost use Rattle.exh_page.specs.declared.value.TheConstants.{VALUE_LIMIT};
ghost use Rattle.exh_calls.specs.Journal.{bytes_at, second_given, value_given, value_told};

use crate::stored_entry::{CallKind, ReplyKind, StoredEntry};
use crate::{Call, JournalEntry, Reply};
use exh_page::{KEY_LIMIT, VALUE_LIMIT};
use std::alloc::{AllocError, Global};
use std::marker::Model;

/// The most bytes of an entry: a key, a call's two values and a reply's value.
const ENTRY_LIMIT: usize = KEY_LIMIT + VALUE_LIMIT + VALUE_LIMIT + VALUE_LIMIT;

/// The calls that were answered, in order, with their callers and replies. An
/// entry takes the bytes of its key and values, and 24 more.
#[derive(Drop)]
pub struct Journal {
    texts: Vec<u8>,
    stored: Vec<StoredEntry>,
}

impl Model for Journal {
    ghost use Rattle.std.specs.Prelude.{vec_capacity, vec_len};
    ghost use Rattle.exh_calls.specs.Journal.{AreWithin, JournalState, entries_in, has_room};

    ghost Value = { JournalState };

    ghost view = { λ a. record { entries = entries_in a.texts.items a.stored.items; room = has_room (vec_len a.stored) (vec_capacity a.stored) (vec_len a.texts) (vec_capacity a.texts) } };

    ghost invariant = { λ a. AreWithin a.texts.items a.stored.items };
}

impl Journal {
    /// The journal of no calls. It takes no memory.
    pub fn new(alloc: Global) -> Journal
        ensures { result.entries ≡ [] }
    {
        Journal {
            texts: Vec::new(alloc),
            stored: Vec::new(alloc),
        }
    }

    /// Makes room for one more entry of any size. The entries are the same, whatever the result: an
    /// `AllocError` where a growth is refused.
    pub fn reserve(&mut self) -> Result<(), AllocError>
        ensures ok { OnOk result (IsTrue self.new.room) }
        ensures entries { self.new.entries ≡ self.old.entries }
    {
        self.stored.reserve(1)?;
        self.texts.reserve(ENTRY_LIMIT)
    }

    /// Adds an entry, for which there is room. It takes no memory.
    pub fn push_reserved(&mut self, client: u32, call: &Call, reply: &Reply)
        requires { IsTrue self.old.room }
        ensures { self.new.entries ≡ self.old.entries ++ record { client = client; call = call.now; reply = reply.now } ∷ [] }
    {
        let key = call.key().as_bytes();
        let value = value_given(call);
        let second = second_given(call);
        let told = value_told(reply);
        self.stored.push_reserved(StoredEntry {
            client,
            start: self.texts.len(),
            key_len: key.len() as u8,
            value_len: value.len() as u8,
            second_len: second.len() as u8,
            reply_len: told.len() as u8,
            call: CallKind::of(call),
            reply: ReplyKind::of(reply),
        });
        // There is room for these bytes.
        self.texts.extend_from_slice(key).unwrap();
        add_text(&mut self.texts, value);
        add_text(&mut self.texts, second);
        add_text(&mut self.texts, told);
    }

    /// Lets all entries go, and keeps their room. It takes no memory.
    pub fn clear(&mut self)
        ensures { self.new.entries ≡ [] }
    {
        self.texts.clear();
        self.stored.clear();
    }

    /// How many entries there are.
    pub fn len(&self) -> usize
        ensures { result ≡ length self.now.entries }
    {
        self.stored.len()
    }

    /// Whether there is no entry.
    pub fn is_empty(&self) -> bool
        ensures { IsTrue result ↔ (self.now.entries ≡ []) }
    {
        self.stored.is_empty()
    }

    /// The entry at a place, from 0 on; `None` past the last. It takes no memory.
    pub fn get(&self, at: usize) -> Option<JournalEntry>
        ensures { result ≡ slice_get self.now.entries at }
    {
        let stored = self.stored.get(at).copied()?;
        let value_start = stored.start + usize::from(stored.key_len);
        let second_start = value_start + usize::from(stored.value_len);
        let reply_start = second_start + usize::from(stored.second_len);
        let key = bytes_at(&self.texts, stored.start, stored.key_len);
        let value = bytes_at(&self.texts, value_start, stored.value_len);
        let second = bytes_at(&self.texts, second_start, stored.second_len);
        let told = bytes_at(&self.texts, reply_start, stored.reply_len);
        Some(JournalEntry {
            client: stored.client,
            call: stored.call.call(key, value, second),
            reply: stored.reply.reply(told),
        })
    }

    /// The caller of the entry at a place, from 0 on; `None` past the last. Nothing else of the entry is
    /// read. It takes no memory.
    pub fn client(&self, at: usize) -> Option<u32>
        ensures { result ≡ option_map (λ entry. entry.client) (slice_get self.now.entries at) }
    {
        let stored = self.stored.get(at)?;
        Some(stored.client)
    }

    /// The entries, in order. It takes no memory.
    pub fn iter(&self) -> Entries<'_>
        ensures { result ≡ self.now.entries }
    {
        Entries {
            journal: self,
            next: 0,
        }
    }
}

/// The entries of a journal, from one on.
#[derive(Drop)]
pub struct Entries<'a> {
    journal: &'a Journal,
    next: usize,
}

impl<'a> Model for Entries<'a> {
    ghost use Rattle.std.specs.Prelude.{List, drop};
    ghost use Rattle.exh_calls.specs.declared.journal_entry.JournalEntry.{JournalEntry};

    ghost Value = { List JournalEntry };

    ghost view = { λ a. drop a.next a.journal.now.entries };
}

impl<'a> Iterator for Entries<'a> {
    type Item = JournalEntry;

    ghost next_gives = { YieldsFirst (λ entries. entries) };

    ghost remaining = { item_count (λ entries. entries) };

    fn next(&mut self) -> Option<JournalEntry> {
        if self.next >= self.journal.len() {
            return None;
        }
        let entry = self.journal.get(self.next);
        self.next += 1;
        entry
    }
}

/// The bytes of this length from `start` on.
pub(crate) fn bytes_at(texts: &[u8], start: usize, len: u8) -> &[u8]
    requires { start + len ≤ length texts.now }
    ensures { result.now ≡ bytes_at texts.now start len }
{
    &texts[start..start + usize::from(len)]
}

// Adds the bytes of a value, for which there is room. Most entries lack two of three.
fn add_text(texts: &mut Vec<u8>, text: &[u8])
    requires { vec_len texts.old + length text.now ≤ vec_capacity texts.old }
    ensures items { texts.new.items ≡ texts.old.items ++ text.now }
    ensures len { vec_len texts.new ≡ vec_len texts.old + length text.now }
    ensures capacity { vec_capacity texts.old ≤ vec_capacity texts.new }
{
    if text.is_empty() {
        return;
    }
    texts.extend_from_slice(text).unwrap();
}

// The bytes of the first value that a call names, none where it names none.
fn value_given(call: &Call) -> &[u8]
    ensures value { result.now ≡ value_given call.now }
    ensures limit { length result.now ≤ VALUE_LIMIT }
{
    match call {
        Call::Put { value, .. } | Call::Swap { old: value, .. } => value.as_bytes(),
        Call::Get { .. } | Call::Del { .. } => &[],
    }
}

// The bytes of the second value that a call names, none where it names no two.
fn second_given(call: &Call) -> &[u8]
    ensures value { result.now ≡ second_given call.now }
    ensures limit { length result.now ≤ VALUE_LIMIT }
{
    match call {
        Call::Swap { new, .. } => new.as_bytes(),
        Call::Get { .. } | Call::Put { .. } | Call::Del { .. } => &[],
    }
}

// The bytes of the value that a reply tells, none where it tells none.
fn value_told(reply: &Reply) -> &[u8]
    ensures value { result.now ≡ value_told reply.now }
    ensures limit { length result.now ≤ VALUE_LIMIT }
{
    match reply {
        Reply::Is(value) | Reply::Was(value) | Reply::Differs(value) => value.as_bytes(),
        Reply::None | Reply::New | Reply::Full | Reply::Swapped => &[],
    }
}

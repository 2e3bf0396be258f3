//! What is saved of a file.
ghost use Rattle.std.specs.Prelude.{◌≡◌, ◌++◌, map, OnOk};
ghost use Rattle.exh_salvage.specs.SavedBlock.{saved_pair};

use arrayvec::ArrayVec;
use exh_page::{Key, Page, Records, Value};
use std::alloc::{AllocError, Global};

/// How many places of lost blocks are kept.
pub const SHOWN_PLACES: usize = 8;

/// A pair of a live page.
#[derive(Drop)]
pub struct SavedPair {
    /// The place of the page's block, the first of the file being 0.
    pub place: u32,
    pub key: Key,
    pub value: Value,
}

/// The pairs of a file's live pages, and how many of its blocks are live pages, and how many are lost.
#[derive(Drop)]
pub struct Salvage {
    /// In the order of the blocks, and in each page in its order.
    pub pairs: Vec<SavedPair>,
    /// How many blocks are live pages.
    pub live: u32,
    /// How many blocks are lost.
    pub lost: u32,
    /// How many of these couldn't be read.
    pub unread: u32,
    /// The places of the first lost blocks, the lowest first.
    pub first: ArrayVec<u32, SHOWN_PLACES>,
}

impl Salvage {
    ghost use Rattle.std.specs.Prelude.{◌≡◌, ◌<◌, ◌≤◌, ◌+◌, ◌-◌, ◌^◌, OnOk};
    ghost use Rattle.exh_salvage.specs.Salvage.{IsNoted, IsNotedUnread, IsNothing, IsWithPage};

    /// Nothing, as of no blocks.
    pub(crate) fn nothing(alloc: Global) -> Salvage
        ensures { IsNothing result }
    {
        Salvage {
            pairs: Vec::new(alloc),
            live: 0,
            lost: 0,
            unread: 0,
            first: ArrayVec::new(),
        }
    }

    /// Adds the page at a place. An `AllocError` where memory is refused.
    pub(crate) fn add(&mut self, page: &Page, place: u32) -> Result<(), AllocError>
        requires { self.old.live < 2 ^ 32 - 1 }
        ensures live { self.new.live ≤ self.old.live + 1 }
        ensures lost { self.new.lost ≡ self.old.lost }
        ensures unread { self.new.unread ≡ self.old.unread }
        ensures added { OnOk result (IsWithPage page.now place self.old self.new) }
    {
        match page {
            Page::Live { records, .. } => {
                self.live += 1;
                push_records(&mut self.pairs, records, place)
            }
            Page::Forward { .. } => Ok(()),
        }
    }

    /// Adds the place of a lost block.
    pub(crate) fn note(&mut self, place: u32)
        requires { self.old.lost < 2 ^ 32 - 1 }
        ensures { IsNoted place self.old self.new }
    {
        self.lost += 1;
        if self.first.len() < SHOWN_PLACES {
            self.first.push(place);
        }
    }

    /// Adds the place of a block that couldn't be read.
    pub(crate) fn note_unread(&mut self, place: u32)
        requires lost { self.old.lost < 2 ^ 32 - 1 }
        requires unread { self.old.unread < 2 ^ 32 - 1 }
        ensures { IsNotedUnread place self.old self.new }
    {
        self.note(place);
        self.unread += 1;
    }
}

// Adds the pairs of the records of the page at a place.
fn push_records(pairs: &mut Vec<SavedPair>, records: &Records, place: u32) -> Result<(), AllocError>
    ensures { OnOk result (pairs.new.items ≡ pairs.old.items ++ map (saved_pair place) records.now) }
{
    for record in records.iter() {
        pairs.reserve(1)?;
        pairs.push_reserved(SavedPair {
            place,
            key: record.key,
            value: record.value,
        });
    }
    Ok(())
}

ghost use Rattle.std.specs.Prelude.{◌≡◌, ℕ, ◌<◌, ◌≤◌, ◌^◌, ◌++◌, ◌∷◌, [], length, get_or, vec_len, OnOk};
ghost use Rattle.std.specs.Borrow.{sem};
ghost use Rattle.exh_frames.specs.Runs.{AreRuns, items_in};

use std::alloc::{AllocError, Global};
use std::marker::Model;
use std::ops::{Index, IndexMut};

/// How many items a run has.
pub(crate) const RUN_LEN: usize = 512;

/// Items in runs of `RUN_LEN`, in their order. Where items are added, none of a full run moves: the
/// first run grows as a vector does, and each later one is made with its whole room.
#[derive(Drop)]
pub(crate) struct Runs<T: Drop> {
    alloc: Global,
    runs: Vec<Vec<T>>,
    len: usize,
}

impl<T: Drop> Model for Runs<T> {
    ghost use Rattle.exh_frames.specs.Runs.{AreRuns, RunList, items_in, room_in};
    ghost use Rattle.std.specs.Prelude.{◌/◌};

    ghost Value = { RunList T };

    ghost view = { λ a. record { items = items_in a.runs.items; room = room_in a.runs.items (a.len / 512) } };

    ghost invariant = { λ a. AreRuns a.runs.items a.len };
}

impl<T: Drop> Runs<T> {
    /// No items. It takes no memory.
    pub(crate) fn new(alloc: Global) -> Runs<T>
        ensures { result.items ≡ [] }
    {
        Runs {
            alloc,
            runs: Vec::new(alloc),
            len: 0,
        }
    }

    /// The allocator of its memory.
    pub(crate) fn allocator(&self) -> Global {
        self.alloc
    }

    /// How many items there are.
    pub(crate) fn len(&self) -> usize
        ensures { result ≡ length self.now.items }
    {
        self.len
    }

    /// Makes room for one more item. An `AllocError` where memory is refused.
    pub(crate) fn reserve(&mut self) -> Result<(), AllocError>
        ensures items { self.new.items ≡ self.old.items }
        ensures ok { OnOk result (0 < self.new.room) }
    {
        let index = self.len / RUN_LEN;
        reach_run(self.alloc, &mut self.runs, index)?;
        let run = &mut self.runs[index];
        run.reserve(1)
    }

    /// Adds an item, for which there is room.
    pub(crate) fn push_reserved(&mut self, item: T)
        requires room { 0 < self.old.room }
        requires few { length self.old.items < 2 ^ 63 }
        ensures { self.new.items ≡ self.old.items ++ item ∷ [] }
    {
        let run = &mut self.runs[self.len / RUN_LEN];
        run.push_reserved(item);
        self.len += 1;
    }
}

// Adds a run of no items where there is none of this index. The first one has no room yet, each later
// one has its whole room. An `AllocError` where memory is refused.
fn reach_run<T: Drop>(alloc: Global, runs: &mut Vec<Vec<T>>, index: usize) -> Result<(), AllocError>
    requires { index ≤ vec_len runs.old }
    ensures runs { (len : ℕ) → AreRuns runs.old.items len → AreRuns runs.new.items len }
    ensures items { items_in runs.new.items ≡ items_in runs.old.items }
    ensures ok { OnOk result (index < vec_len runs.new) }
{
    if index < runs.len() {
        return Ok(());
    }
    let room = if index == 0 { 0 } else { RUN_LEN };
    runs.reserve(1)?;
    runs.push_reserved(Vec::with_capacity(alloc, room)?);
    Ok(())
}

impl<T: Drop> Index<usize> for Runs<T> {
    ghost use Rattle.exh_frames.specs.Runs.{IsItemAt, IsWithin};

    type Output = T;

    ghost can_index = { IsWithin };

    ghost index_gives = { IsItemAt };

    fn index(&self, number: usize) -> &T {
        &self.runs[number / RUN_LEN][number % RUN_LEN]
    }
}

impl<T: Drop> IndexMut<usize> for Runs<T> {
    ghost use Rattle.exh_frames.specs.LentItem.{LendsItem};

    fn index_mut(&mut self, number: usize) -> &mut T
        requires { number < length self.old.items }
        ensures* writes_back { sem 𝓛 (LendsItem T.row self.entry number result) }
        ensures value { result.now ≡ get_or self.old.items number result.now }
    {
        let run = &mut self.runs[number / RUN_LEN];
        &mut run[number % RUN_LEN]
    }
}

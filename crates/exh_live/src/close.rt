ghost use Rattle.std.specs.Prelude.{◌≡◌, ◌+◌, ◌*◌, ◌^◌, ◌≤◌, [], length, vec_len, vec_capacity, IfOk, IfErr};
ghost use Rattle.exh_live.specs.Closing.{AreDiariesOf, AreInOrder, IsClosed, IsCloseFault, answers_given, close_fault_number, entries_made};
ghost use Rattle.exh_live.specs.WardParts.{parts_of_first, parts_of_wards, ward_parts};
ghost use Rattle.exh_live.specs.declared.close.CloseFault.TheVariants.{Memory};

use crate::ledgers::{Answers, Entries};
use crate::tallied_ward::WardLock;
use crate::{Identity, LiveFile, Seat};
use exh_calls::Diary;
use exh_keyer::Keyer;
use exh_stores::Pages;
use exh_ward::Ward;
use std::alloc::AllocError;
use std::fmt;
use std::sync::ledger::Share;
use thiserror::Error;

/// What a live file leaves when it is closed: its wards, and the diaries of all its seats.
#[derive(Drop)]
pub struct Closed<P: Pages + Drop, K: Keyer> {
    pub wards: Vec<Ward<P, K>>,
    pub diaries: Vec<Diary>,
}

/// Why a live file isn't closed.
#[derive(Clone, Copy, Debug, Error)]
pub enum CloseFault {
    /// A seat is missing: number 52.
    #[error("a seat is missing")]
    Seats,
    /// A growth was refused: number 10.
    #[error("out of memory")]
    Memory,
}

impl From<AllocError> for CloseFault {
    ghost from_gives = { λ _ fault. fault ≡ Memory };

    fn from(_: AllocError) -> CloseFault {
        CloseFault::Memory
    }
}

impl CloseFault {
    /// The refusal's number among all refusals.
    pub fn number(self) -> u8
        ensures { result ≡ close_fault_number self }
    {
        match self {
            CloseFault::Seats => 52,
            CloseFault::Memory => 10,
        }
    }
}

/// A file that isn't closed, with the seats that were handed in.
#[derive(Drop, Error)]
#[error("{fault}")]
pub struct NotClosed<P: Pages + Drop, K: Keyer, F: Identity> {
    pub fault: CloseFault,
    pub file: LiveFile<P, K, F>,
    pub seats: Vec<Seat<F>>,
}

impl<P: Pages + Drop, K: Keyer, F: Identity> fmt::Debug for NotClosed<P, K, F> {
    fn fmt<W: fmt::Write>(&self, f: &mut fmt::Formatter<W>) -> fmt::Result {
        f.debug_struct("NotClosed")
            .field("fault", &self.fault)
            .finish_non_exhaustive()
    }
}

impl<P: Pages + Drop, K: Keyer, F: Identity> LiveFile<P, K, F> {
    /// Gives the wards, in the order of their numbers, and the diaries of the seats, which are the file's,
    /// in theirs. The wards' journals together have as many entries as the callers got answers. Refused
    /// in this order, with all handed back: `Seats` where a seat is missing, `Memory`.
    pub fn close(self, seats: Vec<Seat<F>>) -> Result<Closed<P, K>, NotClosed<P, K, F>>
        ensures closed { IfOk result (λ closed. IsClosed self seats.items closed.wards.items closed.diaries.items) }
        ensures back { IfErr result (λ back. (back.file ≡ self) × (back.seats.items ≡ seats.items)) }
        ensures fault { IfErr result (λ back. IsCloseFault self seats.items back.fault) }
    {
        match self.room_to_close(&seats) {
            Ok(room) => Ok(self.opened(seats, room)),
            Err(fault) => Err(NotClosed {
                fault,
                file: self,
                seats,
            }),
        }
    }

    // Empty lists, with room for all wards and for all diaries.
    fn room_to_close(&self, seats: &Vec<Seat<F>>) -> Result<Closed<P, K>, CloseFault>
        ensures all { IfOk result (λ _. length seats.now.items ≡ self.now.seats) }
        ensures empty { IfOk result (λ room. (room.wards.items ≡ []) × (room.diaries.items ≡ [])) }
        ensures wards { IfOk result (λ room. 2 ^ self.now.ward_bits ≤ vec_capacity room.wards) }
        ensures diaries { IfOk result (λ room. vec_len seats.now ≤ vec_capacity room.diaries) }
        ensures fault { IfErr result (IsCloseFault self.now seats.now.items) }
    {
        if seats.len() != self.seats as usize {
            return Err(CloseFault::Seats);
        }
        let mut wards = Vec::new(self.alloc);
        wards.reserve(self.wards.len())?;
        let mut diaries = Vec::new(self.alloc);
        diaries.reserve(seats.len())?;
        Ok(Closed { wards, diaries })
    }

    // The file taken apart, all of whose seats are there.
    fn opened(self, seats: Vec<Seat<F>>, room: Closed<P, K>) -> Closed<P, K>
        requires all { length seats.items ≡ self.seats }
        requires empty { (room.wards.items ≡ []) × (room.diaries.items ≡ []) }
        requires wards { 2 ^ self.ward_bits ≤ vec_capacity room.wards }
        requires diaries { vec_len seats ≤ vec_capacity room.diaries }
        ensures { IsClosed self seats.items result.wards.items result.diaries.items }
    {
        let LiveFile {
            wards: locks,
            tally,
            answers,
            entries,
            ..
        } = self;
        let (mut wards, mut diaries) = (room.wards, room.diaries);
        let mut answers = answers.into_share();
        let mut entries = entries.into_share();
        unlock(locks, &mut wards, &mut answers, &mut entries);
        stand_up(seats, &mut diaries, &mut answers);
        tally
            .into_inner()
            .into_inner()
            .audit(&mut answers, &mut entries);
        put_in_order(&mut wards);
        Closed { wards, diaries }
    }
}

// The wards out of their locks. Their shares are put to those given.
fn unlock<P: Pages + Drop, K: Keyer, F: Identity>(
    locks: Vec<WardLock<P, K, F>>,
    wards: &mut Vec<Ward<P, K>>,
    answers: &mut Share<Answers<F>>,
    entries: &mut Share<Entries<F>>,
)
    requires empty { wards.old.items ≡ [] }
    requires room { vec_len locks ≤ vec_capacity wards.old }
    ensures count { length wards.new.items ≡ vec_len locks }
    ensures answers { answers.new.parts + parts_of_wards wards.new.items ≡ answers.old.parts + vec_len locks * ward_parts }
    ensures entries { entries.new.parts ≡ entries.old.parts + parts_of_wards wards.new.items }
    ensures amount { entries.new.amount ≡ entries.old.amount + entries_made wards.new.items }
    ensures none { answers.new.amount ≡ answers.old.amount }
{
    for lock in locks {
        let (ward, own, spare) = lock.into_inner().into_inner().into_parts();
        entries.merge(own);
        answers.merge(spare);
        wards.push_reserved(ward);
    }
}

// Puts all wards of a file in the order of their numbers, each of which stands for the place that it then
// has. They are in it: but of what a list of locks keeps no clause says which lock has which ward.
fn put_in_order<P: Pages + Drop, K: Keyer>(wards: &mut Vec<Ward<P, K>>)
    requires few { length wards.old.items ≤ 16 }
    requires all { parts_of_wards wards.old.items ≡ parts_of_first (length wards.old.items) }
    ensures order { AreInOrder wards.new.items }
    ensures count { length wards.new.items ≡ length wards.old.items }
    ensures entries { entries_made wards.new.items ≡ entries_made wards.old.items }
{
    wards.sort_unstable_by_key(|ward| ward.number());
}

// The diaries out of their seats, in order. The seats' shares are put to the one given.
fn stand_up<F: Identity>(
    seats: Vec<Seat<F>>,
    diaries: &mut Vec<Diary>,
    answers: &mut Share<Answers<F>>,
)
    requires empty { diaries.old.items ≡ [] }
    requires room { vec_len seats ≤ vec_capacity diaries.old }
    ensures diaries { AreDiariesOf seats.items diaries.new.items }
    ensures parts { answers.new.parts ≡ answers.old.parts + vec_len seats }
    ensures amount { answers.new.amount ≡ answers.old.amount + answers_given diaries.new.items }
{
    for seat in seats {
        let (diary, share) = seat.into_parts();
        answers.merge(share);
        diaries.push_reserved(diary);
    }
}

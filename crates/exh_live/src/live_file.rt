ghost use Rattle.std.specs.Prelude.{◌≡◌, ◌+◌, ◌*◌, ◌^◌, ◌<◌, ◌≤◌, [], vec_len, IfOk, OnOk, OnErr};
ghost use Rattle.exh_live.specs.declared.ledgers.TheConstants.{ANSWER_PARTS, ENTRY_PARTS};
ghost use Rattle.exh_calls.specs.declared.diary.TheConstants.{CALLER_LIMIT};
ghost use Rattle.exh_live.specs.LiveFile.{AreNewWards, AreToBeTallied, IsNewFileOf};
ghost use Rattle.exh_live.specs.WardParts.{parts_of_first, parts_of_number, ward_parts};

use crate::ledgers::{Answers, Entries};
use crate::spare::Spare;
use crate::tallied_ward::{TalliedWard, WardLock};
use crate::tally::{Tally, TallyLock};
use crate::{Identity, NoSeat, Seat};
use crossbeam_utils::CachePadded;
use exh_calls::CALLER_LIMIT;
use exh_keyer::Keyer;
use exh_page::FileSettings;
use exh_stores::Pages;
use exh_ward::Ward;
use std::alloc::{AllocError, Global};
use std::marker::Model;
use std::sync::Mutex;
use std::sync::ledger::{Blank, Share};

// How many parts of both ledgers together a ward has: 16^15.
const WARD_PARTS: u64 = 1 << 60;

/// A file whose wards are each behind a lock of its own, for callers on threads of their own. One more
/// lock is that of the tally: the books of answers and of journal entries.
#[derive(Drop)]
pub struct LiveFile<P: Pages + Drop, K: Keyer, F: Identity> {
    pub(crate) alloc: Global,
    pub(crate) settings: FileSettings<K>,
    pub(crate) wards: Vec<WardLock<P, K, F>>,
    pub(crate) tally: CachePadded<TallyLock<F>>,
    pub(crate) answers: Spare<Answers<F>>,
    pub(crate) entries: Spare<Entries<F>>,
    pub(crate) seats: u32,
}

impl<P: Pages + Drop, K: Keyer, F: Identity> Model for LiveFile<P, K, F> {
    ghost use Rattle.std.specs.Prelude.{◌≡◌, ◌+◌, ◌*◌, ◌^◌, ◌≤◌, vec_len};
    ghost use Rattle.exh_prefix.specs.declared.prefix.TheConstants.{WARD_BITS_LIMIT};
    ghost use Rattle.exh_live.specs.declared.ledgers.TheConstants.{ANSWER_PARTS, ENTRY_PARTS};
    ghost use Rattle.exh_calls.specs.declared.diary.TheConstants.{CALLER_LIMIT};
    ghost use Rattle.exh_live.specs.LiveFile.{LiveState};
    ghost use Rattle.exh_live.specs.WardParts.{parts_of_first, ward_parts};

    ghost Value = { LiveState K };

    ghost view = { λ a. record { cap = a.settings.cap; ward_bits = a.settings.ward_bits; keyer = a.settings.keyer; seats = a.seats } };

    ghost invariant = { λ a. (a.settings.ward_bits ≤ WARD_BITS_LIMIT) × (vec_len a.wards ≡ 2 ^ a.settings.ward_bits) × (K.pseudokey_of a.settings.keyer ≡ F.hashing)
        × (vec_len a.wards ≤ 16) × (a.seats ≤ CALLER_LIMIT)
        × (a.answers.parts + a.seats + vec_len a.wards * ward_parts ≡ ANSWER_PARTS + parts_of_first (vec_len a.wards)) × (a.answers.amount ≡ 0)
        × (a.entries.parts + parts_of_first (vec_len a.wards) ≡ ENTRY_PARTS) × (a.entries.amount ≡ 0) };
}

impl<P: Pages + Drop, K: Keyer, F: Identity> LiveFile<P, K, F> {
    /// The live file of wards with empty journals, one for each number, in order, all of the same settings,
    /// and of two blank ledgers, whose names are the file's. An `AllocError` where memory is refused.
    pub fn new(
        alloc: Global,
        wards: Vec<Ward<P, K>>,
        answers: Blank,
        entries: Blank,
    ) -> Result<LiveFile<P, K, F>, AllocError>
        requires wards { AreNewWards K.pseudokey_of F.hashing wards.items }
        requires answers { (answers.name ≡ F.answers) × (answers.parts ≡ ANSWER_PARTS) }
        requires entries { (entries.name ≡ F.entries) × (entries.parts ≡ ENTRY_PARTS) }
        ensures { IfOk result (IsNewFileOf wards.items) }
    {
        let settings = wards[0].settings();
        let (given, mut answers) = answers.open::<Answers<F>>();
        let (made, mut entries) = entries.open::<Entries<F>>();
        let wards = locked(alloc, wards, &mut answers, &mut entries)?;
        Ok(LiveFile {
            alloc,
            settings,
            wards,
            tally: CachePadded::new(Mutex::new(Tally::new(given, made))),
            answers: Spare::new(answers),
            entries: Spare::new(entries),
            seats: 0,
        })
    }

    /// A seat for one more caller. Seats are numbered 1, 2, .. in the order in which they are made. It
    /// takes no memory. `NoSeat` after 65,535.
    pub fn seat(&mut self) -> Result<Seat<F>, NoSeat>
        ensures seat { IfOk result (λ seat. seat ≡ record { client = self.old.seats + 1; entries = [] }) }
        ensures ok { IfOk result (λ _. self.new ≡ record self.old { seats = self.old.seats + 1 }) }
        ensures limit { IfOk result (λ _. self.old.seats < CALLER_LIMIT) }
        ensures full { OnErr result (self.old.seats ≡ CALLER_LIMIT) }
        ensures err { OnErr result (self.new ≡ self.old) }
    {
        if self.seats == CALLER_LIMIT {
            return Err(NoSeat);
        }
        self.seats += 1;
        let answers = self.answers.part();
        Ok(Seat::new(self.alloc, self.seats, answers))
    }

    /// How many seats were made.
    pub fn seats(&self) -> u32
        ensures { result ≡ self.now.seats }
    {
        self.seats
    }
}

// The wards, which answered nothing and stand in the order of their numbers, each behind a lock with its
// parts of the ledgers.
fn locked<P: Pages + Drop, K: Keyer, F: Identity>(
    alloc: Global,
    wards: Vec<Ward<P, K>>,
    answers: &mut Share<Answers<F>>,
    entries: &mut Share<Entries<F>>,
) -> Result<Vec<WardLock<P, K, F>>, AllocError>
    requires wards { AreToBeTallied (λ keyer. K.pseudokey_of keyer) F.hashing 0 wards.items }
    requires count { vec_len wards ≤ 16 }
    requires answers { (vec_len wards * ward_parts ≤ answers.old.parts + parts_of_first (vec_len wards)) × (answers.old.amount ≡ 0) }
    requires entries { (parts_of_first (vec_len wards) ≤ entries.old.parts) × (entries.old.amount ≡ 0) }
    ensures count { IfOk result (λ locks. vec_len locks ≡ vec_len wards) }
    ensures answers { OnOk result (answers.new.parts + vec_len wards * ward_parts ≡ answers.old.parts + parts_of_first (vec_len wards)) }
    ensures entries { OnOk result (entries.new.parts + parts_of_first (vec_len wards) ≡ entries.old.parts) }
    ensures none { (answers.new.amount ≡ 0) × (entries.new.amount ≡ 0) }
{
    let mut locks = Vec::new(alloc);
    for ward in wards {
        locks.push(lock_of(ward, answers, entries))?;
    }
    Ok(locks)
}

// A ward that answered nothing behind its lock, with its parts of the ledgers.
#[tactic(auto, using(crate::proofs::Order::parts_within))]
fn lock_of<P: Pages + Drop, K: Keyer, F: Identity>(
    ward: Ward<P, K>,
    answers: &mut Share<Answers<F>>,
    entries: &mut Share<Entries<F>>,
) -> WardLock<P, K, F>
    requires empty { ward.journal ≡ [] }
    requires hashed { K.pseudokey_of ward.keyer ≡ F.hashing }
    requires number { ward.number < 16 }
    requires answers { (ward_parts ≤ answers.old.parts + parts_of_number ward.number) × (answers.old.amount ≡ 0) }
    requires entries { (parts_of_number ward.number ≤ entries.old.parts) × (entries.old.amount ≡ 0) }
    ensures answers { answers.new.parts + ward_parts ≡ answers.old.parts + parts_of_number ward.number }
    ensures entries { entries.new.parts + parts_of_number ward.number ≡ entries.old.parts }
    ensures none { (answers.new.amount ≡ 0) × (entries.new.amount ≡ 0) }
{
    let parts = entry_parts(ward.number());
    let own = entries.split_off(parts, 0);
    let spare = answers.split_off(WARD_PARTS - parts, 0);
    Mutex::new(CachePadded::new(TalliedWard::new(ward, own, spare)))
}

// How many parts of the ledger of entries the ward of this number has: powers of 16, so that those of at
// most sixteen wards tell the numbers.
fn entry_parts(number: u8) -> u64
    requires { number < 16 }
    ensures { result ≡ parts_of_number number }
{
    16u64.pow(u32::from(number))
}

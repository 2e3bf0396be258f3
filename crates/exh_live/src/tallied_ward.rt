ghost use Rattle.std.specs.Prelude.{◌≡◌, ◌+◌, ◌<◌, ◌↔◌, [], ◌++◌, true, false, length, take, IsTrue, IfOk, IfErr, OnOk, OnErr};
ghost use Rattle.exh_prefix.specs.Prefix.{Begins};
ghost use Rattle.exh_calls.specs.Call.{key_of};
ghost use Rattle.exh_ward.specs.HopTable.{HopOf};
ghost use Rattle.exh_ward.specs.SplitStep.{IsSplitStep};
ghost use Rattle.exh_ward.specs.WardFault.{CountsFailures, IsStoreFault, SplitRefused};
ghost use Rattle.exh_ward.specs.WardState.{IsSoundWard, IsUnchanged, LeavesAfter, notices_above, own_prefix};
ghost use Rattle.exh_walk.specs.WardRun.{HopAt, SplitAt, answer_of};
ghost use Rattle.exh_ward.specs.declared.ward_fault.WardFault.TheVariants.{Worn};
ghost use Rattle.exh_walk.specs.WardStep.{IsWardStep};
ghost use Rattle.exh_live.specs.Refused.{IsSomeWardsFault};
ghost use Rattle.exh_live.specs.Rounds.{HasSoManyPages, IsKeeperTurn, IsKeeperTurnOf, MayRefuseKeeper};
ghost use Rattle.exh_live.specs.WardParts.{parts_of_number, ward_parts};

use crate::Identity;
use crate::ledgers::{Answers, Entries};
use crate::lock::lock_soon;
use crate::tally::TallyLock;
use crossbeam_utils::CachePadded;
use exh_calls::Call;
use exh_keyer::Keyer;
use exh_notice::Notice;
use exh_prefix::PageNo;
use exh_stores::Pages;
use exh_ward::{Hop, Ward, WardFault};
use std::alloc::AllocError;
use std::sync::ledger::Share;
use std::sync::{Mutex, Wait};

/// So many notices are copied at most in one turn of a ward's lock.
pub(crate) const TURN_LIMIT: usize = 256;

/// The lock of a ward. Who waits for it looks at another cache line than who holds it, and the wards
/// have no line in common.
pub(crate) type WardLock<P, K, F> = Mutex<CachePadded<TalliedWard<P, K, F>>>;

/// What a ward's lock keeps: the ward, which is sound as every ward is, with its share of the journal
/// entries, which is its journal's length. Its parts of the ledgers, of which that of answers has no
/// amount, tell its number. It turns keys into the file's pseudokeys.
#[derive(Drop)]
pub(crate) struct TalliedWard<P: Pages + Drop, K: Keyer, F: Identity> {
    ward: Ward<P, K>,
    entries: Share<Entries<F>>,
    spare: Share<Answers<F>>,
    ghost counted: { entries.amount ≡ length ward.journal },
    ghost numbered: { (entries.parts ≡ parts_of_number ward.number) × (spare.parts + parts_of_number ward.number ≡ ward_parts) },
    ghost none_spare: { spare.amount ≡ 0 },
    ghost hashed: { K.pseudokey_of ward.keyer ≡ F.hashing },
}

impl<P: Pages + Drop, K: Keyer, F: Identity> TalliedWard<P, K, F> {
    /// A ward that answered nothing, with its parts of the ledgers.
    pub(crate) fn new(
        ward: Ward<P, K>,
        entries: Share<Entries<F>>,
        spare: Share<Answers<F>>,
    ) -> TalliedWard<P, K, F>
        requires empty { ward.journal ≡ [] }
        requires hashed { K.pseudokey_of ward.keyer ≡ F.hashing }
        requires entries { (entries.parts ≡ parts_of_number ward.number) × (entries.amount ≡ 0) }
        requires spare { (spare.parts + parts_of_number ward.number ≡ ward_parts) × (spare.amount ≡ 0) }
        ensures { result.ward ≡ ward }
    {
        TalliedWard {
            ward,
            entries,
            spare,
        }
    }

    /// The ward and its shares.
    pub(crate) fn into_parts(self) -> (Ward<P, K>, Share<Entries<F>>, Share<Answers<F>>)
        ensures ward { result.0 ≡ self.ward }
        ensures counted { result.1.amount ≡ length result.0.journal }
        ensures numbered { (result.1.parts ≡ parts_of_number result.0.number) × (result.2.parts + parts_of_number result.0.number ≡ ward_parts) }
        ensures spare { result.2.amount ≡ 0 }
    {
        let TalliedWard {
            ward,
            entries,
            spare,
        } = self;
        (ward, entries, spare)
    }

    /// Whether keys of this pseudokey belong to the ward.
    pub(crate) fn covers(&self, pseudokey: u64) -> bool
        ensures covers { IsTrue result ↔ Begins (own_prefix self.now.ward) pseudokey }
        ensures hashed { K.pseudokey_of self.now.ward.keyer ≡ F.hashing }
        ensures sound { IsSoundWard K.pseudokey_of self.now.ward }
    {
        self.ward.journal();
        self.ward.covers(pseudokey)
    }

    /// One hop, as `hop`. A page out of reach is one that a store of the ward's kind has counted.
    pub(crate) fn hop_counted<R: Wait>(
        &mut self,
        rt: &R,
        tally: &TallyLock<F>,
        answers: &mut Share<Answers<F>>,
        at: PageNo,
        client: u32,
        call: &Call,
        pseudokey: u64,
    ) -> Result<Hop, WardFault>
        requires hashed { pseudokey ≡ F.hashing (key_of call.now) }
        requires covered { Begins (own_prefix self.old.ward) pseudokey }
        requires seat { 0 < answers.old.parts }
        ensures fault { IfErr result IsStoreFault }
        ensures refused { IfErr result (IsSomeWardsFault P.failures K.pseudokey_of) }
        ensures failures { CountsFailures result self.old.ward.failures self.new.ward.failures }
        ensures step { IsSoundWard K.pseudokey_of self.old.ward × IsWardStep K.pseudokey_of self.old.ward (HopAt at client call.now result) self.new.ward }
        ensures units { answers.new.amount ≡ answers.old.amount + length (answer_of (HopAt at client call.now result)) }
        ensures seat { answers.new.parts ≡ answers.old.parts }
    {
        let hop = self.hop(rt, tally, answers, at, client, call, pseudokey);
        // By whose contract a store has counted as many.
        self.ward.failures();
        hop
    }

    // One hop of the ward: the method that the world's step calls. At `Done` the tally is locked too, and
    // a unit is added to both books, to the caller's share and to the ward's; else to none.
    fn hop<R: Wait>(
        &mut self,
        rt: &R,
        tally: &TallyLock<F>,
        answers: &mut Share<Answers<F>>,
        at: PageNo,
        client: u32,
        call: &Call,
        pseudokey: u64,
    ) -> Result<Hop, WardFault>
        requires hashed { pseudokey ≡ F.hashing (key_of call.now) }
        requires covered { Begins (own_prefix self.old.ward) pseudokey }
        requires seat { 0 < answers.old.parts }
        ensures hop { IfOk result (HopOf self.old.ward.cap (K.pseudokey_of self.old.ward.keyer) self.old.ward.pages at call.now) }
        ensures leaves { IfOk result (λ hop. LeavesAfter K.pseudokey_of self.old.ward at client call.now hop self.new.ward) }
        ensures err { OnErr result (IsUnchanged self.old.ward self.new.ward) }
        ensures fault { IfErr result IsStoreFault }
        ensures failures { CountsFailures result self.old.ward.failures self.new.ward.failures }
        ensures step { IsSoundWard K.pseudokey_of self.old.ward × IsWardStep K.pseudokey_of self.old.ward (HopAt at client call.now result) self.new.ward }
        ensures units { answers.new.amount ≡ answers.old.amount + length (answer_of (HopAt at client call.now result)) }
        ensures seat { answers.new.parts ≡ answers.old.parts }
    {
        let TalliedWard { ward, entries, .. } = self;
        // By whose contract the ward is sound.
        ward.journal();
        let hop = ward.hop_hashed(at, client, call, pseudokey)?;
        if let Hop::Done(_) = hop {
            lock_soon(tally, rt).count(answers, entries);
        }
        Ok(hop)
    }

    /// A split of one of the ward's pages: the method that the world's step calls. No unit is added. A page out of
    /// reach is one that a store of the ward's kind has counted.
    pub(crate) fn split(&mut self, page: PageNo) -> Result<Notice, WardFault>
        ensures ok { IfOk result (λ notice. IsSplitStep self.old.ward page notice self.new.ward) }
        ensures fault { IfErr result (SplitRefused self.old.ward.cap self.old.ward.pages page) }
        ensures refused { IfErr result (IsSomeWardsFault P.failures K.pseudokey_of) }
        ensures err { OnErr result (IsUnchanged self.old.ward self.new.ward) }
        ensures failures { CountsFailures result self.old.ward.failures self.new.ward.failures }
        ensures step { IsSoundWard K.pseudokey_of self.old.ward × IsWardStep K.pseudokey_of self.old.ward (SplitAt page result) self.new.ward }
    {
        // By whose contract the ward is sound.
        self.ward.journal();
        let split = self.ward.split(page);
        // By whose contract a store has counted as many.
        self.ward.failures();
        split
    }

    /// How many pages the ward has, which is the one of a number. `Memory` where it is another, which no file's lock
    /// keeps.
    pub(crate) fn page_count(&self, number: u8) -> Result<PageNo, WardFault>
        ensures count { IfOk result (HasSoManyPages number self.now.ward) }
        ensures sound { IsSoundWard K.pseudokey_of self.now.ward }
        ensures fault { IfErr result IsStoreFault }
        ensures refused { IfErr result (IsSomeWardsFault P.failures K.pseudokey_of) }
    {
        // By whose contracts the ward is sound, and a store has counted as many.
        self.ward.journal();
        self.ward.failures();
        if self.ward.number() != number {
            return Err(WardFault::Memory);
        }
        Ok(self.ward.page_count())
    }

    /// A keeper's turn at a page of the ward of a number, as `keep`. `Memory`, with nothing changed, where the ward has
    /// another number, which no file's lock keeps. A page out of reach is one that a store of the ward's kind has
    /// counted.
    pub(crate) fn keep_counted(&mut self, number: u8, page: PageNo) -> Result<bool, WardFault>
        ensures sound { IsSoundWard K.pseudokey_of self.old.ward }
        ensures kept { IfOk result (λ merged. IsKeeperTurnOf number self.old.ward page merged self.new.ward) }
        ensures err { OnErr result (IsUnchanged self.old.ward self.new.ward) }
        ensures fault { IfErr result IsStoreFault }
        ensures refused { IfErr result (IsSomeWardsFault P.failures K.pseudokey_of) }
        ensures failures { CountsFailures result self.old.ward.failures self.new.ward.failures }
    {
        if self.ward.number() != number {
            // By whose contracts the ward is sound, and a store has counted as many.
            self.ward.journal();
            self.ward.failures();
            return Err(WardFault::Memory);
        }
        let kept = self.keep(page);
        // By whose contract a store has counted as many.
        self.ward.failures();
        kept
    }

    // A keeper's turn at a page: a look at it and its right buddy, and a merge where they are sparse, the
    // method that the world's step calls. It answers whether it merged them; not where the number at
    // their parent is the greatest. No unit is added.
    fn keep(&mut self, page: PageNo) -> Result<bool, WardFault>
        ensures sound { IsSoundWard K.pseudokey_of self.old.ward }
        ensures kept { IfOk result (λ merged. IsKeeperTurn self.old.ward page merged self.new.ward) }
        ensures err { OnErr result (IsUnchanged self.old.ward self.new.ward) }
        ensures fault { IfErr result IsStoreFault }
        ensures failures { CountsFailures result self.old.ward.failures self.new.ward.failures }
    {
        // By whose contract the ward is sound.
        self.ward.journal();
        let Some(sum) = self.ward.buddy_sum(page)? else {
            return Ok(false);
        };
        if sum as usize > self.ward.cap() / 2 {
            return Ok(false);
        }
        match self.ward.merge(page) {
            Ok(_) => Ok(true),
            Err(fault) => passed_over(fault),
        }
    }

    /// How many notices the ward has above a cursor.
    pub(crate) fn count_above(&self, cursor: u64) -> usize
        ensures count { result ≡ length (notices_above cursor self.now.ward.notices) }
        ensures sound { IsSoundWard K.pseudokey_of self.now.ward }
    {
        self.ward.journal();
        self.ward.notices_after(cursor).len()
    }

    /// Pushes the first 256 of the ward's notices above a cursor, in order. At an `AllocError` none is pushed.
    #[tactic(auto, using(std::proofs::lemmas::List::take_min))]
    pub(crate) fn hand_out(&self, cursor: u64, notices: &mut Vec<Notice>) -> Result<(), AllocError>
        ensures sound { IsSoundWard K.pseudokey_of self.now.ward }
        ensures ok { OnOk result (notices.new.items ≡ notices.old.items ++ take 256 (notices_above cursor self.now.ward.notices)) }
        ensures err { OnErr result (notices.new.items ≡ notices.old.items) }
    {
        // By whose contract the ward is sound.
        self.ward.journal();
        let above = self.ward.notices_after(cursor);
        notices.extend_from_slice(&above[..TURN_LIMIT.min(above.len())])
    }
}

// What a merge of sparse pages that was refused comes to: at the greatest number they are passed over.
fn passed_over(fault: WardFault) -> Result<bool, WardFault>
    requires { MayRefuseKeeper fault }
    ensures worn { IfOk result (λ merged. (merged ≡ false) × (fault ≡ Worn)) }
    ensures err { IfErr result (λ other. other ≡ fault) }
    ensures fault { IfErr result IsStoreFault }
{
    match fault {
        WardFault::Worn => Ok(false),
        WardFault::Memory | WardFault::Page => Err(fault),
        _ => unreachable!(),
    }
}

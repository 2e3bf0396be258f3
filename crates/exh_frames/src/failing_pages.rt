ghost use Rattle.std.specs.Prelude.{◌≡◌, ◌≤◌, ◌<◌, ◌-◌, ◌^◌, false, IsTrue, IsOk, IsErrOf, IfOk, OnOk};
ghost use Rattle.exh_frames.specs.Failure.{IsOfInner, after_call, count_with, failed_call, failure_at, fault_by, is_due, is_spent};
ghost use Rattle.exh_stores.specs.PageStore.{CountsFaults};

use crate::PagesCall;
use exh_codec::BLOCK_LEN;
use exh_page::{Key, Lookup, Page, PageHead, Spot, Value};
use exh_prefix::{PageNo, Prefix};
use exh_stores::{Pages, PagesFault};
use std::marker::Model;

/// A store over any store, of which one call fails: for tests of what stands on a store.
#[derive(Drop)]
pub struct FailingPages<P: Pages + Drop> {
    inner: P,
    failure: Failure,
}

// The one failure of a store.
#[derive(Clone, Copy)]
enum Failure {
    /// It comes after so many calls.
    After(u64),
    /// This call failed.
    Past(PagesCall),
    /// None comes.
    Never,
}

impl<P: Pages + Drop> Model for FailingPages<P> {
    ghost use Rattle.exh_frames.specs.Failure.{FailingStore};

    ghost Value = { FailingStore P };

    ghost view = { λ store. record { inner = store.inner; failure = store.failure } };
}

impl<P: Pages + Drop> FailingPages<P> {
    /// The store, of which the `at`-th call (1, 2, ..) of those that answer a `Result` will answer a
    /// page fault, reach no page and count one failure more, whichever call it is; 0 fails none, and
    /// where the count of the store inside is the greatest none fails. Every other call is answered as
    /// the store inside answers it, but that once one has failed the page fault by which that store's
    /// count becomes 2^64 - 1 is want of memory, since this one's can't rise by it. It takes no memory.
    pub fn new(inner: P, at: u64) -> FailingPages<P>
        ensures inner { result.inner ≡ inner }
        ensures failure { result.failure ≡ failure_at at }
    {
        let failure = match at.checked_sub(1) {
            Some(before) => Failure::After(before),
            None => Failure::Never,
        };
        FailingPages { inner, failure }
    }

    /// The call that failed, or `None` where none has failed yet.
    pub fn failed(&self) -> Option<PagesCall>
        ensures { result ≡ failed_call self.now.failure }
    {
        match self.failure {
            Failure::Past(call) => Some(call),
            Failure::After(_) | Failure::Never => None,
        }
    }

    // Begins a call, which fails where it is due. It answers whether the count can't rise any more.
    fn enter(&mut self, call: PagesCall) -> Result<bool, PagesFault>
        ensures inner { self.new.inner ≡ self.old.inner }
        ensures counted { self.new.failure ≡ after_call (P.failures self.old.inner) call self.old.failure }
        ensures due { IsTrue (is_due (P.failures self.old.inner) self.old.failure) → IsErrOf result PagesFault.Page }
        ensures others { is_due (P.failures self.old.inner) self.old.failure ≡ false → IsOk result }
        ensures failures { CountsFaults result (count_with self.old.failure (P.failures self.old.inner)) (count_with self.new.failure (P.failures self.new.inner)) }
        ensures spent { IfOk result (λ spent. spent ≡ is_spent self.old.failure (P.failures self.old.inner)) }
    {
        let count = self.inner.failures();
        match self.failure {
            Failure::After(0) if count < u64::MAX => {
                self.failure = Failure::Past(call);
                Err(PagesFault::Page)
            }
            Failure::After(before) => {
                self.failure = Failure::After(before.saturating_sub(1));
                Ok(false)
            }
            Failure::Past(_) => Ok(count >= u64::MAX - 1),
            Failure::Never => Ok(false),
        }
    }
}

// What becomes of a refusal of the store inside, by whether the count can't rise any more.
fn fault_by(spent: bool, fault: PagesFault) -> PagesFault
    ensures { result ≡ fault_by spent fault }
{
    match fault {
        PagesFault::Page if spent => PagesFault::Memory,
        fault => fault,
    }
}

impl<P: Pages + Drop> Pages for FailingPages<P> {
    ghost use Rattle.std.specs.Prelude.{◌≢◌, ◌++◌, ◌∷◌, [], length, remove, slice_get, slice_set, Some, IfOk, OnErr};
    ghost use Rattle.exh_codec.specs.Block.{sealed};
    ghost use Rattle.exh_codec.specs.PageImage.{IsHeld, content_of};
    ghost use Rattle.exh_page.specs.declared.page.TheConstants.{CAP_LIMIT};
    ghost use Rattle.exh_page.specs.Halves.{left_half, right_half, sent_to, union};
    ghost use Rattle.exh_page.specs.Page.{IsDivisible, IsLive, records_of, with_records};
    ghost use Rattle.exh_page.specs.Records.{IsRising, with_record};
    ghost use Rattle.exh_page.specs.Search.{IsSpot, IsStood};
    ghost use Rattle.exh_stores.specs.PageStore.{HasHead, IfPage, TakesTheSame};

    ghost pages = { λ store. P.pages store.inner };

    ghost takes = { λ store page. P.takes store.inner page };

    ghost failures = { λ store. count_with store.failure (P.failures store.inner) };

    ghost at_hand = { λ store number. P.at_hand store.inner number };

    ghost in_reach = { λ store number. P.in_reach store.inner number };

    fn count(&self) -> PageNo {
        self.inner.count()
    }

    fn failures(&self) -> u64 {
        match self.failure {
            Failure::Past(_) => self.inner.failures().saturating_add(1),
            Failure::After(_) | Failure::Never => self.inner.failures(),
        }
    }

    fn get(&mut self, number: PageNo) -> Result<Page, PagesFault>
        requires { number < length (P.pages self.old.inner) }
        ensures page { IfOk result (λ page. slice_get (P.pages self.old.inner) number ≡ Some page) }
        ensures pages { P.pages self.new.inner ≡ P.pages self.old.inner }
        ensures failures { CountsFaults result (count_with self.old.failure (P.failures self.old.inner)) (count_with self.new.failure (P.failures self.new.inner)) }
        ensures takes { TakesTheSame P.takes self.old.inner self.new.inner }
        ensures due { IsTrue (is_due (P.failures self.old.inner) self.old.failure) → IsErrOf result PagesFault.Page }
        ensures others { is_due (P.failures self.old.inner) self.old.failure ≡ false → IsOfInner result (is_spent self.old.failure (P.failures self.old.inner)) (P.failures self.old.inner) (P.failures self.new.inner) }
        ensures counted { self.new.failure ≡ after_call (P.failures self.old.inner) PagesCall.Get self.old.failure }
    {
        let spent = self.enter(PagesCall::Get)?;
        self.inner
            .get(number)
            .map_err(|fault| fault_by(spent, fault))
    }

    fn head(&mut self, number: PageNo) -> Result<PageHead, PagesFault>
        requires { number < length (P.pages self.old.inner) }
        ensures head { IfOk result (HasHead (P.pages self.old.inner) number) }
        ensures pages { P.pages self.new.inner ≡ P.pages self.old.inner }
        ensures failures { CountsFaults result (count_with self.old.failure (P.failures self.old.inner)) (count_with self.new.failure (P.failures self.new.inner)) }
        ensures takes { TakesTheSame P.takes self.old.inner self.new.inner }
        ensures due { IsTrue (is_due (P.failures self.old.inner) self.old.failure) → IsErrOf result PagesFault.Page }
        ensures others { is_due (P.failures self.old.inner) self.old.failure ≡ false → IsOfInner result (is_spent self.old.failure (P.failures self.old.inner)) (P.failures self.old.inner) (P.failures self.new.inner) }
        ensures counted { self.new.failure ≡ after_call (P.failures self.old.inner) PagesCall.Head self.old.failure }
    {
        let spent = self.enter(PagesCall::Head)?;
        self.inner
            .head(number)
            .map_err(|fault| fault_by(spent, fault))
    }

    fn block(&mut self, number: PageNo, out: &mut [u8; BLOCK_LEN]) -> Result<(), PagesFault>
        requires there { number < length (P.pages self.old.inner) }
        requires few { IfPage (P.pages self.old.inner) number (λ page. length (records_of page) ≤ CAP_LIMIT) }
        ensures block { OnOk result (IfPage (P.pages self.old.inner) number (λ page. (out.new ≡ sealed (content_of page)) × IsHeld page)) }
        ensures pages { P.pages self.new.inner ≡ P.pages self.old.inner }
        ensures failures { CountsFaults result (count_with self.old.failure (P.failures self.old.inner)) (count_with self.new.failure (P.failures self.new.inner)) }
        ensures takes { TakesTheSame P.takes self.old.inner self.new.inner }
        ensures due { IsTrue (is_due (P.failures self.old.inner) self.old.failure) → IsErrOf result PagesFault.Page }
        ensures others { is_due (P.failures self.old.inner) self.old.failure ≡ false → IsOfInner result (is_spent self.old.failure (P.failures self.old.inner)) (P.failures self.old.inner) (P.failures self.new.inner) }
        ensures counted { self.new.failure ≡ after_call (P.failures self.old.inner) PagesCall.Block self.old.failure }
    {
        let spent = self.enter(PagesCall::Block)?;
        self.inner
            .block(number, out)
            .map_err(|fault| fault_by(spent, fault))
    }

    fn fetch(&mut self, number: PageNo) -> Result<(), PagesFault>
        requires { number < length (P.pages self.old.inner) }
        ensures at_hand { OnOk result (P.at_hand self.new.inner number) }
        ensures pages { P.pages self.new.inner ≡ P.pages self.old.inner }
        ensures failures { CountsFaults result (count_with self.old.failure (P.failures self.old.inner)) (count_with self.new.failure (P.failures self.new.inner)) }
        ensures takes { TakesTheSame P.takes self.old.inner self.new.inner }
        ensures due { IsTrue (is_due (P.failures self.old.inner) self.old.failure) → IsErrOf result PagesFault.Page }
        ensures others { is_due (P.failures self.old.inner) self.old.failure ≡ false → IsOfInner result (is_spent self.old.failure (P.failures self.old.inner)) (P.failures self.old.inner) (P.failures self.new.inner) }
        ensures counted { self.new.failure ≡ after_call (P.failures self.old.inner) PagesCall.Fetch self.old.failure }
    {
        let spent = self.enter(PagesCall::Fetch)?;
        self.inner
            .fetch(number)
            .map_err(|fault| fault_by(spent, fault))
    }

    fn fetched(&self, number: PageNo) -> &Page {
        self.inner.fetched(number)
    }

    fn reach(&mut self, number: PageNo) -> Result<(), PagesFault>
        requires { number < length (P.pages self.old.inner) }
        ensures in_reach { OnOk result (P.in_reach self.new.inner number) }
        ensures pages { P.pages self.new.inner ≡ P.pages self.old.inner }
        ensures failures { CountsFaults result (count_with self.old.failure (P.failures self.old.inner)) (count_with self.new.failure (P.failures self.new.inner)) }
        ensures takes { TakesTheSame P.takes self.old.inner self.new.inner }
        ensures due { IsTrue (is_due (P.failures self.old.inner) self.old.failure) → IsErrOf result PagesFault.Page }
        ensures others { is_due (P.failures self.old.inner) self.old.failure ≡ false → IsOfInner result (is_spent self.old.failure (P.failures self.old.inner)) (P.failures self.old.inner) (P.failures self.new.inner) }
        ensures counted { self.new.failure ≡ after_call (P.failures self.old.inner) PagesCall.Reach self.old.failure }
    {
        let spent = self.enter(PagesCall::Reach)?;
        self.inner
            .reach(number)
            .map_err(|fault| fault_by(spent, fault))
    }

    fn find(&self, number: PageNo, pseudokey: u64, key: &Key) -> Lookup<'_> {
        self.inner.find(number, pseudokey, key)
    }

    fn put_at(
        &mut self,
        number: PageNo,
        stood: Option<Spot>,
        pseudokey: u64,
        key: &Key,
        value: &Value,
    ) -> Result<(), PagesFault>
        requires there { number < length (P.pages self.old.inner) }
        requires live { IfPage (P.pages self.old.inner) number IsLive }
        requires stood { IfPage (P.pages self.old.inner) number (λ page. IsStood (pseudokey, key.now) (records_of page) stood) }
        requires taken { IfPage (P.pages self.old.inner) number (λ page. P.takes self.old.inner (with_records (with_record (record { pseudokey = pseudokey; key = key.now; value = value.now }) (records_of page)) page)) }
        ensures ok { OnOk result (IfPage (P.pages self.old.inner) number (λ page. P.pages self.new.inner ≡ slice_set (P.pages self.old.inner) number (with_records (with_record (record { pseudokey = pseudokey; key = key.now; value = value.now }) (records_of page)) page))) }
        ensures err { OnErr result (P.pages self.new.inner ≡ P.pages self.old.inner) }
        ensures failures { CountsFaults result (count_with self.old.failure (P.failures self.old.inner)) (count_with self.new.failure (P.failures self.new.inner)) }
        ensures takes { TakesTheSame P.takes self.old.inner self.new.inner }
        ensures due { IsTrue (is_due (P.failures self.old.inner) self.old.failure) → IsErrOf result PagesFault.Page }
        ensures others { is_due (P.failures self.old.inner) self.old.failure ≡ false → IsOfInner result (is_spent self.old.failure (P.failures self.old.inner)) (P.failures self.old.inner) (P.failures self.new.inner) }
        ensures counted { self.new.failure ≡ after_call (P.failures self.old.inner) PagesCall.Put self.old.failure }
    {
        let spent = self.enter(PagesCall::Put)?;
        self.inner
            .put_at(number, stood, pseudokey, key, value)
            .map_err(|fault| fault_by(spent, fault))
    }

    fn remove_at(&mut self, number: PageNo, spot: Spot) -> Result<(), PagesFault>
        requires there { number < length (P.pages self.old.inner) }
        requires live { IfPage (P.pages self.old.inner) number IsLive }
        requires spot { IfPage (P.pages self.old.inner) number (λ page. (spot.index < length (records_of page)) × IsSpot (records_of page) spot) }
        requires taken { IfPage (P.pages self.old.inner) number (λ page. P.takes self.old.inner (with_records (remove (records_of page) spot.index) page)) }
        ensures ok { OnOk result (IfPage (P.pages self.old.inner) number (λ page. P.pages self.new.inner ≡ slice_set (P.pages self.old.inner) number (with_records (remove (records_of page) spot.index) page))) }
        ensures err { OnErr result (P.pages self.new.inner ≡ P.pages self.old.inner) }
        ensures failures { CountsFaults result (count_with self.old.failure (P.failures self.old.inner)) (count_with self.new.failure (P.failures self.new.inner)) }
        ensures takes { TakesTheSame P.takes self.old.inner self.new.inner }
        ensures due { IsTrue (is_due (P.failures self.old.inner) self.old.failure) → IsErrOf result PagesFault.Page }
        ensures others { is_due (P.failures self.old.inner) self.old.failure ≡ false → IsOfInner result (is_spent self.old.failure (P.failures self.old.inner)) (P.failures self.old.inner) (P.failures self.new.inner) }
        ensures counted { self.new.failure ≡ after_call (P.failures self.old.inner) PagesCall.Remove self.old.failure }
    {
        let spent = self.enter(PagesCall::Remove)?;
        self.inner
            .remove_at(number, spot)
            .map_err(|fault| fault_by(spent, fault))
    }

    fn set(&mut self, number: PageNo, page: Page) -> Result<(), PagesFault>
        requires there { number < length (P.pages self.old.inner) }
        requires taken { P.takes self.old.inner page }
        ensures ok { OnOk result (P.pages self.new.inner ≡ slice_set (P.pages self.old.inner) number page) }
        ensures err { OnErr result (P.pages self.new.inner ≡ P.pages self.old.inner) }
        ensures failures { CountsFaults result (count_with self.old.failure (P.failures self.old.inner)) (count_with self.new.failure (P.failures self.new.inner)) }
        ensures takes { TakesTheSame P.takes self.old.inner self.new.inner }
        ensures due { IsTrue (is_due (P.failures self.old.inner) self.old.failure) → IsErrOf result PagesFault.Page }
        ensures others { is_due (P.failures self.old.inner) self.old.failure ≡ false → IsOfInner result (is_spent self.old.failure (P.failures self.old.inner)) (P.failures self.old.inner) (P.failures self.new.inner) }
        ensures counted { self.new.failure ≡ after_call (P.failures self.old.inner) PagesCall.Set self.old.failure }
    {
        let spent = self.enter(PagesCall::Set)?;
        self.inner
            .set(number, page)
            .map_err(|fault| fault_by(spent, fault))
    }

    fn set_two(
        &mut self,
        number: PageNo,
        page: Page,
        other: PageNo,
        twin: Page,
    ) -> Result<(), PagesFault>
        requires there { number < length (P.pages self.old.inner) }
        requires other_there { other < length (P.pages self.old.inner) }
        requires apart { number ≢ other }
        requires taken { P.takes self.old.inner page }
        requires twin_taken { P.takes self.old.inner twin }
        ensures ok { OnOk result (P.pages self.new.inner ≡ slice_set (slice_set (P.pages self.old.inner) number page) other twin) }
        ensures err { OnErr result (P.pages self.new.inner ≡ P.pages self.old.inner) }
        ensures failures { CountsFaults result (count_with self.old.failure (P.failures self.old.inner)) (count_with self.new.failure (P.failures self.new.inner)) }
        ensures takes { TakesTheSame P.takes self.old.inner self.new.inner }
        ensures due { IsTrue (is_due (P.failures self.old.inner) self.old.failure) → IsErrOf result PagesFault.Page }
        ensures others { is_due (P.failures self.old.inner) self.old.failure ≡ false → IsOfInner result (is_spent self.old.failure (P.failures self.old.inner)) (P.failures self.old.inner) (P.failures self.new.inner) }
        ensures counted { self.new.failure ≡ after_call (P.failures self.old.inner) PagesCall.SetTwo self.old.failure }
    {
        let spent = self.enter(PagesCall::SetTwo)?;
        self.inner
            .set_two(number, page, other, twin)
            .map_err(|fault| fault_by(spent, fault))
    }

    fn grow_and_set(&mut self, new: Page, number: PageNo, page: Page) -> Result<(), PagesFault>
        requires there { number < length (P.pages self.old.inner) }
        requires room { length (P.pages self.old.inner) < 2 ^ 32 - 1 }
        requires new_taken { P.takes self.old.inner new }
        requires taken { P.takes self.old.inner page }
        ensures ok { OnOk result (P.pages self.new.inner ≡ slice_set (P.pages self.old.inner) number page ++ new ∷ []) }
        ensures err { OnErr result (P.pages self.new.inner ≡ P.pages self.old.inner) }
        ensures failures { CountsFaults result (count_with self.old.failure (P.failures self.old.inner)) (count_with self.new.failure (P.failures self.new.inner)) }
        ensures takes { TakesTheSame P.takes self.old.inner self.new.inner }
        ensures due { IsTrue (is_due (P.failures self.old.inner) self.old.failure) → IsErrOf result PagesFault.Page }
        ensures others { is_due (P.failures self.old.inner) self.old.failure ≡ false → IsOfInner result (is_spent self.old.failure (P.failures self.old.inner)) (P.failures self.old.inner) (P.failures self.new.inner) }
        ensures counted { self.new.failure ≡ after_call (P.failures self.old.inner) PagesCall.GrowAndSet self.old.failure }
    {
        let spent = self.enter(PagesCall::GrowAndSet)?;
        self.inner
            .grow_and_set(new, number, page)
            .map_err(|fault| fault_by(spent, fault))
    }

    fn split_into(&mut self, number: PageNo, right: PageNo) -> Result<(), PagesFault>
        requires there { number < length (P.pages self.old.inner) }
        requires right_there { right < length (P.pages self.old.inner) }
        requires apart { number ≢ right }
        requires divisible { IfPage (P.pages self.old.inner) number IsDivisible }
        requires taken { IfPage (P.pages self.old.inner) number (λ page. P.takes self.old.inner (left_half right page)) }
        requires right_taken { IfPage (P.pages self.old.inner) number (λ page. P.takes self.old.inner (right_half page)) }
        ensures ok { OnOk result (IfPage (P.pages self.old.inner) number (λ page. P.pages self.new.inner ≡ slice_set (slice_set (P.pages self.old.inner) number (left_half right page)) right (right_half page))) }
        ensures err { OnErr result (P.pages self.new.inner ≡ P.pages self.old.inner) }
        ensures failures { CountsFaults result (count_with self.old.failure (P.failures self.old.inner)) (count_with self.new.failure (P.failures self.new.inner)) }
        ensures takes { TakesTheSame P.takes self.old.inner self.new.inner }
        ensures due { IsTrue (is_due (P.failures self.old.inner) self.old.failure) → IsErrOf result PagesFault.Page }
        ensures others { is_due (P.failures self.old.inner) self.old.failure ≡ false → IsOfInner result (is_spent self.old.failure (P.failures self.old.inner)) (P.failures self.old.inner) (P.failures self.new.inner) }
        ensures counted { self.new.failure ≡ after_call (P.failures self.old.inner) PagesCall.SplitInto self.old.failure }
    {
        let spent = self.enter(PagesCall::SplitInto)?;
        self.inner
            .split_into(number, right)
            .map_err(|fault| fault_by(spent, fault))
    }

    fn split_off(&mut self, number: PageNo) -> Result<(), PagesFault>
        requires there { number < length (P.pages self.old.inner) }
        requires room { length (P.pages self.old.inner) < 2 ^ 32 - 1 }
        requires divisible { IfPage (P.pages self.old.inner) number IsDivisible }
        requires taken { IfPage (P.pages self.old.inner) number (λ page. P.takes self.old.inner (left_half (length (P.pages self.old.inner)) page)) }
        requires right_taken { IfPage (P.pages self.old.inner) number (λ page. P.takes self.old.inner (right_half page)) }
        ensures ok { OnOk result (IfPage (P.pages self.old.inner) number (λ page. P.pages self.new.inner ≡ slice_set (P.pages self.old.inner) number (left_half (length (P.pages self.old.inner)) page) ++ right_half page ∷ [])) }
        ensures err { OnErr result (P.pages self.new.inner ≡ P.pages self.old.inner) }
        ensures failures { CountsFaults result (count_with self.old.failure (P.failures self.old.inner)) (count_with self.new.failure (P.failures self.new.inner)) }
        ensures takes { TakesTheSame P.takes self.old.inner self.new.inner }
        ensures due { IsTrue (is_due (P.failures self.old.inner) self.old.failure) → IsErrOf result PagesFault.Page }
        ensures others { is_due (P.failures self.old.inner) self.old.failure ≡ false → IsOfInner result (is_spent self.old.failure (P.failures self.old.inner)) (P.failures self.old.inner) (P.failures self.new.inner) }
        ensures counted { self.new.failure ≡ after_call (P.failures self.old.inner) PagesCall.SplitOff self.old.failure }
    {
        let spent = self.enter(PagesCall::SplitOff)?;
        self.inner
            .split_off(number)
            .map_err(|fault| fault_by(spent, fault))
    }

    fn merge(&mut self, parent: Prefix, number: PageNo, buddy: PageNo) -> Result<(), PagesFault>
        requires there { number < length (P.pages self.old.inner) }
        requires buddy_there { buddy < length (P.pages self.old.inner) }
        requires apart { number ≢ buddy }
        requires live { IfPage (P.pages self.old.inner) number IsLive }
        requires buddy_live { IfPage (P.pages self.old.inner) buddy IsLive }
        requires rising { IfPage (P.pages self.old.inner) number (λ page. IfPage (P.pages self.old.inner) buddy (λ other. IsRising (records_of page ++ records_of other))) }
        requires taken { IfPage (P.pages self.old.inner) number (λ page. IfPage (P.pages self.old.inner) buddy (λ other. P.takes self.old.inner (union parent page other))) }
        requires sent_taken { IfPage (P.pages self.old.inner) buddy (λ other. P.takes self.old.inner (sent_to number other)) }
        ensures ok { OnOk result (IfPage (P.pages self.old.inner) number (λ page. IfPage (P.pages self.old.inner) buddy (λ other. P.pages self.new.inner ≡ slice_set (slice_set (P.pages self.old.inner) number (union parent page other)) buddy (sent_to number other)))) }
        ensures err { OnErr result (P.pages self.new.inner ≡ P.pages self.old.inner) }
        ensures failures { CountsFaults result (count_with self.old.failure (P.failures self.old.inner)) (count_with self.new.failure (P.failures self.new.inner)) }
        ensures takes { TakesTheSame P.takes self.old.inner self.new.inner }
        ensures due { IsTrue (is_due (P.failures self.old.inner) self.old.failure) → IsErrOf result PagesFault.Page }
        ensures others { is_due (P.failures self.old.inner) self.old.failure ≡ false → IsOfInner result (is_spent self.old.failure (P.failures self.old.inner)) (P.failures self.old.inner) (P.failures self.new.inner) }
        ensures counted { self.new.failure ≡ after_call (P.failures self.old.inner) PagesCall.Merge self.old.failure }
    {
        let spent = self.enter(PagesCall::Merge)?;
        self.inner
            .merge(parent, number, buddy)
            .map_err(|fault| fault_by(spent, fault))
    }
}

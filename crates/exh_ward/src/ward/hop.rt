ghost use Rattle.std.specs.Prelude.{◌≡◌, IfOk, IfErr, OnOk, OnErr};
ghost use Rattle.exh_prefix.specs.Prefix.{Begins};
ghost use Rattle.exh_calls.specs.Call.{key_of};
ghost use Rattle.exh_calls.specs.Effect.{change_of};
ghost use Rattle.exh_ward.specs.HopTable.{HopOf};
ghost use Rattle.exh_ward.specs.Sight.{IsAnswerOf};
ghost use Rattle.exh_ward.specs.WardFault.{IsStoreFault, CountsFailures};
ghost use Rattle.exh_ward.specs.WardState.{IsAnswered, IsSoundWard, IsUnchanged, LeavesAfter, own_prefix};
ghost use Rattle.exh_ward.specs.declared.hop.Hop.TheVariants.{Done};

use self::answer::write;
use self::home_sight::HomeSight;
use self::sight::Sight;
use super::Ward;
use crate::{Hop, WardFault};
use exh_calls::{Call, KeyChange, Reply};
use exh_keyer::Keyer;
use exh_legal::{pages_are_few, right_links_lead_on};
use exh_page::Spot;
use exh_prefix::PageNo;
use exh_stores::Pages;

mod answer;
mod home_sight;
mod sight;

impl<P: Pages + Drop, K: Keyer> Ward<P, K> {
    /// One hop of a client's call, at the page of number `at`. The ward covers the call's key. What
    /// the hop comes to, and what it leaves, is the hop table's (exhash's own; Fagin et al. 1979
    /// for buckets that overflow): only `Done` changes the ward, by the call's change of the map and
    /// one entry of the journal. Where it is refused, `WardFault::Memory` or `WardFault::Page`, the
    /// ward is as before.
    pub fn hop(&mut self, at: PageNo, client: u32, call: &Call) -> Result<Hop, WardFault>
        requires { Begins (own_prefix self.old) (K.pseudokey_of self.old.keyer (key_of call.now)) }
        ensures hop { IfOk result (HopOf self.old.cap (K.pseudokey_of self.old.keyer) self.old.pages at call.now) }
        ensures leaves { IfOk result (λ hop. LeavesAfter K.pseudokey_of self.old at client call.now hop self.new) }
        ensures err { OnErr result (IsUnchanged self.old self.new) }
        ensures fault { IfErr result IsStoreFault }
        ensures failures { CountsFailures result self.old.failures self.new.failures }
        ensures sound { IsSoundWard K.pseudokey_of self.new }
    {
        let pseudokey = self.keyer.pseudo(call.key().as_bytes());
        self.hop_hashed(at, client, call, pseudokey)
    }

    /// The same hop, for a caller that has the pseudokey of the call's key at hand.
    pub fn hop_hashed(
        &mut self,
        at: PageNo,
        client: u32,
        call: &Call,
        pseudokey: u64,
    ) -> Result<Hop, WardFault>
        requires hashed { pseudokey ≡ K.pseudokey_of self.old.keyer (key_of call.now) }
        requires covered { Begins (own_prefix self.old) pseudokey }
        ensures hop { IfOk result (HopOf self.old.cap (K.pseudokey_of self.old.keyer) self.old.pages at call.now) }
        ensures leaves { IfOk result (λ hop. LeavesAfter K.pseudokey_of self.old at client call.now hop self.new) }
        ensures err { OnErr result (IsUnchanged self.old self.new) }
        ensures fault { IfErr result IsStoreFault }
        ensures failures { CountsFailures result self.old.failures self.new.failures }
        ensures sound { IsSoundWard K.pseudokey_of self.new }
    {
        right_links_lead_on();
        if at >= self.store.count() {
            return Ok(Hop::Stray);
        }
        self.store.reach(at)?;
        let found = self.store.find(at, pseudokey, call.key());
        let HomeSight { full, spot, stood } = match Sight::of(found, self.cap, pseudokey, call) {
            Sight::Beyond => return Ok(Hop::Stray),
            Sight::Leads(next) => return Ok(Hop::Moved(next)),
            Sight::NoWay => unreachable!(),
            Sight::Overflows => return Ok(Hop::MustSplit),
            Sight::Home(home) => home,
        };
        let change = call.change(full, &stood);
        let reply = call.reply(full, &stood);
        self.answer_at(at, client, call, pseudokey, spot, change, &reply)?;
        Ok(Hop::Done(reply))
    }

    // Answers a call at its home page: makes the change where the record stands, and the journal's entry.
    fn answer_at(
        &mut self,
        at: PageNo,
        client: u32,
        call: &Call,
        pseudokey: u64,
        spot: Option<Spot>,
        change: KeyChange<'_>,
        reply: &Reply,
    ) -> Result<(), WardFault>
        requires hashed { pseudokey ≡ K.pseudokey_of self.old.keyer (key_of call.now) }
        requires answer { IsAnswerOf self.old.cap pseudokey self.old.pages at call.now spot (change_of change) reply.now }
        ensures hop { OnOk result (HopOf self.old.cap (K.pseudokey_of self.old.keyer) self.old.pages at call.now (Done reply.now)) }
        ensures leaves { OnOk result (IsAnswered K.pseudokey_of self.old at client call.now reply.now self.new) }
        ensures err { OnErr result (IsUnchanged self.old self.new) }
        ensures fault { IfErr result IsStoreFault }
        ensures failures { CountsFailures result self.old.failures self.new.failures }
        ensures sound { IsSoundWard K.pseudokey_of self.new }
    {
        pages_are_few();
        // Room for the entry first: nothing may fail once the page has changed.
        self.journal.reserve()?;
        write(&mut self.store, at, spot, pseudokey, call.key(), change)?;
        self.journal.push_reserved(client, call, reply);
        Ok(())
    }
}

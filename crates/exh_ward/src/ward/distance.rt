ghost use Rattle.std.specs.Prelude.{◌≡◌, ◌≤◌, ◌^◌, ℕ, Option, IfOk, IfErr, OnErr};
ghost use Rattle.exh_prefix.specs.declared.prefix.TheConstants.{LIMIT};
ghost use Rattle.exh_ward.specs.Distance.{IsDistance, live_between};
ghost use Rattle.exh_ward.specs.FirstLive.{IsFirstLive, IsLivePage};
ghost use Rattle.exh_ward.specs.WardFault.{CountsFailures, PageRefused, IsStoreFault};
ghost use Rattle.exh_ward.specs.WardState.{IsSoundWard, IsUnchanged};

use super::Ward;
use crate::WardFault;
use exh_keyer::Keyer;
use exh_legal::pages_are_few;
use exh_page::PageHead;
use exh_prefix::PageNo;
use exh_stores::Pages;

// The first live page on the way from a page.
#[derive(Clone, Copy)]
struct FirstLive {
    // How many forwarding pages are before it.
    forwards: u32,
    low: u64,
    right: Option<PageNo>,
}

impl<P: Pages + Drop, K: Keyer> Ward<P, K> {
    /// How many moves a page is from the answer for a pseudokey: the forwarding pages on the way to the
    /// first live page, and the live pages whose low bound is above that one's and at most the
    /// pseudokey. It reads the heads of those pages and two more at most. Refused: `NoPage`; at any
    /// point `Memory` and `Page`. The ward is as before.
    pub fn distance(&mut self, page: PageNo, pseudokey: u64) -> Result<u32, WardFault>
        ensures distance { IfOk result (IsDistance self.old.pages page pseudokey) }
        ensures refused { IfErr result (PageRefused self.old.pages page) }
        ensures ok { IfOk result (λ _. self.new ≡ self.old) }
        ensures err { OnErr result (IsUnchanged self.old self.new) }
        ensures failures { CountsFailures result self.old.failures self.new.failures }
        ensures sound { IsSoundWard K.pseudokey_of self.new }
    {
        let first = self.find_live(page)?;
        let beyond = self.count_beyond(first, pseudokey)?;
        Ok(first.forwards + beyond)
    }

    // The first live page on the way from a page.
    fn find_live(&mut self, page: PageNo) -> Result<FirstLive, WardFault>
        ensures first { IfOk result (IsFirstLive self.old.pages page) }
        ensures few { IfOk result (λ first. first.forwards ≤ 64) }
        ensures refused { IfErr result (PageRefused self.old.pages page) }
        ensures ok { IfOk result (λ _. self.new ≡ self.old) }
        ensures err { OnErr result (IsUnchanged self.old self.new) }
        ensures failures { CountsFailures result self.old.failures self.new.failures }
        ensures sound { IsSoundWard K.pseudokey_of self.new }
    {
        let mut at = page;
        let mut forwards = 0;
        'forwards: loop {
            match self.head(at)? {
                PageHead::Live { prefix, right, .. } => {
                    return Ok(FirstLive {
                        forwards,
                        low: prefix.low(),
                        right,
                    });
                }
                PageHead::Forward { target, .. } => at = target,
            }
            forwards += 1;
        }
    }

    // How many live pages have a low bound above a live page's and at most the pseudokey.
    fn count_beyond(&mut self, first: FirstLive, pseudokey: u64) -> Result<u32, WardFault>
        requires live { (number : ℕ) × IsLivePage self.old.pages number first.low first.right }
        requires sound { IsSoundWard K.pseudokey_of self.old }
        ensures count { IfOk result (λ count. count ≡ live_between self.old.pages first.low pseudokey) }
        ensures few { IfOk result (λ count. count ≤ 2 ^ LIMIT) }
        ensures fault { IfErr result IsStoreFault }
        ensures ok { IfOk result (λ _. self.new ≡ self.old) }
        ensures err { OnErr result (IsUnchanged self.old self.new) }
        ensures failures { CountsFailures result self.old.failures self.new.failures }
        ensures sound { IsSoundWard K.pseudokey_of self.new }
    {
        pages_are_few();
        let mut count = 0;
        let mut next = first.right;
        while let Some(number) = next {
            let (low, right) = self.live_at(number)?;
            if low > pseudokey {
                return Ok(count);
            }
            next = right;
            count += 1;
        }
        Ok(count)
    }

    // The low bound and the right link of a live page.
    fn live_at(&mut self, number: PageNo) -> Result<(u64, Option<PageNo>), WardFault>
        requires { (low : ℕ) × (right : Option ℕ) × IsLivePage self.old.pages number low right }
        ensures live { IfOk result (λ found. IsLivePage self.old.pages number found.0 found.1) }
        ensures fault { IfErr result IsStoreFault }
        ensures ok { IfOk result (λ _. self.new ≡ self.old) }
        ensures err { OnErr result (IsUnchanged self.old self.new) }
        ensures failures { CountsFailures result self.old.failures self.new.failures }
        ensures sound { IsSoundWard K.pseudokey_of self.new }
    {
        match self.head(number)? {
            PageHead::Live { prefix, right, .. } => Ok((prefix.low(), right)),
            PageHead::Forward { .. } => unreachable!(),
        }
    }
}

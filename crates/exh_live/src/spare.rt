ghost use Rattle.std.specs.Prelude.{◌≡◌, ◌+◌, ◌<◌};

use std::marker::Model;
use std::sync::ledger::{Ledger, Share};

/// The parts of a ledger that nobody has been given. A `&` to it gives nothing away, so that a file
/// which keeps one may be shared by threads.
#[derive(Drop)]
pub(crate) struct Spare<L: Ledger> {
    share: Share<L>,
}

// It owns nothing beside its share. That it says so lets its `Sync` be proved.
impl<L: Ledger> Model for Spare<L> {
    ghost use Rattle.exh_live.specs.Spare.{SpareState};
    ghost use base.Fml.{ftrue};

    ghost Value = { SpareState };

    ghost view = { λ a. record { parts = a.share.parts; amount = a.share.amount } };

    ghost also_owns = { λ _. ftrue };
}

unsafe impl<L: Ledger> Sync for Spare<L> {}

impl<L: Ledger> Spare<L> {
    pub(crate) fn new(share: Share<L>) -> Spare<L>
        ensures parts { result.parts ≡ share.parts }
        ensures amount { result.amount ≡ share.amount }
    {
        Spare { share }
    }

    /// One part, of those that have no amount.
    pub(crate) fn part(&mut self) -> Share<L>
        requires some { 1 < self.old.parts }
        requires none { self.old.amount ≡ 0 }
        ensures part { result.parts ≡ 1 }
        ensures amount { result.amount ≡ 0 }
        ensures left { self.new.parts + 1 ≡ self.old.parts }
        ensures none { self.new.amount ≡ 0 }
    {
        self.share.split_off(1, 0)
    }

    /// All of them.
    pub(crate) fn into_share(self) -> Share<L>
        ensures parts { result.parts ≡ self.parts }
        ensures amount { result.amount ≡ self.amount }
    {
        let Spare { share } = self;
        share
    }
}

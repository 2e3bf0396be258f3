ghost use Rattle.std.specs.Prelude.{ℕ, Bool, Result, IfErr};
ghost use Rattle.exh_calls.specs.declared.call.Call.{Call as CallValue};
ghost use Rattle.exh_calls.specs.declared.reply.Reply.{Reply as ReplyValue};
ghost use Rattle.exh_walk.specs.WardRun.{WardEvent, HopAt, SplitAt};
ghost use Rattle.exh_walk.specs.CallerWalk.{IsWalked, MayBeAsked, ServesOn};
ghost use Rattle.exh_walk.specs.declared.ask_fault.AskFault.{AskFault as AskFaultValue};
ghost use Rattle.exh_ward.specs.WardFault.{IsStoreFault};

use crate::Gate;
use exh_calls::Call;
use exh_notice::Notice;
use exh_prefix::PageNo;
use exh_ward::{Hop, WardFault};

/// What can hop and split, as a ward can: by itself, or behind a lock with others that step between.
pub trait Steps {
    /// What each hop and each split keeps: what is before it, what was asked and came of it, what is
    /// after it.
    ghost step: { Self → WardEvent → Self → Type 0 };

    /// The calls that it may be asked for, each with its pseudokey.
    ghost serves: { Self → CallValue → ℕ → Type 0 };

    /// What a walk under a gate keeps: what is before it, the answers that the gate may give at each
    /// turn, the page, the client and the call, what came of it, and what is after it.
    ghost walked: { Self → (ℕ → Bool → Type 0) → ℕ → ℕ → CallValue → Result ReplyValue AskFaultValue → Self → Type 0 };

    /// The pseudokey of the key of a call that it may be asked for.
    fn pseudokey(&self, call: &Call) -> u64
        requires { MayBeAsked serves self.now call.now }
        ensures { serves self.now call.now result };

    /// One hop of a client's call, at the page of number `at`. Refused: `WardFault::Memory` and
    /// `WardFault::Page`.
    fn hop(&mut self, at: PageNo, client: u32, call: &Call) -> Result<Hop, WardFault>
        requires { MayBeAsked serves self.old call.now }
        ensures step { step self.old (HopAt at client call.now result) self.new }
        ensures fault { IfErr result IsStoreFault }
        ensures serves { ServesOn serves self.old self.new }
    {
        let pseudokey = self.pseudokey(call);
        self.hop_hashed(at, client, call, pseudokey)
    }

    /// `hop`, by who has the pseudokey of the call's key.
    fn hop_hashed(
        &mut self,
        at: PageNo,
        client: u32,
        call: &Call,
        pseudokey: u64,
    ) -> Result<Hop, WardFault>
        requires { serves self.old call.now pseudokey }
        ensures step { step self.old (HopAt at client call.now result) self.new }
        ensures fault { IfErr result IsStoreFault }
        ensures serves { ServesOn serves self.old self.new };

    /// Splits the page of number `at`. A refusal other than `WardFault::Memory` and `WardFault::Page`
    /// says that the page needs no split any more, or can't be split.
    fn split(&mut self, at: PageNo) -> Result<Notice, WardFault>
        ensures step { step self.old (SplitAt at result) self.new }
        ensures serves { ServesOn serves self.old self.new };

    /// Each walk of its steps that begins now, under this gate, is what `walked` says. It does nothing.
    fn walks_are_walked<G: Gate>(&self, gate: &G)
        ensures { (at client : ℕ) (call : CallValue) (pseudokey : ℕ) (answer : Result ReplyValue AskFaultValue) (after : Self) → serves self.now call pseudokey → IsWalked step (G.may gate.now client) self.now at client call pseudokey answer after → walked self.now (G.may gate.now client) at client call answer after };
}

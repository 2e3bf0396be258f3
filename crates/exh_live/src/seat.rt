ghost use Rattle.std.specs.Prelude.{◌≡◌, ◌≤◌, [], length};
ghost use Rattle.exh_calls.specs.declared.diary.TheConstants.{CALLER_LIMIT};
ghost use Rattle.exh_live.specs.LiveFile.{IsDiaryOf};

use crate::Identity;
use crate::ledgers::Answers;
use exh_calls::Diary;
use std::alloc::Global;
use std::marker::Model;
use std::sync::ledger::Share;
use thiserror::Error;

/// One caller of a live file: its diary, and its share of the answers, which is the diary's length.
#[derive(Drop)]
pub struct Seat<F: Identity> {
    pub(crate) diary: Diary,
    pub(crate) answers: Share<Answers<F>>,
}

impl<F: Identity> Model for Seat<F> {
    ghost use Rattle.std.specs.Prelude.{◌≡◌, length};
    ghost use Rattle.exh_live.specs.LiveFile.{SeatState};

    ghost Value = { SeatState };

    ghost view = { λ a. record { client = a.diary.client; entries = a.diary.entries } };

    ghost invariant = { λ a. (a.answers.parts ≡ 1) × (a.answers.amount ≡ length a.diary.entries) };
}

impl<F: Identity> Seat<F> {
    /// A seat that was answered nothing, with its part of the ledger of answers.
    pub(crate) fn new(alloc: Global, client: u32, answers: Share<Answers<F>>) -> Seat<F>
        requires some { 1 ≤ client }
        requires limit { client ≤ CALLER_LIMIT }
        requires part { answers.parts ≡ 1 }
        requires none { answers.amount ≡ 0 }
        ensures { result ≡ record { client = client; entries = [] } }
    {
        Seat {
            diary: Diary::new(alloc, client),
            answers,
        }
    }

    /// The diary, and the share.
    pub(crate) fn into_parts(self) -> (Diary, Share<Answers<F>>)
        ensures diary { IsDiaryOf self result.0 }
        ensures part { result.1.parts ≡ 1 }
        ensures counted { result.1.amount ≡ length result.0.entries }
    {
        let Seat { diary, answers } = self;
        (diary, answers)
    }

    /// What the caller was answered, under its number.
    pub fn diary(&self) -> &Diary
        ensures { IsDiaryOf self.now result.now }
    {
        &self.diary
    }
}

/// All seats of a file are taken.
#[derive(Clone, Copy, Debug, Error)]
#[error("all seats are taken")]
pub struct NoSeat;

impl NoSeat {
    /// The refusal's number in texts.
    pub const NUMBER: u8 = 52;
}

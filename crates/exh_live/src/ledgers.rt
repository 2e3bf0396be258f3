ghost use Rattle.std.specs.Prelude.{ℕ};

use exh_calls::CALLER_LIMIT;
use std::marker::{Brand, PhantomData};
use std::sync::ledger::Ledger;

/// The parts of the ledger of answers: one for each seat, one that is never given to any, and what the
/// sixteen wards that a file may have leave of 2^64 parts to the ledger of entries.
pub const ANSWER_PARTS: u64 = CALLER_LIMIT as u64 + 1 + (u64::MAX - ENTRY_PARTS + 1);

/// The parts of the ledger of entries: 16^n for ward n, of the sixteen that a file may have.
pub const ENTRY_PARTS: u64 = 0x1111_1111_1111_1111;

/// The names of a file's two ledgers.
pub trait LedgerNames {
    /// That of the ledger of answers.
    ghost answers: { ℕ };

    /// That of the ledger of journal entries.
    ghost entries: { ℕ };
}

/// By which a call picks the ledgers.
impl LedgerNames for Brand {
    ghost answers = { 0 };

    ghost entries = { 0 };
}

/// The ledger of the answers that a file's callers got.
pub struct Answers<F>(PhantomData<F>);

/// The ledger of the entries in a file's journals.
pub struct Entries<F>(PhantomData<F>);

impl<F: LedgerNames> Ledger for Answers<F> {
    ghost use Rattle.exh_live.specs.declared.ledgers.TheConstants.{ANSWER_PARTS};

    ghost name = { F.answers };

    ghost parts = { ANSWER_PARTS };
}

impl<F: LedgerNames> Ledger for Entries<F> {
    ghost use Rattle.exh_live.specs.declared.ledgers.TheConstants.{ENTRY_PARTS};

    ghost name = { F.entries };

    ghost parts = { ENTRY_PARTS };
}

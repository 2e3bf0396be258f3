//! Live files: wards behind locks, for callers, keepers and couriers on threads of their own. And a storm:
//! all of these over one new live file, at once; what they leave is settled.
//!
//! Wards behind locks, and callers on threads of their own, with two ledgers that join what the
//! callers were answered to what the wards keep of it.
#![tactic(auto)]

pub use call::storm_call;
pub use caller::Caller;
pub use close::{CloseFault, Closed, NotClosed};
pub use courier::{COURIER_CLIENT, Courier};
pub use cursors::Cursors;
pub use exh_calls::{Diary, DiaryEntry, Mismatch, Settled};
pub use exh_page::StormConfig;
pub use exh_walk::{AskFault, Gate, OpenGate, Steps, TURN_LIMIT, TurnGate, walk_steps};
pub use fault::StormFault;
pub use file::{StormEnd, StormFile, StormLeft, StormWard, new_file};
pub use identity::Identity;
pub use keeper::{KEEPER_CLIENT, Keeper};
pub use laws::cursors_go_on_with_wards;
pub use ledgers::{ANSWER_PARTS, Answers, ENTRY_PARTS, Entries, LedgerNames};
pub use live_file::LiveFile;
pub use lock::lock_soon;
pub use open_copy::OpenCopy;
pub use outcomes::{Outcome, Outcomes};
pub use run::{storm, storm_left, storm_over};
pub use seat::{NoSeat, Seat};
pub use settlement::settle;
pub use ward_journals::WardJournals;
pub use watch::{NoWatch, Watch};
pub use workers::{Workers, new_workers};

mod ask;
mod call;
mod caller;
mod close;
mod courier;
mod courier_round;
mod cursors;
mod fault;
mod file;
mod identity;
mod keeper;
mod keeper_round;
mod laws;
mod ledgers;
mod live_file;
mod lock;
mod locked_ward;
mod open_copy;
mod outcomes;
mod overseers;
mod run;
mod seat;
mod settlement;
mod spare;
mod tallied_ward;
mod tally;
mod threads;
mod ward_journals;
mod watch;
mod workers;

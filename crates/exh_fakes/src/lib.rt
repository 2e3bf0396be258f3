//! What fails on purpose: readers, writers, stores of pages, and terminals whose clock a test sets. What the crates below
//! do over these no contract says, and no script can ask of the program. It has tests alone.
//!
//! What stories of live files are made of: new files and their callers, the calls that these ask, rounds of keepers and
//! couriers, and what the files leave; on threads, counts that threads raise and wait for, gates by rules over them, and
//! stores of pages that count, or wait, where they are looked at. What is refused memory is asked once more.
#![tactic(auto)]

pub use caller::{
    Caller, File, PlainFile, Reader, ask, is_held, is_told, next_caller, two_callers, two_seats,
};
pub use conductor::{Conductor, Count};
pub use file::{WatchedFile, watched_file};
pub use files::{CAP, PlainWard, close, close_settled, new_file, one_ward_file, settled};
pub use live_step::{LiveStep, take_steps};
pub use rounds::{Writer, is_carried, is_kept, keep};
pub use rule::{Rule, Then, Who};
pub use watched_pages::{
    CAME_BETWEEN, HAS_MERGED, IS_LATE, IS_OVER, IS_READ, LOOKS, Look, MAY_GO, WatchedMaker,
    WatchedPages,
};

mod caller;
mod conductor;
#[cfg(test)]
mod couriers;
#[cfg(test)]
mod differing;
mod file;
mod files;
#[cfg(test)]
mod inputs;
pub mod lists;
mod live_step;
#[cfg(test)]
mod meters;
#[cfg(test)]
mod outputs;
#[cfg(test)]
mod page_files;
mod rounds;
mod rule;
#[cfg(test)]
mod stores;
#[cfg(test)]
mod storm_meters;
mod watched_pages;

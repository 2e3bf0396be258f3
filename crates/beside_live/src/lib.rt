//! Stories of live files beside what was worked out by hand: of callers on one thread and on many, and of storms.
#![tactic(auto)]

pub use exh_live::{NoWatch, OpenGate, storm_over};
pub use live_stories::play_live;
pub use thread_stories::play_threads;

mod ask;
mod callers;
mod closing;
mod counter;
mod faults;
mod held_look;
mod live_stories;
mod locks;
mod many_pages;
mod one_caller;
mod refill;
mod storms;
mod story;
mod thread_stories;
mod written_ward;

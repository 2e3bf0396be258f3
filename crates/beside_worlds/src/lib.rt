//! Runs over worlds and page files beside what was worked out by hand: lines of scripts over worlds that no script begins,
//! and calls that are refused on purpose.
#![tactic(auto)]

pub use exh_script::{ServeFault, serve_over};
pub use line_runs::run_lines;
pub use refusal_runs::run_refusals;

mod alike;
mod anew;
mod answers;
mod failing_maker;
mod faults;
mod line_runs;
mod listed_pages;
mod lists;
mod lives;
mod page_turns;
mod played;
mod readers;
mod refusal_runs;
mod row;
mod steps;
mod stores;
mod three_pairs;
mod turns;
mod writers;

//! What the runs beside the program, and tests, are made of: calls by the bytes of their keys and values, notices, wards, the
//! calls of wards, each made once more where memory was refused, what fails on purpose, and for each kind of run how many
//! steps it took, and how many of them differed.
#![tactic(auto)]

pub use broken_pages::BrokenPages;
pub use calls::{Asked, key, value};
pub use dice::Dice;
pub use difference::{Difference, Part, same};
pub use fakes::{FakeReader, FakeWriter, WriteRefusal};
pub use job::{Job, named};
pub use kind::{Named, RunKind};
pub use lie::Lie;
pub use new_ward::first_store;
pub use notices::{merge, prefix, split};
pub use opened::opened_ward;
pub use page_file::three_pairs;
pub use program::{has_told_difference, own_words, run_kinds};
pub use replies::told_reply;
pub use run::Run;
pub use said::Said;
pub use same_pages::are_same;
pub use screen::Screen;
pub use status::Status;
pub use tally::Tally;
pub use ward_calls::{hop_of, refused, split_page};

mod again;
mod broken_pages;
mod calls;
mod dice;
mod difference;
mod fakes;
mod job;
mod kind;
mod lie;
mod new_ward;
mod notices;
mod opened;
mod page_file;
mod program;
mod replies;
mod run;
mod said;
mod same_pages;
mod screen;
mod status;
mod tally;
mod ward_calls;

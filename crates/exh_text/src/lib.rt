//! Words and lines of texts, and what is printed: a number, key or value is printed as one word that reads back as the
//! same.
//!
//! What standard error says of a run beside its text: a line each, of the first ten of a kind, and then how many more.
#![tactic(auto)]

pub use byte_word::{ByteWord, parse_key, parse_pair};
pub use contents::{push_entry, push_entry_line, push_forward_page, push_live_page};
pub use escaped::Escaped;
pub use expect::Expect;
pub use file_line::{COPIES_LIMIT, parse_file_line};
pub use kind::Kind;
pub use laws::{
    newlines_part_lines, numbers_are_decimal, printed_is_read, printed_places_are_told,
    printed_prefixes_are_told, spaces_part_words,
};
pub use line_fault::LineFault;
pub use lines::{Lines, split_words};
pub use listener::{Listener, Silent};
pub use notes::Notes;
pub use number::{parse_u32, parse_u32_after, parse_u64};
pub use parts::Parts;
pub use printing::{push_number, push_place, push_prefix, push_refused, push_text, push_value};
pub use reason_reader::ReasonReader;
pub use reason_writer::ReasonWriter;
pub use reply_text::push_reply;
pub use script::SCRIPT_LIMIT;
pub use settings::Settings;

mod byte_word;
mod contents;
mod escaped;
mod expect;
mod file_line;
mod kind;
mod laws;
mod line_fault;
mod line_number;
mod lines;
mod listener;
mod note;
mod notes;
mod number;
mod parts;
mod printing;
mod reason_reader;
mod reason_writer;
mod reply_text;
mod script;
mod settings;
mod tally;
mod texts;
mod wrong_word;

//! What `check`, `dump` and `pairs` say of the bytes of a reader: the texts of a legal page file, and of a refusal; and
//! whether a journal is a history, which an audit says.
#![tactic(auto)]

pub use exh_model::audit;
pub use exh_versions::{FileForm, PlacedForm, legal_bytes_are_files};
pub use other_settings::OtherSettings;
pub use refusal_line::{push_block, push_refusal};
pub use report::{check_onto, dump_onto, pairs_onto};
pub use report_fault::ReportFault;
pub use texts::{check_text, dump_text};
pub use verdict::Verdict;

mod check;
mod counts;
mod dump;
mod file_lines;
mod other_settings;
mod pairs;
mod refusal_line;
mod report;
mod report_fault;
mod texts;
mod verdict;

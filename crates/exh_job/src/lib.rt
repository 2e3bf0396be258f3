//! The jobs of the program that work on page files: what each opens and saves, what is said of it, and the status with
//! which the program ends.
//!
//! What a run over a page file prints: what is in it, a refusal; the last line, and the exit status.
#![tactic(auto)]

pub use ending::Ending;
pub use exh_frames::MAKER;
pub use exh_map::{INPUT, Reason, tell_reason, with_reason};
pub use exh_report::OtherSettings;
pub use file_run::{Topic, tell_file};
pub use held_file::HeldFile;
pub use job_path::{JobPath, path_of};
pub use last_line::{
    OUT_OF_MEMORY, UNOPENED, print_last, print_line, print_out_of_memory, tell_line,
};
pub use laws::pairs_load_again;
pub use open_run::{Unopened, open_file};
pub use opened::{open_at, opened_at};
pub use replacing::save_of_job;
pub use saving::{save_new, warn};
pub use sentence::tell_fault;
pub use standard::{convert, tell_path};
pub use standard_load::load;
pub use status::Status;
pub use stores::FileWards;
pub use watch::{console, reading_meter};

mod drafting;
mod ending;
mod file_run;
mod file_watch;
mod form_saved;
mod held_file;
mod job_path;
mod last_line;
mod laws;
mod load_run;
mod numbered_writer;
mod open_run;
mod opened;
mod replaced_file;
mod replacing;
mod saving;
mod sentence;
mod standard;
mod standard_load;
mod status;
mod stores;
mod watch;

//! The everyday commands over page files: what each prints of what the library `exhash` answers, what standard error says
//! where it is refused, and the status with which the program ends.
#![tactic(auto)]

pub use exh_transfer::{
    Ending, FileWards, HeldFile, INPUT, JobPath, MAKER, OUT_OF_MEMORY, OtherSettings, Status,
    Topic, console, convert, load, opened_at, path_of, print_last, print_line, print_out_of_memory,
    save_new, save_of_job, tell_line, tell_path, tell_reason, warn,
};
pub use performing::perform;

mod answer;
mod backup;
mod change;
mod changed_file;
mod creation;
mod deletion;
mod found;
mod get;
mod key_values;
mod open_file;
mod performing;
mod printing;
mod shown;
mod wanted;

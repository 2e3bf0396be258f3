//! The run of an everyday command: what it has, what it reads of standard input, how it prints, and what standard error says
//! where it is refused.
#![tactic(auto)]

pub use exh_job::{
    Ending, FileWards, HeldFile, JobPath, MAKER, OUT_OF_MEMORY, OtherSettings, Status, Topic,
    console, convert, load, opened_at, path_of, print_last, print_line, print_out_of_memory,
    save_new, save_of_job, tell_line, tell_path, tell_reason, warn,
};
pub use exhash::{
    BackupFault, BytesBlocks, Direct, FileBlocks, INPUT, PageLog, Pairs, Put, Reason, Settings,
    Store, StoreError, backup_within, find_any, make, open_regular, pause_after, read_beside,
    unread_at, with_reason,
};
pub use input::{input_keys, input_value};
pub use log_name::is_for_log;
pub use printing::tell_text;
pub use refusal::{
    is_nothing_at, key_word, made_status, refuse_change, refuse_reading, tell_absent, tell_full,
    tell_refused,
};
pub use run::Run;
pub use saving::save;

mod input;
mod log_name;
mod printing;
mod refusal;
mod run;
mod saving;
mod wrong_input;

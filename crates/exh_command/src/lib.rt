//! The command line of the program `exhash` but for the everyday commands: its words, the help, and the job that words
//! name.
//!
//! The texts of the help of the program `exhash`: of each command what it does, how it is used, and what stands behind its
//! options. Each line has at most 80 columns.
#![tactic(auto)]

pub use fault::CliFault;
pub use help::{manual_text, not_text, usage_error};
pub use job::{Job, job_of};
pub use load_way::LoadWay;
pub use page_file_version::PageFileVersion;
pub use parser::PROGRAM_VERSION;

pub mod backup;
pub mod check;
pub mod compact;
pub mod convert;
pub mod create;
pub mod del;
pub mod dump;
pub mod export;
mod fault;
pub mod get;
mod help;
pub mod import;
mod job;
pub mod load;
mod load_way;
pub mod manual;
mod names;
mod page_file_version;
pub mod pairs;
mod parser;
pub mod program;
pub mod put;
pub mod salvage;
pub mod serve;
pub mod stats;
pub mod storm;
pub mod swap;
pub mod version;

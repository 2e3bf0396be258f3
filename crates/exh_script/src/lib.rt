//! Scripts: what each line does to a world and prints, and the text of a whole script over whatever world its first line
//! begins.
#![tactic(auto)]

pub use doors::{load, serve, serve_from};
pub use ended::Ended;
pub use exh_load::{OpenFault, Opened, SaveFault, open, open_over, read_file, write_file};
pub use exh_page::Config;
pub use exh_world::{Event, Outcome, StepFault, World};
pub use laws::{
    lines_go_alike, lines_keep_settings, refused_lines_leave_the_others, replies_are_one_maps,
    replies_follow_any_start,
};
pub use response::push_response;
pub use response_fault::ResponseFault;
pub use run::Run;
pub use run_fault::RunFault;
pub use serve_fault::ServeFault;
pub use serve_laws::{done_runs_leave_wards, replies_follow_the_file};
pub use server::serve_over;

mod beginning;
mod begun;
mod doors;
mod ended;
mod in_flight_text;
mod laws;
mod respond;
mod response;
mod response_fault;
mod run;
mod run_fault;
mod serve_fault;
mod serve_laws;
mod server;

//! The caller's walk: hops of one call from a page on, with splits where a page is full for it, under a gate that is
//! asked before each hop; over anything that can hop and split.
//!
//! The ways of requests through one ward: what lists of hops, splits and merges keep of it, and how far a page is from
//! a key's home.
//!
//! Events of a world, and what they come to.
#![tactic(auto)]

pub use ask_fault::AskFault;
pub use distance_laws::{
    changes_add_one, late_tables_are_near, moves_are_bounded, steps_add_changes,
    whole_tables_name_homes,
};
pub use event::Event;
pub use gate::{Gate, OpenGate, TurnGate};
pub use laws::{
    distances_are_computed, distances_are_few, gets_go_home, moves_come_nearer, named_pages_stay,
    one_distance, pages_stay, runs_keep_wards_sound_and_one_map,
};
pub use outcome::Outcome;
pub use step_fault::StepFault;
pub use steps::Steps;
pub use turn::Turn;
pub use walk::{TURN_LIMIT, walk_steps};

mod ask_fault;
mod distance_laws;
mod event;
mod gate;
mod laws;
mod outcome;
mod step_fault;
mod steps;
mod turn;
mod walk;
mod ward_steps;

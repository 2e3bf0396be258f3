//! A world: the wards of an extendible hash file (Fagin et al. 1979), the copies of its directory, and the requests in
//! flight, with whatever may happen to them as an event.
#![tactic(auto)]

pub use exh_page::Config;
pub use exh_walk::{Event, Outcome, StepFault, Turn};
pub use headline_laws::{
    answers_come_from_the_one_leaf, combines_give_the_join, copies_take_notices, hops_lead_on,
    only_answers_change_the_map, replies_follow_the_answers_before, runs_go_step_by_step,
    same_notices_give_same_tables,
};
pub use in_flight::Requests;
pub use laws::{
    new_worlds_are_sound, page_faults_are_counted, refused_turns_leave_the_others,
    runs_carry_the_headline, steps_are_computed, steps_go_alike, steps_have_outcomes,
    steps_keep_worlds_sound, worlds_of_wards_are_sound,
};
pub use move_laws::{current_copies_look_once, moves_are_counted};
pub use request::Request;
pub use world::World;

mod headline_laws;
mod in_flight;
mod laws;
mod move_laws;
mod request;
mod slot;
mod world;

//! Values that are ordered and joined, so that it doesn't matter in which order, how often or by
//! which way they arrive.
#![tactic(auto)]

pub use greatest::Greatest;
pub use join::Join;
pub use joined::join_all;
pub use laws::{joins_are_least, replicas_agree};
pub use pair_of::PairOf;
pub use replica::Replica;

mod greatest;
mod join;
mod joined;
mod laws;
mod pair_of;
mod replica;

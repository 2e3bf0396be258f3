//! The definitions of calls, leaves and tables as plain slow code, for programs, tests and the audit to run beside the
//! crates that are fast. What each call answers is its definition, and nothing of those crates is used but the types of
//! calls, replies, prefixes and notices.
#![tactic(auto)]

pub use greatest::greatest_of;
pub use leaf_set::LeafSet;
pub use map_machine::MapMachine;
pub use pair_map::PairMap;
pub use replay::audit;

mod greatest;
mod leaf_set;
mod map_machine;
mod pair_map;
mod replay;

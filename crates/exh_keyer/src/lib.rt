//! Pseudokeys: the 64 bits of a key by whose leading bits an extendible hash file is organised
//! (Fagin et al. 1979), and the two keyers that make them.
#![tactic(auto)]

mod any_keyer;
mod keyer;
mod plain_keyer;
mod sha_keyer;

pub use any_keyer::AnyKeyer;
pub use keyer::{Keyer, pseudo_of_both};
pub use plain_keyer::PlainKeyer;
pub use sha_keyer::ShaKeyer;

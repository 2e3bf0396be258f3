//! A file system in memory as a disk, of which calls fail or savers are killed, and other savers come in between; and the
//! tests of saves over it. What these leave then no contract says, and no script can ask of the program. It has tests
//! alone, but for what has stood at a path, which its definitions name.
#![tactic(auto)]

pub use past::Past;

#[cfg(test)]
mod between;
#[cfg(test)]
mod memory_disk;
#[cfg(test)]
mod memory_file;
#[cfg(test)]
mod memory_writer;
#[cfg(test)]
mod node;
mod past;
#[cfg(test)]
mod saver;
#[cfg(test)]
mod saves;
#[cfg(test)]
mod side;

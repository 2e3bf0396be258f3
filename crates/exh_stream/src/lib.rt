//! Readers and writers that are left alone once they have failed.
#![tactic(auto)]

pub use clearing_writer::ClearingWriter;
pub use console::Console;
pub use input_fault::InputFault;
pub use meter::Meter;
pub use metered_reader::MeteredReader;
pub use metered_writer::MeteredWriter;
pub use output::{Output, WriteFault};
pub use source::{ReadFault, Source};
pub use storm_meter::StormMeter;
pub use terminal::Terminal;
pub use work::{BLOCK_LEN, Unit, Work};

/// Bytes that are asked of a reader, or go to a writer, together.
pub const BLOCK: usize = 8192;

mod clearing_writer;
mod console;
mod input_fault;
mod line;
mod meter;
mod metered_reader;
mod metered_writer;
mod output;
mod pace;
mod source;
mod storm_counts;
mod storm_meter;
mod terminal;
mod work;

//! Pairs as lines of text: how a pair is written, and what a line reads as. What is written of a pair reads as that pair.
//!
//! Records of comma-separated fields: how one is written, where one ends, and what its fields are. What is written is read.
#![tactic(auto)]

pub use columns::Columns;
pub use csv_laws::{fields_are_read, records_are_whole};
pub use exh_text::parse_u32;
pub use field::Field;
pub use field_names::FieldNames;
pub use fields::fields_of;
pub use header::columns_of;
pub use laws::{pairs_are_one_line, pairs_are_read};
pub use layout::Layout;
pub use line::Line;
pub use pair_format::PairFormat;
pub use part::Part;
pub use place::Place;
pub use reading::line_of;
pub use spelling::push_field;
pub use writing::{push_end, push_opening, push_pair};
pub use wrong_header::WrongHeader;
pub use wrong_line::WrongLine;
pub use wrong_record::WrongRecord;

mod byte_text;
mod columns;
mod csv_laws;
mod csv_reading;
mod field;
mod field_names;
mod fields;
mod header;
mod json_object;
mod json_reading;
mod laws;
mod layout;
mod line;
mod pair_format;
mod part;
mod place;
mod reading;
mod separated;
mod spelled;
mod spelling;
mod writing;
mod wrong_header;
mod wrong_line;
mod wrong_record;

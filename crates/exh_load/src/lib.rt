//! A text of pairs loaded into the wards of a file, with splits on demand.
#![tactic(auto)]

pub use exh_file::{
    Draft, DraftFault, FileForm, Form, OpenFault, Opened, PlacedForm, SaveFault, Stamps, open,
    open_form, open_over, read_file, write_file,
};
pub use history::HISTORY_LEN;
pub use laws::loads_are_one_maps;
pub use line_source::LINE_LEN;
pub use load_fault::LoadFault;
pub use load_source::{TEXT_LIMIT, load};
pub use load_text::load_lines;
pub use loader::Loader;
pub use long_load::load_long;
pub use put::put_pair;

mod begin;
mod history;
mod laws;
mod line_source;
mod load_fault;
mod load_source;
mod load_text;
mod loader;
mod long_load;
mod number_line;
mod pair_line;
mod put;

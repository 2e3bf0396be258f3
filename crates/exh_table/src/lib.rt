//! Tables: what a copy of the directory knows, with its walks, its leaves and its join.
#![tactic(auto)]

pub use exh_notice::{ENTRY_IMAGE_LEN, Entry, Join, Kind, Notice, NoticeFault};
pub use laws::{
    changes_keep_names, leaves_part, members_decide, one_directory, one_notice_more_is_taken,
    own_entries_give_the_table, put_back_undoes, union_is_join, walks_are_paths, walks_name_leaves,
};
pub use leaf::Leaf;
pub use table::Table;

mod join;
mod laws;
mod leaf;
mod table;
mod walk;

//! Notices of splits and merges, the entries that they leave in a table, and the images of both.
#![tactic(auto)]

pub use entry::{Entry, Kind};
pub use entry_image::ENTRY_IMAGE_LEN;
pub use exh_join::Join;
pub use exh_prefix::PageNo;
pub use laws::{equality_is_sameness, images_pass, one_value, order_is_by_number, order_is_total};
pub use notice::Notice;
pub use notice_fault::NoticeFault;
pub use notice_image::NOTICE_IMAGE_LEN;

mod entry;
mod entry_image;
mod laws;
mod notice;
mod notice_fault;
mod notice_image;

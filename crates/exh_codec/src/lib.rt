//! Pages as blocks of 4,096 bytes and back, in each version of the page file.
//! A well-formed page has exactly one image, and an image is that of one page.
#![tactic(auto)]

pub use block::{
    BLOCK_LEN, CONTENT_LEN, DIGEST_LEN, digest_in, digest_of, is_sealed, put_digest, seal,
};
pub use decode::{
    are_zero, decode_content, decode_head, decode_page, decode_page_of, decode_page_v1,
};
pub use encode::{encode_page, lay_out, lay_over, put_head};
pub use exh_page::{Key, Keyer, Lookup, Page, PageHead, PageList, PageNo, Prefix, Spot, Value};
pub use head::HEAD_LEN;
pub use image_fault::ImageFault;
pub use laws::{
    blocks_are_read, greatest_pages_fit, images_are_blocks, images_are_sealed, images_pass,
    one_image, one_page,
};
pub use read_pages::ReadPages;

mod block;
mod borrowed_record;
mod cell;
mod decode;
mod encode;
mod head;
mod image_fault;
mod kind;
mod laws;
mod pages;
mod read_pages;

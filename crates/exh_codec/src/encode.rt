ghost use Rattle.std.specs.Prelude.{◌≡◌, ◌≤◌, ◌*◌, ◌++◌, length, map, take, drop, replicate};
ghost use Rattle.std.specs.List.{AllByRecursion, flat_map};
ghost use Rattle.exh_page.specs.Version.{Version};
ghost use Rattle.exh_page.specs.declared.page.TheConstants.{CAP_LIMIT};
ghost use Rattle.exh_page.specs.Page.{records_of, IsWellFormed};
ghost use Rattle.exh_codec.specs.declared.block.TheConstants.{BLOCK_LEN, CONTENT_LEN};
ghost use Rattle.exh_page.specs.KeyMap.{pair_of};
ghost use Rattle.exh_codec.specs.Cells.{IsSizedPair, pair_image};
ghost use Rattle.exh_codec.specs.declared.head.TheConstants.{HEAD_LEN};
ghost use Rattle.exh_codec.specs.Head.{head_bytes, head_with};
ghost use Rattle.exh_codec.specs.PageImage.{used_of, content_of, IsHeld, IsPage, IsImage};
ghost use Rattle.exh_page.specs.PageHead.{count_in};

use crate::block::{BLOCK_LEN, CONTENT_LEN, seal};
use crate::head::{HEAD_LEN, Head};
use exh_page::{KEY_LIMIT, Keyer, Page, PageHead, Record, Records, VALUE_LIMIT};

/// The greatest length of a record in an image, in bytes.
const RECORD_LEN: usize = 2 + KEY_LIMIT + VALUE_LIMIT;

/// The image of a page that is well formed under a keyer, in each version in which a page may have
/// such a prefix or low bound. It takes no memory.
pub fn encode_page<K: Keyer>(keyer: &K, page: &Page) -> [u8; BLOCK_LEN]
    requires { IsWellFormed (K.pseudokey_of keyer.now) page.now }
    ensures image { (version : Version) → IsPage version (K.pseudokey_of keyer.now) page.now → IsImage version (K.pseudokey_of keyer.now) page.now result }
    // The types of a page hold no others.
    ensures in_range { IsHeld page.now }
{
    let mut block = lay_out(page);
    seal(&mut block);
    block
}

/// A block with a page's content, of at most 16 records, whose digest bytes are zero. It takes no
/// memory. [`seal`] makes it the page's image.
pub fn lay_out(page: &Page) -> [u8; BLOCK_LEN]
    requires { length (records_of page.now) ≤ CAP_LIMIT }
    ensures content { take CONTENT_LEN result ≡ content_of page.now }
    ensures digest { drop CONTENT_LEN result ≡ replicate 32 0 }
    // The types of a page hold no others.
    ensures in_range { IsHeld page.now }
{
    let mut block = [0; BLOCK_LEN];
    put_page(&mut block, page);
    block
}

/// Lays a page of at most 16 records out over a block's content. What its digest bytes are isn't said.
/// It takes no memory.
pub fn lay_over(block: &mut [u8; BLOCK_LEN], page: &Page)
    requires { length (records_of page.now) ≤ CAP_LIMIT }
    ensures content { take CONTENT_LEN block.new ≡ content_of page.now }
    // The types of a page hold no others.
    ensures in_range { IsHeld page.now }
{
    let end = put_page(block, page);
    block[end..CONTENT_LEN].fill(0);
}

/// Writes the head of the image of a page that has this one, and at most 16 records, over the first
/// bytes of a block. It takes no memory.
pub fn put_head(block: &mut [u8; BLOCK_LEN], head: &PageHead)
    requires { count_in head.now ≤ CAP_LIMIT }
    ensures { block.new ≡ head_bytes (head_with head.now) ++ drop HEAD_LEN block.old }
{
    let bytes = Head::with(head).to_bytes();
    block[..HEAD_LEN].copy_from_slice(&bytes);
}

// Writes a page over the first bytes of a block, and answers how many it takes.
fn put_page(block: &mut [u8], page: &Page) -> usize
    requires len { length block.old ≡ BLOCK_LEN }
    requires few { length (records_of page.now) ≤ CAP_LIMIT }
    ensures used { block.new ≡ used_of page.now ++ drop (length (used_of page.now)) block.old }
    ensures end { result ≡ length (used_of page.now) }
    ensures in_range { IsHeld page.now }
{
    let head = Head::of(page).to_bytes();
    block[..HEAD_LEN].copy_from_slice(&head);
    match page {
        Page::Live { records, .. } => HEAD_LEN + put_records(&mut block[HEAD_LEN..], records),
        Page::Forward { .. } => HEAD_LEN,
    }
}

// Writes records, one after the other, over the first bytes, and answers how many they take.
fn put_records(out: &mut [u8], records: &Records) -> usize
    requires { RECORD_LEN * length records.now ≤ length out.old }
    ensures bytes { let image = flat_map pair_image (map pair_of records.now) in out.new ≡ image ++ drop (length image) out.old }
    ensures end { result ≡ length (flat_map pair_image (map pair_of records.now)) }
    ensures sized { AllByRecursion IsSizedPair (map pair_of records.now) }
{
    let mut end = 0;
    for item in records.iter() {
        end += put_record(&mut out[end..], &item);
    }
    end
}

// Writes a record over the first bytes, and answers how many it takes.
fn put_record(out: &mut [u8], item: &Record) -> usize
    requires { RECORD_LEN ≤ length out.old }
    ensures len { result ≡ length (pair_image (pair_of item.now)) }
    ensures limit { result ≤ RECORD_LEN }
    ensures bytes { out.new ≡ pair_image (pair_of item.now) ++ drop result out.old }
    ensures sized { IsSizedPair (pair_of item.now) }
{
    let key = item.key.as_bytes();
    let value = item.value.as_bytes();
    let value_start = 2 + key.len();
    let end = value_start + value.len();
    out[0] = key.len() as u8;
    out[1] = value.len() as u8;
    out[2..value_start].copy_from_slice(key);
    out[value_start..end].copy_from_slice(value);
    end
}

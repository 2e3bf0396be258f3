//! Pages, their images and stores, and a ward over one, by the calls that a program makes of them: of one record under the
//! key of the byte 80 hexadecimal, whose bits under keyer plain begin with 1.
ghost use Rattle.exh_page.specs.Page.{IsLive};

use exh_codec::{BLOCK_LEN, ImageFault, decode_page, decode_page_v1, seal};
use exh_frames::{FramedPages, Pages, PagesFault, PlainPages};
use exh_keyer::PlainKeyer;
use exh_notice::{ENTRY_IMAGE_LEN, Entry, Kind, NOTICE_IMAGE_LEN, Notice, NoticeFault, PageNo};
use exh_page::{Key, Page, PageHead, Record, Records, Value};
use exh_prefix::Prefix;
use exh_ward::{Ward, first_page};
use std::alloc::Global;

const PSEUDOKEY: u64 = 1 << 63;

// The image of a notice: of the split of a prefix of 17 bits, one, zeros and one, whose right page is 9.
const SPLIT_AT_17: [u8; NOTICE_IMAGE_LEN] = [
    0, 1, 17, 0, 0x80, 0, 0x80, 0, 0, 0, 0, 3, 0, 0, 0, 9, 0, 0, 0, 0, 0, 0, 0, 5,
];

// Whether a page gives back what is put into it, and its copy keeps what is taken out of it.
fn keeps_a_record(alloc: Global) -> Option<bool> {
    let key = Key::from_bytes(b"\x80").ok()?;
    let (old, new) = (
        Value::from_bytes(b"b").ok()?,
        Value::from_bytes(b"bb").ok()?,
    );
    let mut page = Page::Live {
        prefix: Prefix::of_number(0, 0),
        right: None,
        records: Records::new(alloc),
    };
    let is_put = puts(&mut page, key, old, None) && puts(&mut page, key, new, Some(old));
    let is_taken = match page.try_clone() {
        Ok(mut copy) => is_taken_out(&mut copy, &key, new),
        Err(_) => false,
    };
    Some(is_put && is_taken && page.find(PSEUDOKEY, &key) == Some(new))
}

// Puts a value into a live page, and answers whether it replaces this one.
fn puts(page: &mut Page, key: Key, value: Value, old: Option<Value>) -> bool
    requires { IsLive page.old }
    ensures { IsLive page.new }
{
    let item = Record {
        pseudokey: PSEUDOKEY,
        key,
        value,
    };
    matches!(page.put(item), Ok(replaced) if replaced == old)
}

// Whether a key's value is taken out of a page once.
fn is_taken_out(page: &mut Page, key: &Key, value: Value) -> bool
    requires { IsLive page.old }
{
    page.remove(PSEUDOKEY, key) == Some(value)
        && page.remove(PSEUDOKEY, key) == None
        && page.find(PSEUDOKEY, key) == None
}

// The block of an empty live page of a prefix of 17 bits, ones, with no right link.
fn block_of_17_bits() -> [u8; BLOCK_LEN] {
    let mut block = [0; BLOCK_LEN];
    block[0] = 1;
    block[1] = 17;
    for byte in 4..10 {
        block[byte] = 0xff;
    }
    block[10] = 0x80;
    seal(&mut block);
    block
}

// Whether the block is read in the version that is written, and refused in the first, whose prefixes have at most 16 bits;
// and the same of an entry's image.
fn reads_each_version(alloc: Global) -> Option<bool> {
    let block = block_of_17_bits();
    let page = decode_page(alloc, &PlainKeyer, &block).ok()?;
    let prefix = Prefix::new(17, 0xffff_8000_0000_0000)?;
    let head = PageHead::Live {
        prefix,
        right: None,
        count: 0,
    };
    let is_page = page.head() == head
        && matches!(
            decode_page_v1(alloc, &PlainKeyer, &block),
            Err(ImageFault::Padding)
        );
    let notice = Notice {
        ward: 0,
        index: 5,
        prefix: Prefix::new(17, 0x8000_8000_0000_0000)?,
        number: 3,
        kind: Kind::Split { right: 9 },
    };
    let front = SPLIT_AT_17.first_chunk::<ENTRY_IMAGE_LEN>()?;
    Some(
        is_page
            && Notice::from_image(&SPLIT_AT_17) == Ok(notice)
            && Entry::from_image(front) == Ok((0, notice.prefix, notice.entry()))
            && matches!(Entry::from_image_v1(front), Err(NoticeFault::Padding)),
    )
}

// The low bound of a store's first page, or why it isn't reached; none of a store without pages.
fn first_low<P: Pages + Drop>(store: &mut P) -> Option<Result<u64, PagesFault>> {
    if store.count() == 0 {
        return None;
    }
    match store.get(0) {
        Ok(page) => Some(Ok(page.low())),
        Err(fault) => Some(Err(fault)),
    }
}

// Whether stores of images give their pages back.
fn lends_its_pages(alloc: Global) -> Option<bool> {
    let mut pages = Vec::new(alloc);
    pages.push(first_page(alloc, 1, 1)).ok()?;
    let mut new = FramedPages::new(alloc, first_page(alloc, 0, 0), PlainKeyer, 64).ok()?;
    let mut given = FramedPages::from_pages(alloc, pages, PlainKeyer, 1).ok()?;
    let is_new = matches!(first_low(&mut new), Some(Ok(0)));
    Some(is_new && matches!(first_low(&mut given), Some(Ok(PSEUDOKEY))))
}

// Whether each page of a new ward is as far from a key as it is: none but page 0 is there.
fn tells_distances(alloc: Global) -> Option<bool> {
    let store = PlainPages::new(alloc, first_page(alloc, 0, 0)).ok()?;
    let mut ward = Ward::new(alloc, store, 2, 0, 0, PlainKeyer);
    let first: PageNo = 0;
    Some(
        ward.covers(PSEUDOKEY)
            && ward.distance(first, PSEUDOKEY) == Ok(0)
            && ward.buddy_sum(first) == Ok(None)
            && ward.distance(1, PSEUDOKEY).is_err(),
    )
}

#[test]
fn doors(rt: HostRuntime) {
    let alloc = rt.alloc();
    assert_eq!(rt; keeps_a_record(alloc), Some(true));
    assert_eq!(rt; reads_each_version(alloc), Some(true));
    assert_eq!(rt; lends_its_pages(alloc), Some(true));
    assert_eq!(rt; tells_distances(alloc), Some(true));
}

//! Images that were worked out by hand from the format's table.

use exh_join::Join;
use exh_notice::{ENTRY_IMAGE_LEN, Entry, Kind, NOTICE_IMAGE_LEN, Notice};
use exh_prefix::{PageNo, Prefix, Version};
use std::cmp::Ordering;

// Every byte differs from every other, and from zero where it may.
const SPLIT_AT_15: [u8; 24] = [
    0x0b, 1, 15, 0, 0xa1, 0xb2, 0, 0, 0xc1, 0xc2, 0xc3, 0xc4, 0xd1, 0xd2, 0xd3, 0xd4, 0xe1, 0xe2,
    0xe3, 0xe4, 0xe5, 0xe6, 0xe7, 0xe8,
];

// A notice: ward and index, a prefix's length and bits, number and a split's right page.
type Row = (u8, u64, u8, u64, u32, Option<PageNo>);

const SPLIT_AT_15_ROW: Row = (
    11,
    0xe1e2_e3e4_e5e6_e7e8,
    15,
    0xa1b2_0000_0000_0000,
    0xc1c2_c3c4,
    Some(0xd1d2_d3d4),
);

// The longest prefix of an entry; the bits of its third byte are none of the first version's.
const SPLIT_AT_19: [u8; 24] = [
    0x0b, 1, 19, 0, 0xa1, 0xb2, 0xe0, 0, 0xc1, 0xc2, 0xc3, 0xc4, 0xd1, 0xd2, 0xd3, 0xd4, 0xe1,
    0xe2, 0xe3, 0xe4, 0xe5, 0xe6, 0xe7, 0xe9,
];

const SPLIT_AT_19_ROW: Row = (
    11,
    0xe1e2_e3e4_e5e6_e7e9,
    19,
    0xa1b2_e000_0000_0000,
    0xc1c2_c3c4,
    Some(0xd1d2_d3d4),
);

// The split at the root, its merge, and in place of that the split of its left half.
const SPLIT: [u8; 24] = [
    0, 1, 0, 0, 0, 0, 0, 0, 0, 0, 0, 1, 0, 0, 0, 1, 0, 0, 0, 0, 0, 0, 0, 1,
];

const MERGE: [u8; 24] = [
    0, 2, 0, 0, 0, 0, 0, 0, 0, 0, 0, 2, 0, 0, 0, 0, 0, 0, 0, 0, 0, 0, 0, 2,
];

const SPLIT_BELOW: [u8; 24] = [
    0, 1, 1, 0, 0, 0, 0, 0, 0, 0, 0, 1, 0, 0, 0, 2, 0, 0, 0, 0, 0, 0, 0, 2,
];

const IMAGES: [(Row, [u8; 24]); 5] = [
    (SPLIT_AT_15_ROW, SPLIT_AT_15),
    (SPLIT_AT_19_ROW, SPLIT_AT_19),
    ((0, 1, 0, 0, 1, Some(1)), SPLIT),
    ((0, 2, 0, 0, 2, None), MERGE),
    ((0, 2, 1, 0, 1, Some(2)), SPLIT_BELOW),
];

fn notice(row: Row) -> Option<Notice> {
    let (ward, index, len, bits, number, right) = row;
    let kind = match right {
        Some(right) => Kind::Split { right },
        None => Kind::Merge,
    };
    Some(Notice {
        ward,
        index,
        prefix: Prefix::new(len, bits)?,
        number,
        kind,
    })
}

// Whether the image is the notice's, and its front the entry's, and both are read back in each version that may have them.
fn is_imaged(notice: &Notice, image: &[u8; NOTICE_IMAGE_LEN]) -> bool {
    let front: &[u8; ENTRY_IMAGE_LEN] = image.first_chunk().unwrap();
    let entry = notice.entry();
    notice.to_image() == *image
        && entry.to_image(notice.ward, notice.prefix) == *front
        && is_read(Version::First, notice, image)
        && is_read(Version::Second, notice, image)
}

// Whether the image in a version is the notice's, and its front the entry's; neither is one where the prefix is too long
// for it.
fn is_read(version: Version, notice: &Notice, image: &[u8; NOTICE_IMAGE_LEN]) -> bool {
    let front: &[u8; ENTRY_IMAGE_LEN] = image.first_chunk().unwrap();
    if notice.prefix.len() >= version.limit() {
        return Notice::from_image_of(version, image).is_err()
            && Entry::from_image_of(version, front).is_err();
    }
    Notice::from_image_of(version, image) == Ok(*notice)
        && Entry::from_image_of(version, front) == Ok((notice.ward, notice.prefix, notice.entry()))
}

// The place of the notice that has another image.
fn wrong_image() -> Option<usize> {
    for (at, (row, image)) in IMAGES.iter().enumerate() {
        match notice(*row) {
            Some(notice) if is_imaged(&notice, image) => {}
            _ => return Some(at),
        }
    }
    None
}

#[test]
fn images_of_notices_and_entries(rt: HostRuntime) {
    assert!(rt; ENTRY_IMAGE_LEN == 16 && NOTICE_IMAGE_LEN == 24);
    assert_eq!(rt; wrong_image(), None);
}

// An entry, as its number and a split's right page.
type EntryRow = (u32, Option<PageNo>);

// The lesser and the greater by number, by kind and by right page.
const RISING: [(EntryRow, EntryRow); 3] = [
    ((1, Some(9)), (2, None)),
    ((3, None), (3, Some(0))),
    ((3, Some(1)), (3, Some(2))),
];

fn entry(row: EntryRow) -> Entry {
    let (number, right) = row;
    let kind = match right {
        Some(right) => Kind::Split { right },
        None => Kind::Merge,
    };
    Entry { number, kind }
}

fn are_rising(less: Entry, more: Entry) -> bool {
    less.cmp(&more) == Ordering::Less
        && more.cmp(&less) == Ordering::Greater
        && less.cmp(&less) == Ordering::Equal
        && less.at_most(&more)
        && !more.at_most(&less)
        && more.at_most(&more)
        && less != more
}

// Whether the greater entry stays, whichever joins the other.
fn greater_stays(less: Entry, more: Entry) -> Option<bool> {
    let mut joined = less.try_clone().ok()?;
    joined.join_in(&more).ok()?;
    let is_taken = joined == more;
    joined.join_in(&less).ok()?;
    Some(is_taken && joined == more)
}

fn wrong_pair() -> Option<EntryRow> {
    for (row, next) in RISING {
        let (less, more) = (entry(row), entry(next));
        if !are_rising(less, more) || greater_stays(less, more) != Some(true) {
            return Some(row);
        }
    }
    None
}

#[test]
fn entries_are_ordered_both_ways_round(rt: HostRuntime) {
    assert_eq!(rt; wrong_pair(), None);
}

ghost use Rattle.std.specs.Prelude.{◌≡◌, ◌≢◌, ◌≤◌, ◌<◌, ◌*◌, ◌↔◌, ◌++◌, ℕ, List, length, drop, vec_len, IsTrue, IfOk, IfErr, MatchResult};
ghost use Rattle.std.specs.List.{AllByRecursion, flat_map};
ghost use Rattle.std.specs.Option.{option_to_list};
ghost use Rattle.exh_prefix.specs.Layout.{layout};
ghost use Rattle.exh_legal.specs.NoticeLimits.{ENTRY_IMAGE_LEN};
ghost use Rattle.exh_legal.specs.declared.NoticeFault.{NoticeFault};
ghost use Rattle.exh_legal.specs.NoticeImages.{right_field, FailsFirst};
ghost use Rattle.exh_format.specs.declared.file_entry.FileEntry.{FileEntry as FileEntryValue};
ghost use Rattle.exh_format.specs.declared.table_block.TheConstants.{BLOCK_ENTRIES};
ghost use Rattle.exh_format.specs.TableImage.{AreEntries, AreRising, IsFileEntry, IsTableImage, image_of, prefixes_of};
ghost use Rattle.exh_format.specs.ReadEntries.{FailsAtEntry, MayPrecede};
ghost use Rattle.exh_format.specs.TableTests.{IsFirstFault, entry_fault};

use crate::{FileEntry, push_item};
use exh_codec::{BLOCK_LEN, CONTENT_LEN, ImageFault, are_zero, is_sealed};
use exh_legal::{ENTRY_IMAGE_LEN, Entry, NoticeFault};
use exh_prefix::{Prefix, Version};
use std::alloc::Global;
use std::cmp::Ordering;

/// The most entries of a table block.
pub const BLOCK_ENTRIES: usize = CONTENT_LEN / ENTRY_IMAGE_LEN;

/// So many entries, at most 254, of which a block is the image in a version, and whose
/// prefixes rise from the one before them, if there is one. Where there are none, the fault is that
/// of the first test that the block fails: `Digest`; of one entry after the other `Kind`, `Padding`
/// and `Prefix`; `Padding` behind the last; `Order`. It takes memory for the entries, once the digest
/// is right: `Memory` where that is refused.
pub fn decode_entries(
    alloc: Global,
    version: Version,
    block: &[u8; BLOCK_LEN],
    count: usize,
    before: Option<Prefix>,
) -> Result<Vec<FileEntry>, ImageFault>
    requires { count ≤ BLOCK_ENTRIES }
    ensures image { IfOk result (λ entries. IsTableImage (layout version) entries.items block.now) }
    ensures count { IfOk result (λ entries. vec_len entries ≡ count) }
    ensures rising { IfOk result (λ entries. AreRising (option_to_list before ++ prefixes_of entries.items)) }
    ensures every { (entries : List FileEntryValue) → IsTableImage (layout version) entries block.now → length entries ≡ count
        → AreRising (option_to_list before ++ prefixes_of entries)
        → MatchResult result (λ found. found.items ≡ entries) (λ fault. fault ≡ ImageFault.Memory) }
    ensures fault { IfErr result (λ fault. fault ≢ ImageFault.Memory → IsFirstFault (layout version) count before block.now fault) }
{
    if !is_sealed(block) {
        return Err(ImageFault::Digest);
    }
    let entries = entries_of(alloc, version, block, count)?;
    if !are_zero(&block[ENTRY_IMAGE_LEN * count..CONTENT_LEN]) {
        return Err(ImageFault::Padding);
    }
    if !are_rising(before, &entries) {
        return Err(ImageFault::Order);
    }
    Ok(entries)
}

// So many entries whose images stand one after the other, or the fault of the first that none does.
fn entries_of(
    alloc: Global,
    version: Version,
    bytes: &[u8],
    count: usize,
) -> Result<Vec<FileEntry>, ImageFault>
    requires { ENTRY_IMAGE_LEN * count ≤ length bytes.now }
    ensures entries { IfOk result (λ entries.
        AreEntries (layout version) count bytes.now entries.items (drop (ENTRY_IMAGE_LEN * count) bytes.now)) }
    ensures fault { IfErr result (λ fault. fault ≢ ImageFault.Memory → FailsAtEntry (layout version) count bytes.now fault) }
{
    let mut entries = Vec::new(alloc);
    for i in 0..count {
        let start = ENTRY_IMAGE_LEN * i;
        let image = bytes[start..].first_chunk::<ENTRY_IMAGE_LEN>().unwrap();
        match Entry::from_image_of(version, image) {
            Ok(read) => push_item(&mut entries, of_parts(read))?,
            Err(fault) => return Err(entry_fault(fault)),
        }
    }
    Ok(entries)
}

fn of_parts(read: (u8, Prefix, Entry)) -> FileEntry
    ensures { result ≡ record { ward = read.0; prefix = read.1; entry = read.2 } }
{
    let (ward, prefix, entry) = read;
    FileEntry {
        ward,
        prefix,
        entry,
    }
}

// The fault of a block in which an entry's image has this one.
fn entry_fault(fault: NoticeFault) -> ImageFault
    ensures { result ≡ entry_fault fault }
{
    match fault {
        NoticeFault::Kind => ImageFault::Kind,
        NoticeFault::Padding => ImageFault::Padding,
        NoticeFault::Prefix => ImageFault::Prefix,
    }
}

// Whether the prefixes rise, from the one before them on, which is asked of neighbours.
fn are_rising(before: Option<Prefix>, entries: &[FileEntry]) -> bool
    ensures { IsTrue result ↔ AreRising (option_to_list before ++ prefixes_of entries.now) }
{
    let mut last = before;
    for item in entries {
        if !may_precede(last, item.prefix) {
            return false;
        }
        last = Some(item.prefix);
    }
    true
}

// Whether a prefix comes before the next, as none does.
fn may_precede(last: Option<Prefix>, next: Prefix) -> bool
    ensures { IsTrue result ↔ MayPrecede last next }
{
    match last {
        Some(last) => last.cmp(&next) == Ordering::Less,
        None => true,
    }
}

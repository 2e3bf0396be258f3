//! The system's limit on the size of a file, which a save must not come to.
ghost use Rattle.std.specs.Prelude.{◌≡◌, ◌≤◌, ◌*◌, ◌+◌, ◌^◌, ◌↔◌, IfErr, IfNone, IfSome, IsTrue, Some};
ghost use Rattle.std.specs.List.{sum};
ghost use Rattle.exh_codec.specs.declared.block.TheConstants.{BLOCK_LEN};
ghost use Rattle.exh_system.specs.SizeLimit.{IsAbove, IsLimitFault, blocks_told, first_word, len_told, limit_told, log_len, placed_blocks};

use crate::{InPlaceFault, open_above};
use exh_codec::BLOCK_LEN;
use exh_direct::{BLOCK_ENTRIES, Header};
use exh_file::{GROUP_PAGES, Parts, parse_u64};
use std::fs::File;
use std::io::Read;
use std::{fs, io};
use thiserror::Error;

// What the system tells of the limits of this process, a line each, of which this many bytes are looked at.
const LIMITS: &str = "/proc/self/limits";

const LIMITS_LEN: usize = 4096;

// The bytes of a log's header, of a block in it, and those by which it is made longer at a time.
const LOG_HEADER: u64 = 32;

const FRAME_LEN: u64 = 4120;

const LOG_PADDING: u64 = 262_144;

// How the line of the greatest size of a file begins.
const FILE_SIZE: &[u8] = b"Max file size ";

/// A page file that would be longer than the system lets a file of this process be.
#[derive(Clone, Copy, Debug, Error)]
#[error("it would have {size} bytes, and the limit is {limit}")]
pub struct AboveLimit {
    size: u64,
    limit: u64,
}

/// The system's limit on the size of the file of a path, in bytes, where it tells one. What a path leads to that is no
/// regular file, as a pipe or a device, has none.
pub fn file_size_limit(rt: &HostRuntime, path: &str) -> Option<u64> {
    let limit = limit_told(&limits(rt).ok()?)?;
    if is_no_regular(rt, path) {
        None
    } else {
        Some(limit)
    }
}

/// Whether the page file of a header would be above a limit, where there is one. The file is of version 3, or of the version
/// that is written.
pub fn above_limit(limit: Option<u64>, header: &Header, is_placed: bool) -> Option<AboveLimit>
    ensures some { IfSome result (λ above. IsAbove header.now is_placed above × (limit ≡ Some above.limit)) }
    ensures none { IfNone result (IfSome limit (λ limit. len_told header.now is_placed ≤ limit)) }
{
    let limit = limit?;
    let size = if is_placed {
        placed_len(header)
    } else {
        file_len(header)
    };
    if size > limit {
        Some(AboveLimit { size, limit })
    } else {
        None
    }
}

/// Sees that a change of an open page file, which writes at most so many blocks, each maybe a new one, keeps file and log
/// within the system's limit, where it tells one.
///
/// `AboveLimit`: it may not. `System`: the system doesn't say how long the file is.
pub fn see_room(rt: &HostRuntime, file: &File, whole: &str, blocks: u32) -> Result<(), InPlaceFault>
    ensures { IfErr result IsLimitFault }
{
    let Some(limit) = file_size_limit(rt, whole) else {
        return Ok(());
    };
    if has_room(limit, file.metadata()?.len(), blocks) {
        Ok(())
    } else {
        Err(InPlaceFault::AboveLimit { limit })
    }
}

/// Sees that a copy of an open file at a new path is within the system's limit, where it tells one.
///
/// Errors: as of `see_room`.
pub fn see_room_for_copy(rt: &HostRuntime, file: &File, new: &str) -> Result<(), InPlaceFault>
    ensures { IfErr result IsLimitFault }
{
    match file_size_limit(rt, new) {
        Some(limit) if file.metadata()?.len() > limit => Err(InPlaceFault::AboveLimit { limit }),
        _ => Ok(()),
    }
}

// Whether a file of so many bytes that gets so many blocks more, and a log of as many, are within a limit.
fn has_room(limit: u64, len: u64, blocks: u32) -> bool
    ensures { IsTrue result ↔ (len + BLOCK_LEN * blocks ≤ limit) × (log_len blocks ≤ limit) }
{
    match limit.checked_sub(len) {
        Some(room) => BLOCK_LEN as u64 * u64::from(blocks) <= room && log_len(blocks) <= limit,
        None => false,
    }
}

// How many bytes a log of so many blocks has at most.
fn log_len(blocks: u32) -> u64
    ensures { result ≡ log_len blocks }
{
    LOG_HEADER + FRAME_LEN * u64::from(blocks) + LOG_PADDING
}

// Whether something is at a path that is no regular file.
fn is_no_regular(rt: &HostRuntime, path: &str) -> bool {
    match fs::metadata(rt, path) {
        Ok(about) => !about.is_file(),
        Err(_) => false,
    }
}

// The front of what the system tells of limits, and zeros.
fn limits(rt: &HostRuntime) -> io::Result<[u8; LIMITS_LEN]> {
    let mut text = [0; LIMITS_LEN];
    let mut file = open_above(rt, LIMITS)?;
    file.read(&mut text)?;
    Ok(text)
}

// The limit on the size of a file in a text of limits, the soft one, where it is a number.
fn limit_told(text: &[u8]) -> Option<u64>
    ensures { result ≡ limit_told text.now }
{
    for line in Parts::new(b'\n', text) {
        if line.starts_with(FILE_SIZE) {
            return parse_u64(first_word(&line[FILE_SIZE.len()..]));
        }
    }
    None
}

/// The first word of a line, empty where it has none.
pub(crate) fn first_word(line: &[u8]) -> &[u8]
    ensures { result.now ≡ first_word line.now }
{
    for word in Parts::new(b' ', line) {
        if !word.is_empty() {
            return word;
        }
    }
    b""
}

// How many bytes a page file of this header has.
fn file_len(header: &Header) -> u64
    ensures { result ≡ BLOCK_LEN * blocks_told header.now }
{
    let mut blocks = 1 + u64::from(header.entry_count).div_ceil(BLOCK_ENTRIES as u64);
    for pages in &header.page_counts {
        blocks += u64::from(*pages);
    }
    blocks * BLOCK_LEN as u64
}

// How many bytes a page file of version 3 has, of wards that have so many pages.
fn placed_len(header: &Header) -> u64
    ensures { result ≡ BLOCK_LEN * placed_blocks header.now }
{
    let pages = pages_in(header);
    (1 + pages + pages.div_ceil(u64::from(GROUP_PAGES))) * BLOCK_LEN as u64
}

// How many pages a file has.
fn pages_in(header: &Header) -> u64
    ensures count { result ≡ sum header.now.page_counts }
    ensures few { result ≤ 2 ^ 36 }
{
    let mut all = 0;
    for pages in &header.page_counts {
        all += u64::from(*pages);
    }
    all
}

//! Counts and sums over pages.
ghost use Rattle.std.specs.Prelude.{◌≡◌, ◌⊎◌, ◌≤◌, ◌^◌, [], EachIndex, Contains, length, map, not, slice_index};
ghost use Rattle.std.specs.List.{All};
ghost use Rattle.exh_compact.specs.Stats.{block_bytes, byte_sum, full_limit_count, limit_count, live_count, forward_count, record_sum, with_bits_count, with_records_count};

use crate::PageShape;
use crate::stats::{BIT_COUNTS, RECORD_COUNTS};
use exh_codec::BLOCK_LEN;
use exh_prefix::{LIMIT, Prefix};

/// How many records the pages have.
pub(crate) fn record_count(shapes: &[PageShape]) -> u64
    requires { length shapes.now ≤ 2 ^ 24 }
    ensures { result ≡ record_sum shapes.now }
{
    let mut sum = 0u64;
    for shape in shapes {
        sum += u64::from(shape.records);
    }
    sum
}

/// How many bytes of their blocks these take.
pub(crate) fn byte_count(shapes: &[PageShape]) -> u64
    requires { length shapes.now ≤ 2 ^ 24 }
    ensures { result ≡ byte_sum shapes.now }
{
    let mut sum = 0u64;
    for shape in shapes {
        sum += u64::from(shape.bytes);
    }
    sum
}

/// How many bytes these blocks have.
pub(crate) fn block_bytes(shapes: &[PageShape]) -> u64
    requires { length shapes.now ≤ 2 ^ 24 }
    ensures { result ≡ block_bytes shapes.now }
{
    shapes.len() as u64 * BLOCK_LEN as u64
}

/// How many of them are live.
pub(crate) fn live_count(shapes: &[PageShape]) -> u64
    ensures { result ≡ live_count shapes.now }
{
    shapes.iter().filter(|shape| shape.is_live).count() as u64
}

/// How many are forwarding pages.
pub(crate) fn forward_count(shapes: &[PageShape]) -> u64
    ensures { result ≡ forward_count shapes.now }
{
    shapes.iter().filter(|shape| !shape.is_live).count() as u64
}

/// How many live ones have a prefix of `LIMIT` bits.
pub(crate) fn limit_count(shapes: &[PageShape]) -> u64
    ensures { result ≡ limit_count shapes.now }
{
    let at_limit = |shape: &&PageShape| shape.is_live && shape.prefix.len() == LIMIT;
    shapes.iter().filter(at_limit).count() as u64
}

/// How many of these have `cap` records.
pub(crate) fn full_limit_count(cap: u8, shapes: &[PageShape]) -> u64
    ensures { result ≡ full_limit_count cap shapes.now }
{
    let is_full = |shape: &&PageShape| {
        shape.is_live && shape.prefix.len() == LIMIT && cap <= shape.records
    };
    shapes.iter().filter(is_full).count() as u64
}

/// How many live ones there are for each number of records, from 0 to 16.
pub(crate) fn by_records(shapes: &[PageShape]) -> [u64; RECORD_COUNTS]
    ensures { EachIndex result (λ k. slice_index result k ≡ with_records_count k shapes.now) }
{
    let mut counts = [0; RECORD_COUNTS];
    for records in 0..RECORD_COUNTS {
        counts[records] = with_records_count(records, shapes);
    }
    counts
}

// How many live ones have so many records.
fn with_records_count(records: usize, shapes: &[PageShape]) -> u64
    ensures { result ≡ with_records_count records shapes.now }
{
    let has_so_many = |shape: &&PageShape| shape.is_live && usize::from(shape.records) == records;
    shapes.iter().filter(has_so_many).count() as u64
}

/// How many live ones there are for each length of a prefix, from 0 to `LIMIT`.
pub(crate) fn by_bits(shapes: &[PageShape]) -> [u64; BIT_COUNTS]
    ensures { EachIndex result (λ k. slice_index result k ≡ with_bits_count k shapes.now) }
{
    let mut counts = [0; BIT_COUNTS];
    for bits in 0..BIT_COUNTS {
        counts[bits] = with_bits_count(bits, shapes);
    }
    counts
}

// How many live ones have a prefix of so many bits.
fn with_bits_count(bits: usize, shapes: &[PageShape]) -> u64
    ensures { result ≡ with_bits_count bits shapes.now }
{
    let has_so_many = |shape: &&PageShape| shape.is_live && usize::from(shape.prefix.len()) == bits;
    shapes.iter().filter(has_so_many).count() as u64
}

/// The first of their longest prefixes.
pub(crate) fn longest(shapes: &[PageShape]) -> Prefix
    ensures longest { All (λ shape. length shape.prefix ≤ length result) shapes.now }
    ensures there { (result ≡ []) ⊎ Contains (map (λ shape. shape.prefix) shapes.now) result }
{
    let mut longest = Prefix::of_number(0, 0);
    for shape in shapes {
        if longest.len() < shape.prefix.len() {
            longest = shape.prefix;
        }
    }
    longest
}

//! What a file has, as one object of JSON.

use crate::{BIT_COUNTS, RECORD_COUNTS, Stats, WardCounts};
use exh_text::{push_number, push_prefix, push_text};
use std::alloc::{AllocError, Global};

/// One line with one JSON object: all that a file has, by names. It takes memory for it.
pub fn json_of(alloc: Global, stats: &Stats) -> Result<Vec<u8>, AllocError> {
    let mut out = Vec::new(alloc);
    push_settings(&mut out, stats)?;
    push_totals(&mut out, stats)?;
    push_shape(&mut out, stats)?;
    push_wards(&mut out, &stats.wards)?;
    push_text(&mut out, "}\n")?;
    Ok(out)
}

// Adds its version and its settings.
fn push_settings(out: &mut Vec<u8>, stats: &Stats) -> Result<(), AllocError> {
    push_member(out, "{\"version\":", u64::from(stats.version))?;
    push_member(out, ",\"cap\":", u64::from(stats.settings.cap))?;
    push_member(out, ",\"wards\":", stats.wards.len() as u64)?;
    push_text(out, ",\"keyer\":\"")?;
    push_text(out, stats.settings.keyer.word())?;
    push_text(out, "\"")
}

// Adds how many records, pages and bytes it has.
fn push_totals(out: &mut Vec<u8>, stats: &Stats) -> Result<(), AllocError> {
    push_member(out, ",\"records\":", stats.records)?;
    push_member(out, ",\"live_pages\":", stats.live)?;
    push_member(out, ",\"forwarding_pages\":", stats.forwarding)?;
    push_member(out, ",\"pages_at_limit\":", stats.at_limit)?;
    push_member(out, ",\"full_pages_at_limit\":", stats.full_at_limit)?;
    push_member(out, ",\"record_bytes\":", stats.record_bytes)?;
    push_member(out, ",\"page_bytes\":", stats.page_bytes)
}

// Adds how full and how deep its pages are.
fn push_shape(out: &mut Vec<u8>, stats: &Stats) -> Result<(), AllocError> {
    push_member(out, ",\"depth\":", u64::from(stats.longest.len()))?;
    push_text(out, ",\"longest_prefix\":\"")?;
    if !stats.longest.is_empty() {
        push_prefix(out, &stats.longest)?;
    }
    let by_records = RECORD_COUNTS.min(usize::from(stats.settings.cap) + 1);
    push_list(
        out,
        "\",\"pages_by_records\":[",
        &stats.by_records[..by_records],
    )?;
    let by_bits = BIT_COUNTS.min(usize::from(stats.longest.len()) + 1);
    push_list(out, "],\"pages_by_bits\":[", &stats.by_bits[..by_bits])?;
    push_text(out, "]")
}

// Adds how much each ward has.
fn push_wards(out: &mut Vec<u8>, wards: &[WardCounts]) -> Result<(), AllocError> {
    push_text(out, ",\"ward_counts\":[")?;
    for number in 0..wards.len() {
        if number > 0 {
            push_text(out, ",")?;
        }
        push_member(out, "{\"pages\":", wards[number].pages)?;
        push_member(out, ",\"records\":", wards[number].records)?;
        push_text(out, "}")?;
    }
    push_text(out, "]")
}

// Adds words and the numbers of a list, parted by commas.
fn push_list(out: &mut Vec<u8>, words: &str, numbers: &[u64]) -> Result<(), AllocError> {
    push_text(out, words)?;
    for number in 0..numbers.len() {
        if number > 0 {
            push_text(out, ",")?;
        }
        push_number(out, numbers[number])?;
    }
    Ok(())
}

// Adds words and a number.
fn push_member(out: &mut Vec<u8>, words: &str, number: u64) -> Result<(), AllocError> {
    push_text(out, words)?;
    push_number(out, number)
}

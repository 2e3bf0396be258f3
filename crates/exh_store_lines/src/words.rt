//! What single words stand for.

use crate::line_fault::LineFault;
use exh_page::keyer_named;
use exh_text::{ByteWord, parse_u32};
use exhash::Settings;
use std::alloc::Global;
use std::str;

/// The bytes of a key or a value, however many, as scripts spell them.
///
/// `Wrong`: the word spells none. `Store`: memory was refused.
pub(crate) fn bytes_of(alloc: Global, word: &[u8]) -> Result<Vec<u8>, LineFault> {
    if ByteWord::parse(word).is_none() {
        return Err(LineFault::Wrong);
    }
    let mut bytes = Vec::new(alloc);
    match word {
        [b'#', digits @ ..] => {
            bytes.resize(digits.len() / 2, 0)?;
            decode(digits, &mut bytes)?;
        }
        word => bytes.extend_from_slice(word)?,
    }
    Ok(bytes)
}

// Writes the bytes that hexadecimal digits spell.
fn decode(digits: &[u8], bytes: &mut [u8]) -> Result<(), LineFault> {
    match hex::decode_to_slice(digits, bytes) {
        Ok(()) => Ok(()),
        Err(_) => Err(LineFault::Wrong),
    }
}

/// A path. `Wrong`: it isn't text.
pub(crate) fn path_of(word: &[u8]) -> Result<&str, LineFault> {
    match str::from_utf8(word) {
        Ok(path) => Ok(path),
        Err(_) => Err(LineFault::Wrong),
    }
}

/// The settings of a file, which may be none's. `Wrong`: a word is no such number, or no keyer.
pub(crate) fn settings_of(
    cap: &[u8],
    ward_bits: &[u8],
    keyer: &[u8],
) -> Result<Settings, LineFault> {
    match (byte_of(cap), byte_of(ward_bits), keyer_named(keyer)) {
        (Some(cap), Some(ward_bits), Some(keyer)) => Ok(Settings {
            cap,
            ward_bits,
            keyer,
        }),
        _ => Err(LineFault::Wrong),
    }
}

/// So many seconds. `Wrong`: the word is no number.
pub(crate) fn seconds_of(word: &[u8]) -> Result<u64, LineFault> {
    match parse_u32(word) {
        Some(seconds) => Ok(u64::from(seconds)),
        None => Err(LineFault::Wrong),
    }
}

fn byte_of(word: &[u8]) -> Option<u8> {
    u8::try_from(parse_u32(word)?).ok()
}

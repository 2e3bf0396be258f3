//! The page file of three pairs, byte by byte.

use sha2::{Digest, Sha256};
use std::alloc::{AllocError, Global};

// How many bytes of a block stand before its digest.
const CONTENT_LEN: usize = 4064;

// The content of each block up to its zeros, from docs/FORMATS.md: the header of a file of one ward of two pages, of cap 2
// and of keyer plain, with one entry; page 0 of prefix 0 and right link 1, with the records `#00` a and `#40` x; page 1 of
// prefix 1 and no right link, with `#80` b; and the entry of the split that made it.
const CONTENTS: [&[u8]; 4] = [
    b"EXHASHPF\x00\x02\x02\x00\x02\x00\x00\x00\x00\x00\x00\x01\x00\x00\x00\x02",
    b"\x01\x01\x02\x00\x00\x00\x00\x01\x00\x00\x00\x00\x00\x00\x00\x00\x01\x01\x00\x61\x01\x01\x40\x78",
    b"\x01\x01\x01\x00\xff\xff\xff\xff\x80\x00\x00\x00\x00\x00\x00\x00\x01\x01\x80\x62",
    b"\x00\x01\x00\x00\x00\x00\x00\x00\x00\x00\x00\x01\x00\x00\x00\x01",
];

/// The bytes of the file that a load makes of `file cap=2 wards=0 copies=1 keyer=plain` and the pairs `#00 a`, `#80 b` and
/// `#40 x`, each block with the digest of its content. An `AllocError` where memory is refused.
pub fn three_pairs(alloc: Global) -> Result<Vec<u8>, AllocError> {
    let mut file = Vec::new(alloc);
    for content in CONTENTS {
        let mut block = [0; CONTENT_LEN];
        for (byte, given) in block.iter_mut().zip(content) {
            *byte = *given;
        }
        file.extend_from_slice(&block)?;
        file.extend_from_slice(&Sha256::digest(&block))?;
    }
    Ok(file)
}

//! The three-pair file of FORMATS.md in version 3, which is written out by hand from its tables.
ghost use Rattle.std.specs.Prelude.{◌≤◌, ◌+◌, length};
ghost use Rattle.exh_codec.specs.declared.block.TheConstants.{CONTENT_LEN};

use exh_codec::{BLOCK_LEN, seal};
use std::alloc::{AllocError, Global};

type Block = [u8; BLOCK_LEN];

// Puts bytes into a block.
fn put(block: &mut Block, at: usize, bytes: &[u8])
    requires { at + length bytes.now ≤ CONTENT_LEN }
{
    block[at..at + bytes.len()].copy_from_slice(bytes);
}

// A block that begins with these bytes, and else is zero.
fn begun(bytes: &[u8]) -> Block
    requires { length bytes.now ≤ CONTENT_LEN }
{
    let mut block = [0; BLOCK_LEN];
    put(&mut block, 0, bytes);
    block
}

// The header of cap 2 under keyer plain, with two pages and the stamps 7 and 5.
fn header() -> Block {
    let mut block = begun(b"EXHASHPF");
    put(&mut block, 8, &[0, 3, 2, 0, 2]);
    put(&mut block, 19, &[0, 0, 0, 0, 2]);
    put(&mut block, 91, &[7, 0, 0, 0, 0, 0, 0, 0, 5]);
    block
}

// The page of keys 00 and 40, and that of key 80.
fn pages() -> [Block; 2] {
    let first = [
        1, 1, 2, 0, 0, 0, 0, 1, 0, 0, 0, 0, 0, 0, 0, 0, 1, 1, 0, 0x61, 1, 1, 0x40, 0x78,
    ];
    let second = [
        1, 1, 1, 0, 0xff, 0xff, 0xff, 0xff, 0x80, 0, 0, 0, 0, 0, 0, 0, 1, 1, 0x80, 0x62,
    ];
    [begun(&first), begun(&second)]
}

// Blocks one after the other, each with its digest.
fn sealed(alloc: Global, blocks: &[Block]) -> Result<Vec<u8>, AllocError> {
    let mut bytes = Vec::new(alloc);
    for block in blocks {
        let mut whole = *block;
        seal(&mut whole);
        bytes.extend_from_slice(&whole)?;
    }
    Ok(bytes)
}

/// The file of version 3.
pub(crate) fn third_version(alloc: Global) -> Result<Vec<u8>, AllocError> {
    let [first, second] = pages();
    let mut walk = begun(&[0, 0, 0, 0, 0, 0, 0, 1, 0, 0, 0, 1]);
    put(&mut walk, 164, &[0, 0, 0, 1]);
    sealed(alloc, &[header(), walk, first, second])
}

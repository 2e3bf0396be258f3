//! A page file of version 3 whose reader fails before, at and behind the byte that ends its version, and at the ends of
//! blocks.

use exh_codec::{BLOCK_LEN, seal};
use exh_fixtures::FakeReader;
use exh_format::LegalFileFault;
use exh_page::Page;
use exh_versions::{AnyFile, read_any_file};
use std::alloc::{AllocError, Global};
use std::io::{ErrorKind, Read};
use std::test::Fail;

// The header and the walk block of the three-pair file of docs/FORMATS.md.
fn first_blocks(alloc: Global) -> Result<Vec<u8>, AllocError> {
    let mut header = [0; BLOCK_LEN];
    header[..13].copy_from_slice(b"EXHASHPF\x00\x03\x02\x00\x02");
    header[23] = 2;
    seal(&mut header);
    let mut walk = [0; BLOCK_LEN];
    walk[7] = 1;
    walk[11] = 1;
    walk[167] = 1;
    seal(&mut walk);
    let mut bytes = Vec::new(alloc);
    bytes.extend_from_slice(&header)?;
    bytes.extend_from_slice(&walk)?;
    Ok(bytes)
}

// The number of the fault that is told of the first so many of these bytes, behind which the reader fails, if there is one.
fn refusal_behind(alloc: Global, bytes: &[u8], len: usize) -> Option<u8> {
    let failing = FakeReader {
        rest: b"",
        most: 1,
        fault: Some((1, ErrorKind::Other)),
        reads: 0,
    };
    let mut reader = bytes[..len.min(bytes.len())].chain(failing);
    let read: Result<AnyFile<Vec<Page>>, LegalFileFault> = read_any_file(alloc, &mut reader);
    match read {
        Ok(_) => None,
        Err(fault) => Some(fault.number()),
    }
}

#[test]
fn the_fault_of_a_reader_is_told(rt: HostRuntime) -> Result<(), Fail> {
    let bytes = first_blocks(rt.alloc())?;
    for len in [0, 9, 10, 4096, 8192] {
        assert!(rt; refusal_behind(rt.alloc(), &bytes, len) == Some(41));
    }
    Ok(())
}

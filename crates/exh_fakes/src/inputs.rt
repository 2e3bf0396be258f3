//! Readers that give pieces, and that fail at one read: how many reads there are, and that none comes after a fault.

use exh_fixtures::FakeReader;
use exh_stream::{InputFault, ReadFault, Source};
use std::alloc::{AllocError, Global};
use std::io::ErrorKind;
use std::test::Fail;

fn reader(rest: &[u8], most: usize) -> FakeReader<'_> {
    FakeReader {
        rest,
        most,
        fault: None,
        reads: 0,
    }
}

// Whether a reader that faults at a read is asked no more.
fn is_closed(reader: &mut FakeReader, alloc: Global, at: u32) -> bool {
    let mut source = Source::new(reader);
    let first = source.read_whole(alloc, 10).err();
    let filled = source.fill(&mut [0; 4]);
    let again = source.read_whole(alloc, 10).err();
    first == Some(InputFault::Read)
        && filled == Err(ReadFault)
        && again == Some(InputFault::Read)
        && reader.reads == at
}

fn wrong_fault(alloc: Global, kind: ErrorKind) -> Option<u32> {
    for at in [1, 2, 3, 4] {
        let mut reader = reader(b"abc", 1);
        reader.fault = Some((at, kind));
        if !is_closed(&mut reader, alloc, at) {
            return Some(at);
        }
    }
    None
}

#[test]
fn reads_nothing_after_a_fault(rt: HostRuntime) {
    for kind in [ErrorKind::Other, ErrorKind::Interrupted] {
        assert_eq!(rt; wrong_fault(rt.alloc(), kind), None);
    }
}

// A limit, how many bytes there are, the most bytes of a read, and how many reads there are.
type Row = (usize, usize, usize, u32);

const WHOLES: [Row; 12] = [
    // A whole input in any pieces.
    (31, 31, 1, 32),
    (31, 31, 7, 6),
    (31, 31, 31, 2),
    (31, 31, 8192, 2),
    // No more than the limit, and one byte more.
    (0, 0, 8192, 1),
    (0, 1, 8192, 1),
    (10_000, 10_000, 1, 10_001),
    (10_000, 10_001, 1, 10_001),
    (10_000, 10_000, 8192, 3),
    (10_000, 10_001, 8192, 2),
    // It asks for 8,192 bytes.
    (100_000, 8192, 10_000, 2),
    (100_000, 8193, 10_000, 3),
];

// Whether exactly these bytes are read, or refused where they are too many.
fn is_read(reader: &mut FakeReader, alloc: Global, bytes: &[u8], limit: usize) -> bool {
    match Source::new(reader).read_whole(alloc, limit) {
        Ok(whole) => bytes.len() <= limit && whole.as_slice() == bytes,
        Err(fault) => bytes.len() > limit && fault == InputFault::TooLong,
    }
}

fn wrong_whole(alloc: Global, bytes: &[u8]) -> Option<Row> {
    for (limit, len, most, reads) in WHOLES {
        let front = bytes.get(..len).unwrap_or_default();
        let mut reader = reader(front, most);
        let is_right = front.len() == len && is_read(&mut reader, alloc, front, limit);
        if !is_right || reader.reads != reads {
            return Some((limit, len, most, reads));
        }
    }
    None
}

// Bytes of which neighbours differ.
fn counted(alloc: Global) -> Result<Vec<u8>, AllocError> {
    let mut bytes = Vec::new(alloc);
    for at in 0..10_001u32 {
        bytes.push((at % 251) as u8)?;
    }
    Ok(bytes)
}

#[test]
fn reads_whole_up_to_a_limit(rt: HostRuntime) -> Result<(), Fail> {
    let bytes = counted(rt.alloc())?;
    assert_eq!(rt; bytes.len(), 10_001);
    assert_eq!(rt; wrong_whole(rt.alloc(), bytes.as_slice()), None);
    Ok(())
}

//! Writers that take pieces, and that refuse one write: how many writes there are, and that none comes after a fault.

use exh_fixtures::{FakeWriter, WriteRefusal};
use exh_stream::{Output, WriteFault};
use std::alloc::Global;
use std::io::ErrorKind;
use std::test::Fail;

fn writer(alloc: Global, most: usize) -> FakeWriter {
    FakeWriter {
        taken: Vec::new(alloc),
        most,
        room: None,
        refusal: WriteRefusal::NoBytes,
        writes: 0,
    }
}

// Pushes the text in parts of several sizes.
fn send(output: &mut Output<'_, FakeWriter>, text: &[u8]) -> Result<(), WriteFault> {
    let (front, rest) = text.split_at(text.len().min(9000));
    for part in front.chunks(700) {
        output.push(part)?;
    }
    output.push(rest)?;
    output.finish()
}

// The most bytes of a write, and how many writes 20,000 bytes take.
const WRITES: [(usize, u32); 3] = [(1, 20_000), (5000, 5), (8192, 3)];

fn is_sent(writer: &mut FakeWriter, text: &[u8], writes: u32) -> bool {
    let is_ok = send(&mut Output::new(writer), text).is_ok();
    is_ok && writer.taken.as_slice() == text && writer.writes == writes
}

fn wrong_writes(alloc: Global, text: &[u8]) -> Option<usize> {
    for (most, writes) in WRITES {
        if !is_sent(&mut writer(alloc, most), text, writes) {
            return Some(most);
        }
    }
    None
}

#[test]
fn writes_all_in_blocks(rt: HostRuntime) -> Result<(), Fail> {
    let text = vec![in rt.alloc(); b'x'; 20_000]?;
    assert_eq!(rt; wrong_writes(rt.alloc(), text.as_slice()), None);
    Ok(())
}

const REFUSALS: [WriteRefusal; 3] = [
    WriteRefusal::Error(ErrorKind::Other),
    WriteRefusal::Error(ErrorKind::Interrupted),
    WriteRefusal::NoBytes,
];

// Whether a writer with this room gets that much, and is asked no more after it refused: one
// write that took all, or up to the room, for each block begun, and the refused one.
fn is_closed(writer: &mut FakeWriter, text: &[u8], room: usize) -> bool {
    let mut output = Output::new(writer);
    let are_refused = send(&mut output, text).is_err()
        && output.push(b"more").is_err()
        && output.finish().is_err();
    are_refused && writer.taken.len() == room && writer.writes as usize == room.div_ceil(8192) + 1
}

fn wrong_room(alloc: Global, text: &[u8], refusal: WriteRefusal) -> Option<usize> {
    for room in [0, 1, 8191, 8192, 8193, 19_999] {
        let mut writer = writer(alloc, 8192);
        writer.room = Some(room);
        writer.refusal = refusal;
        if !is_closed(&mut writer, text, room) {
            return Some(room);
        }
    }
    None
}

#[test]
fn writes_nothing_after_a_fault(rt: HostRuntime) -> Result<(), Fail> {
    let text = vec![in rt.alloc(); b'x'; 20_000]?;
    for refusal in REFUSALS {
        assert_eq!(rt; wrong_room(rt.alloc(), text.as_slice(), refusal), None);
    }
    Ok(())
}

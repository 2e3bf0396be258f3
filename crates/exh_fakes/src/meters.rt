//! What a terminal shows, by a clock that a test sets.

use exh_fixtures::Screen;
use exh_stream::{ClearingWriter, Meter, MeteredReader, MeteredWriter, Unit, Work};
use std::alloc::{AllocError, Global};
use std::io::{Read, Write};
use std::test::Fail;

const BLOCK: [u8; 4096] = [7; 4096];

// At these times a block passes, of so many in all, and this is shown.
const SHOWN: [(u64, &[u8]); 8] = [
    (1000, b""),
    (1999, b""),
    (
        2000,
        b"\r\x1b[?7lexhash: 3 of 12,345 blocks read\x1b[K\x1b[?7h",
    ),
    (2001, b""),
    (2249, b""),
    (
        2250,
        b"\r\x1b[?7lexhash: 6 of 12,345 blocks read\x1b[K\x1b[?7h",
    ),
    // The steps before were fast, so one isn't looked at.
    (8999, b""),
    (
        9000,
        b"\r\x1b[?7lexhash: 8 of 12,345 blocks read\x1b[K\x1b[?7h",
    ),
];

const BLOCKS: Work = Work {
    unit: Unit::BlocksRead,
    of: Some(12_345),
};

fn wrong_time(screen: &Screen, meter: &Meter<&Screen>) -> Option<u64> {
    for (now, text) in SHOWN {
        screen.now.set(Some(now));
        meter.pass(&BLOCK);
        if !screen.has_shown(text) {
            return Some(now);
        }
    }
    None
}

#[test]
fn tells_after_two_seconds_and_four_times_a_second(rt: HostRuntime) {
    let screen = Screen::new(rt.alloc());
    let meter = Meter::new(Some(&screen), BLOCKS);
    assert_eq!(rt; wrong_time(&screen, &meter), None);
    meter.clear();
    assert!(rt; screen.has_shown(b"\r\x1b[K"));
    meter.clear();
    assert!(rt; screen.has_shown(b""));
}

#[test]
fn tells_nothing_without_a_terminal_or_a_clock(rt: HostRuntime) {
    let screen = Screen::new(rt.alloc());
    let meter: Meter<&Screen> = Meter::new(None, BLOCKS);
    meter.pass(&BLOCK);
    meter.clear();
    screen.now.set(None);
    let blind = Meter::new(Some(&screen), BLOCKS);
    screen.now.set(Some(5000));
    blind.pass(&BLOCK);
    assert!(rt; screen.has_shown(b""));
    assert_eq!(rt; screen.asked.get(), 1);
}

// Reads to the end in pieces of two bytes, three seconds after the work began.
fn read_late(alloc: Global, screen: &Screen, bytes: &[u8]) -> Result<Vec<u8>, AllocError> {
    let pairs = Work {
        unit: Unit::PairsRead,
        of: None,
    };
    let meter = Meter::new(Some(screen), pairs);
    screen.now.set(Some(3000));
    let mut reader = MeteredReader::new(bytes, &meter);
    let mut read = Vec::new(alloc);
    for _ in 0..bytes.len() {
        let mut piece = [0; 2];
        let count = reader.read(&mut piece).unwrap_or(0);
        read.extend_from_slice(&piece[..count.min(2)])?;
    }
    Ok(read)
}

#[test]
fn reads_what_is_there_and_takes_the_line_away(rt: HostRuntime) -> Result<(), Fail> {
    let screen = Screen::new(rt.alloc());
    let read = read_late(rt.alloc(), &screen, b"f\na\n")?;
    assert!(rt; read.as_slice() == b"f\na\n".as_slice());
    assert!(rt; screen.has_shown(b"\r\x1b[?7lexhash: 0 pairs read\x1b[K\x1b[?7h\r\x1b[K"));
    Ok(())
}

// Whether a write passes, and the line is shown behind it.
fn is_written(screen: &Screen, meter: &Meter<&Screen>) -> bool {
    let is_ok = MeteredWriter::new(screen, meter).write_all(b"x").is_ok();
    is_ok && screen.has_shown(b"x\r\x1b[?7lexhash: 0 blocks written\x1b[K\x1b[?7h")
}

// Whether the line is taken away before what is written.
fn is_cleared(screen: &Screen, meter: &Meter<&Screen>) -> bool {
    let mut clearing = ClearingWriter::new(screen, meter);
    let are_ok = clearing.write_all(b"a\n").is_ok()
        && clearing.write_all(b"b\n").is_ok()
        && clearing.flush().is_ok();
    are_ok && screen.has_shown(b"\r\x1b[Ka\nb\n")
}

#[test]
fn writes_what_it_gets(rt: HostRuntime) {
    let screen = Screen::new(rt.alloc());
    let written = Work {
        unit: Unit::BlocksWritten,
        of: None,
    };
    let meter = Meter::new(Some(&screen), written);
    screen.now.set(Some(3000));
    assert!(rt; is_written(&screen, &meter));
    assert!(rt; is_cleared(&screen, &meter));
}

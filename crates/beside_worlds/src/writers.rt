//! The page file of the three pairs is written to writers that take it in pieces, and to ones that refuse once, after each
//! number of bytes: exactly so many went out, and no more.

ghost use Rattle.std.specs.Prelude.{◌<◌};

use crate::three_pairs::{BLOCK_LEN, not_opened, reader_of, write_to, writer_for};
use exh_fixtures::{Difference, FakeWriter, Part, Run, WriteRefusal, same, three_pairs};
use exh_frames::FileStore;
use exh_script::{Opened, SaveFault, open};
use std::io::ErrorKind;

// What the writer answers where it has no room.
const REFUSALS: [WriteRefusal; 2] = [WriteRefusal::Error(ErrorKind::Other), WriteRefusal::NoBytes];

// The most bytes that a writer takes at once.
const PIECES: [usize; 4] = [1, 61, 5000, 8192];

/// Writes the file with room for each number of bytes below all that the rounds let it try, and at the ends of blocks.
pub(crate) fn run(run: &mut Run) -> Result<(), Difference> {
    let file = three_pairs(run.alloc)?;
    let mut writer = writer_for(run.alloc, &file)?;
    let mut reader = reader_of(&file, BLOCK_LEN);
    match open(run.alloc, &mut reader) {
        Ok(mut opened) => {
            write_all(run, &mut opened, &file, &mut writer);
            Ok(())
        }
        Err(fault) => Err(not_opened(fault)),
    }
}

fn write_all(run: &mut Run, opened: &mut Opened<FileStore>, file: &[u8], writer: &mut FakeWriter) {
    write_pieces(run, opened, file, writer);
    let stride = file.len() / (run.rounds.max(1) as usize);
    for room in 0..file.len() {
        if is_tried(room, stride.max(1)) {
            let is_right = write_up_to(opened, file, writer, room);
            run.tally
                .step(same(is_right != run.lie.is_due(), Part::Step));
        }
    }
}

// Whether a number of bytes is tried: one of so many, and those next to a block's end.
fn is_tried(room: usize, stride: usize) -> bool
    requires { 0 < stride }
{
    room % stride == 0 || matches!(room % BLOCK_LEN, 0 | 1 | 4095)
}

// All goes out, however few bytes a write takes.
fn write_pieces(
    run: &mut Run,
    opened: &mut Opened<FileStore>,
    file: &[u8],
    writer: &mut FakeWriter,
) {
    writer.room = None;
    for most in PIECES {
        writer.most = most;
        let saved = write_to(opened, writer);
        let is_written = saved.is_ok() && writer.taken.as_slice() == file;
        run.tally.step(same(is_written, Part::Step));
    }
}

// Whether a writer with this room gets so much, and the fault is its own, however it refuses.
fn write_up_to(
    opened: &mut Opened<FileStore>,
    file: &[u8],
    writer: &mut FakeWriter,
    room: usize,
) -> bool {
    let mut is_right = true;
    for refusal in REFUSALS {
        writer.room = Some(room);
        writer.refusal = refusal;
        let saved = write_to(opened, writer);
        is_right &= is_refused(saved)
            && writer.taken.len() == room
            && file.starts_with(writer.taken.as_slice());
    }
    is_right
}

fn is_refused(saved: Result<(), SaveFault>) -> bool {
    match saved {
        Ok(()) => false,
        Err(fault) => fault.number() == 42,
    }
}

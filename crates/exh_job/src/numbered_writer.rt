//! A writer of notes that puts a line's number into each.
ghost use Rattle.std.specs.Prelude.{None};

use itoa::Buffer;
use std::cell::Cell;
use std::io;
use std::io::Write;

// What a note of a line begins with, before the line's number.
const LINE: &[u8] = b"exhash: line ";

/// A writer of notes. Where one tells of a line, that line's number becomes the one in the cell. Each write is a note.
#[derive(Drop)]
pub struct NumberedWriter<'n, E: Write> {
    error: E,
    number: &'n Cell<u64>,
}

impl<'n, E: Write> NumberedWriter<'n, E> {
    /// To which nothing is written yet.
    pub fn new(error: E, number: &'n Cell<u64>) -> NumberedWriter<'n, E> {
        NumberedWriter { error, number }
    }
}

// No clause tells what is written.
impl<E: Write> Write for NumberedWriter<'_, E> {
    ghost contents = { λ _. None };

    fn write(&mut self, note: &[u8]) -> io::Result<usize> {
        let Some(behind) = behind_number(note) else {
            return self.error.write(note);
        };
        self.error.write_all(LINE)?;
        self.error
            .write_all(Buffer::new().format(self.number.get()).as_bytes())?;
        self.error.write_all(behind)?;
        Ok(note.len())
    }

    fn flush(&mut self) -> io::Result<()> {
        self.error.flush()
    }
}

// What stands behind the number of a note's line, where it tells of one.
fn behind_number(note: &[u8]) -> Option<&[u8]> {
    let told = note.strip_prefix(LINE)?;
    match told.iter().position(|byte| *byte == b':') {
        Some(end) => Some(&told[end..]),
        None => None,
    }
}

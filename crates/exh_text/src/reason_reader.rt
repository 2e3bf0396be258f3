use std::cell::Cell;
use std::io;
use std::io::Read;

/// A reader that leaves the reason for which it fails in a cell. It gives what the reader inside gives, and fails as
/// that does.
#[derive(Drop)]
pub struct ReasonReader<'c, R: Read> {
    reader: R,
    reason: &'c Cell<Option<io::Error>>,
}

impl<'c, R: Read> ReasonReader<'c, R> {
    ghost use Rattle.std.specs.Prelude.{◌≡◌};
    ghost use Rattle.exh_text.specs.ReasonReader.{reader_in};

    /// Of which nothing is read yet.
    pub fn new(reader: R, reason: &'c Cell<Option<io::Error>>) -> ReasonReader<'c, R>
        ensures { reader_in result ≡ reader }
    {
        ReasonReader { reader, reason }
    }
}

impl<R: Read> Read for ReasonReader<'_, R> {
    ghost use Rattle.exh_text.specs.ReasonReader.{reader_in};

    ghost remaining = { λ reading. R.remaining (reader_in reading) };

    fn read(&mut self, block: &mut [u8]) -> io::Result<usize> {
        match self.reader.read(block) {
            Err(error) => {
                self.reason.set(Some(error));
                Err(error)
            }
            given => given,
        }
    }
}

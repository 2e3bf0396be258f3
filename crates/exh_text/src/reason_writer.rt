use std::cell::Cell;
use std::io;
use std::io::Write;

/// A writer that leaves the reason for which it fails in a cell. It hands on what it gets to the writer inside, and fails
/// as that does.
#[derive(Drop)]
pub struct ReasonWriter<'c, W: Write> {
    writer: W,
    reason: &'c Cell<Option<io::Error>>,
}

impl<'c, W: Write> ReasonWriter<'c, W> {
    ghost use Rattle.std.specs.Prelude.{◌≡◌};
    ghost use Rattle.exh_text.specs.ReasonWriter.{writer_in};

    /// To which nothing is written yet.
    pub fn new(writer: W, reason: &'c Cell<Option<io::Error>>) -> ReasonWriter<'c, W>
        ensures { writer_in result ≡ writer }
    {
        ReasonWriter { writer, reason }
    }

    // What came of a write, of which an error becomes the reason.
    fn told<T>(&self, written: io::Result<T>) -> io::Result<T>
        ensures { result ≡ written }
    {
        if let Err(error) = &written {
            self.reason.set(Some(*error));
        }
        written
    }
}

impl<W: Write> Write for ReasonWriter<'_, W> {
    ghost use Rattle.exh_text.specs.ReasonWriter.{writer_in};

    ghost contents = { λ writing. W.contents (writer_in writing) };

    fn write(&mut self, bytes: &[u8]) -> io::Result<usize> {
        let written = self.writer.write(bytes);
        self.told(written)
    }

    fn flush(&mut self) -> io::Result<()> {
        let flushed = self.writer.flush();
        self.told(flushed)
    }
}

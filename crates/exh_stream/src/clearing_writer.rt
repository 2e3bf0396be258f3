ghost use Rattle.std.specs.Prelude.{◌≡◌};

use crate::{Meter, Terminal};
use std::io;
use std::io::Write;

/// A writer, as to the terminal where a meter's line stands: before it writes, the line is taken away. It hands on what
/// it gets to the writer inside, and fails as that does.
#[derive(Drop)]
pub struct ClearingWriter<'m, W: Write, T: Terminal> {
    writer: W,
    meter: &'m Meter<T>,
}

impl<'m, W: Write, T: Terminal> ClearingWriter<'m, W, T> {
    ghost use Rattle.exh_stream.specs.ClearingWriter.{writer_in};

    /// To which nothing is written yet.
    pub fn new(writer: W, meter: &'m Meter<T>) -> ClearingWriter<'m, W, T>
        ensures { writer_in result ≡ writer }
    {
        ClearingWriter { writer, meter }
    }
}

impl<W: Write, T: Terminal> Write for ClearingWriter<'_, W, T> {
    ghost use Rattle.exh_stream.specs.ClearingWriter.{writer_in};

    ghost contents = { λ clearing. W.contents (writer_in clearing) };

    fn write(&mut self, bytes: &[u8]) -> io::Result<usize> {
        self.meter.clear();
        self.writer.write(bytes)
    }

    fn flush(&mut self) -> io::Result<()> {
        self.writer.flush()
    }
}

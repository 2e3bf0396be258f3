ghost use Rattle.std.specs.Prelude.{◌≡◌};

use crate::{Meter, Terminal};
use std::io;
use std::io::Write;

/// A writer whose bytes a meter counts. It hands on what it gets to the writer inside, and fails as that does.
#[derive(Drop)]
pub struct MeteredWriter<'m, W: Write, T: Terminal> {
    writer: W,
    meter: &'m Meter<T>,
}

impl<'m, W: Write, T: Terminal> MeteredWriter<'m, W, T> {
    ghost use Rattle.exh_stream.specs.MeteredWriter.{writer_in};

    /// To which nothing is written yet.
    pub fn new(writer: W, meter: &'m Meter<T>) -> MeteredWriter<'m, W, T>
        ensures { writer_in result ≡ writer }
    {
        MeteredWriter { writer, meter }
    }
}

impl<W: Write, T: Terminal> Write for MeteredWriter<'_, W, T> {
    ghost use Rattle.exh_stream.specs.MeteredWriter.{writer_in};

    ghost contents = { λ metered. W.contents (writer_in metered) };

    fn write(&mut self, bytes: &[u8]) -> io::Result<usize> {
        let count = self.writer.write(bytes)?;
        self.meter.pass(&bytes[..count]);
        Ok(count)
    }

    fn flush(&mut self) -> io::Result<()> {
        self.writer.flush()
    }
}

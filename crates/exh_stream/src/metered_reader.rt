ghost use Rattle.std.specs.Prelude.{◌≡◌};

use crate::{Meter, Terminal};
use std::io;
use std::io::Read;

/// A reader whose bytes a meter counts. It gives what the reader inside gives, and fails as that does. At its end, and
/// where it fails, the meter's line is taken away.
#[derive(Drop)]
pub struct MeteredReader<'m, R: Read, T: Terminal> {
    reader: R,
    meter: &'m Meter<T>,
}

impl<'m, R: Read, T: Terminal> MeteredReader<'m, R, T> {
    ghost use Rattle.exh_stream.specs.MeteredReader.{reader_in};

    /// Of which nothing is read yet.
    pub fn new(reader: R, meter: &'m Meter<T>) -> MeteredReader<'m, R, T>
        ensures { reader_in result ≡ reader }
    {
        MeteredReader { reader, meter }
    }
}

impl<R: Read, T: Terminal> Read for MeteredReader<'_, R, T> {
    ghost use Rattle.exh_stream.specs.MeteredReader.{reader_in};

    ghost remaining = { λ metered. R.remaining (reader_in metered) };

    fn read(&mut self, block: &mut [u8]) -> io::Result<usize> {
        match self.reader.read(block) {
            Ok(count) if count > 0 => {
                self.meter.pass(&block[..count]);
                Ok(count)
            }
            ended => {
                self.meter.clear();
                ended
            }
        }
    }
}

//! Readers and writers for tests: they fail once, where a test says, would go on, and count their calls.

use std::io;
use std::io::{ErrorKind, Read, Write};

/// Gives at most `most` bytes a read, and faults at the read of this number.
#[derive(Drop)]
pub struct FakeReader<'a> {
    pub rest: &'a [u8],
    pub most: usize,
    pub fault: Option<(u32, ErrorKind)>,
    pub reads: u32,
}

impl Read for FakeReader<'_> {
    fn read(&mut self, buf: &mut [u8]) -> io::Result<usize> {
        self.reads = self.reads.saturating_add(1);
        if let Some((at, kind)) = self.fault
            && at == self.reads
        {
            return Err(kind.into());
        }
        let most = self.most.min(buf.len());
        self.rest.read(&mut buf[..most])
    }
}

/// What a writer answers once, where it doesn't take a byte.
#[derive(Clone, Copy)]
pub enum WriteRefusal {
    Error(ErrorKind),
    NoBytes,
}

/// Takes at most `most` bytes a write, and refuses once, after `room` bytes.
#[derive(Drop)]
pub struct FakeWriter {
    pub taken: Vec<u8>,
    pub most: usize,
    pub room: Option<usize>,
    pub refusal: WriteRefusal,
    pub writes: u32,
}

impl Write for FakeWriter {
    fn write(&mut self, buf: &[u8]) -> io::Result<usize> {
        self.writes = self.writes.saturating_add(1);
        let mut count = buf.len().min(self.most);
        if let Some(room) = self.room {
            if room == 0 {
                self.room = None;
                return match self.refusal {
                    WriteRefusal::Error(kind) => Err(kind.into()),
                    WriteRefusal::NoBytes => Ok(0),
                };
            }
            count = count.min(room);
            self.room = Some(room - count);
        }
        self.taken.extend_from_slice(&buf[..count])?;
        Ok(count)
    }

    fn flush(&mut self) -> io::Result<()> {
        Ok(())
    }
}

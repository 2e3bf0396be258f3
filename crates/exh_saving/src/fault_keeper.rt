ghost use Rattle.std.specs.Prelude.{◌≡◌, IfNone, IfSome, IsSome, None, OnErr};
ghost use Rattle.std.specs.Io.{WritesAtMost};
ghost use Rattle.std.specs.Io.KnownBytes.{WriteAppends};
ghost use Rattle.std.specs.IoError.{error_kind};
ghost use Rattle.std.specs.declared.io.ErrorKind.TheVariants.{WriteZero};

use crate::Watch;
use std::io;
use std::io::Write;

/// A writer that hands on what it gets, tells a watch of it, and keeps why the writer inside failed last.
#[derive(Drop)]
pub(crate) struct FaultKeeper<'v, W: Write + Drop, V: Watch> {
    writer: W,
    watch: &'v V,
    fault: Option<io::Error>,
}

impl<'v, W: Write + Drop, V: Watch> FaultKeeper<'v, W, V> {
    pub(crate) fn new(writer: W, watch: &'v V) -> FaultKeeper<'v, W, V>
        ensures writer { result.writer ≡ writer }
        ensures fault { result.fault ≡ None }
    {
        FaultKeeper {
            writer,
            watch,
            fault: None,
        }
    }

    /// The writer, and why it failed last; where it took no bytes without a word, that.
    pub(crate) fn into_parts(self) -> (W, io::Error)
        ensures writer { result.0 ≡ self.entry.writer }
        ensures fault { IfSome self.entry.fault (λ fault. result.1 ≡ fault) }
        ensures none { IfNone self.entry.fault (error_kind result.1 ≡ WriteZero) }
    {
        match self.fault {
            Some(fault) => (self.writer, fault),
            None => (self.writer, io::Error::from(io::ErrorKind::WriteZero)),
        }
    }
}

impl<W: Write + Drop, V: Watch> Write for FaultKeeper<'_, W, V> {
    ghost contents = { λ keeper. W.contents keeper.writer };

    fn write(&mut self, bytes: &[u8]) -> io::Result<usize>
        ensures bound { WritesAtMost result bytes.now }
        ensures bytes { WriteAppends (W.contents self.old.writer) (W.contents self.new.writer) result bytes.now }
        ensures kept { OnErr result (IsSome self.new.fault) }
    {
        match self.writer.write(bytes) {
            Ok(count) => {
                self.watch.wrote(&bytes[..count]);
                Ok(count)
            }
            Err(fault) => {
                let kind = fault.kind();
                self.fault = Some(fault);
                Err(io::Error::from(kind))
            }
        }
    }

    fn flush(&mut self) -> io::Result<()> {
        self.writer.flush()
    }
}

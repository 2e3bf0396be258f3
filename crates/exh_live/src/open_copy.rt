ghost use Rattle.std.specs.Prelude.{◌≡◌};

use exh_copy::{CopyWriter, Start};
use std::sync::Wait;

/// The writer of a copy of the directory. Where it is let go, the copy is closed, which may wait for
/// its readers.
pub struct OpenCopy<'a, R: Wait, S: Start> {
    pub(crate) rt: &'a R,
    pub writer: CopyWriter<S>,
}

impl<R: Wait, S: Start> Drop for OpenCopy<'_, R, S> {
    fn drop(self) {
        let OpenCopy { rt, writer } = self;
        drop(writer.close(rt));
    }
}

impl<'a, R: Wait, S: Start> OpenCopy<'a, R, S> {
    /// The copy of this writer.
    pub fn new(rt: &'a R, writer: CopyWriter<S>) -> OpenCopy<'a, R, S>
        ensures { result.writer ≡ writer }
    {
        OpenCopy { rt, writer }
    }
}

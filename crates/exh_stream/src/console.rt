use crate::Terminal;
use std::io::{IsTerminal, Write};
use std::time::{Clock, Duration};

/// A terminal that a program writes to, as its standard error, beside the clock of the system.
#[derive(Drop)]
pub struct Console<'c, C: Clock, E: Write + Copy> {
    clock: &'c C,
    error: E,
}

impl<'c, C: Clock, E: Write + IsTerminal + Copy> Console<'c, C, E> {
    /// The terminal to which `error` writes; `None` where it writes to none.
    pub fn new(clock: &'c C, error: E) -> Option<Console<'c, C, E>> {
        if error.is_terminal() {
            Some(Console { clock, error })
        } else {
            None
        }
    }
}

impl<C: Clock, E: Write + Copy> Terminal for Console<'_, C, E> {
    fn milliseconds(&self) -> Option<u64> {
        let time = self.clock.monotonic().ok()?;
        u64::try_from(time.as_millis()).ok()
    }

    fn show(&self, bytes: &[u8]) {
        let mut error = self.error;
        let _ = error.write_all(bytes);
    }
}

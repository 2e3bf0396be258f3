//! A terminal with a clock, both a test's own.

use exh_stream::Terminal;
use std::alloc::Global;
use std::cell::{Cell, RefCell};
use std::io;
use std::io::Write;

/// A terminal that keeps what it is shown, with a clock that a test sets.
#[derive(Drop)]
pub struct Screen {
    /// The clock, in milliseconds; `None` where there is none.
    pub now: Cell<Option<u64>>,
    /// How often the clock was asked.
    pub asked: Cell<u32>,
    shown: RefCell<Vec<u8>>,
}

impl Screen {
    /// One that was shown nothing, at the time 0. It takes no memory.
    pub fn new(alloc: Global) -> Screen {
        Screen {
            now: Cell::new(Some(0)),
            asked: Cell::new(0),
            shown: RefCell::new(Vec::new(alloc)),
        }
    }

    /// Whether this was shown since the last call.
    pub fn has_shown(&self, text: &[u8]) -> bool {
        match self.shown.try_borrow_mut() {
            Ok(mut shown) => {
                let is_same = shown.as_slice() == text;
                shown.clear();
                is_same
            }
            Err(_) => false,
        }
    }
}

impl Terminal for &Screen {
    fn milliseconds(&self) -> Option<u64> {
        self.asked.set(self.asked.get().saturating_add(1));
        self.now.get()
    }

    fn show(&self, bytes: &[u8]) {
        if let Ok(mut shown) = self.shown.try_borrow_mut() {
            let _ = shown.extend_from_slice(bytes);
        }
    }
}

// A writer to the screen itself.
impl Write for &Screen {
    fn write(&mut self, bytes: &[u8]) -> io::Result<usize> {
        self.show(bytes);
        Ok(bytes.len())
    }

    fn flush(&mut self) -> io::Result<()> {
        Ok(())
    }
}

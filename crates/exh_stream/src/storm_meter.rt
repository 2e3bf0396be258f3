use crate::Terminal;
use crate::line::{CLEARED, storm_line};
use crate::pace::Pace;
use crate::storm_counts::StormCounts;
use std::sync::Mutex;
use std::sync::atomic::{AtomicU64, Ordering};

/// How far a storm is, told on one line of a terminal, at the times at which a `Meter` tells. Threads share it, and all
/// that they say is counted; one that comes while another is at the terminal leaves it to that one, and doesn't wait. It
/// takes no memory, and never fails.
#[derive(Drop)]
pub struct StormMeter<T: Terminal> {
    terminal: T,
    calls: AtomicU64,
    merges: AtomicU64,
    notices: AtomicU64,
    // None where the terminal's clock couldn't be read.
    pace: Mutex<Option<Pace>>,
}

impl<T: Terminal> StormMeter<T> {
    /// Of a storm that begins now.
    pub fn new(terminal: T) -> StormMeter<T> {
        let pace = terminal.milliseconds().map(Pace::new);
        StormMeter {
            terminal,
            calls: AtomicU64::new(0),
            merges: AtomicU64::new(0),
            notices: AtomicU64::new(0),
            pace: Mutex::new(pace),
        }
    }

    /// One call more was answered.
    pub fn answered(&self) {
        self.calls.fetch_add(1, Ordering::SeqCst);
        self.pass();
    }

    /// So many merges more were made.
    pub fn merged(&self, merges: u32) {
        self.merges.fetch_add(u64::from(merges), Ordering::SeqCst);
        self.pass();
    }

    /// So many notices more were carried.
    pub fn carried(&self, notices: u64) {
        self.notices.fetch_add(notices, Ordering::SeqCst);
        self.pass();
    }

    /// Takes the line away, where one stands. It may come again.
    pub fn clear(&mut self) {
        if let Some(pace) = self.pace.get_mut()
            && pace.stands
        {
            self.terminal.show(CLEARED);
            *pace = pace.clear();
        }
    }

    // Goes a step further, and shows the line, where that is due and no other thread is at it.
    fn pass(&self) {
        if let Some(mut guard) = self.pace.try_lock()
            && let Some(pace) = *guard
        {
            let (further, is_told) = pace.step(1, &self.terminal);
            if is_told {
                self.terminal.show(storm_line(self.counts()).as_slice());
            }
            *guard = Some(further);
        }
    }

    fn counts(&self) -> StormCounts {
        StormCounts {
            calls: self.calls.load(Ordering::SeqCst),
            merges: self.merges.load(Ordering::SeqCst),
            notices: self.notices.load(Ordering::SeqCst),
        }
    }
}

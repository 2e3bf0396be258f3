//! What a terminal shows of a storm.

use arrayvec::ArrayVec;
use exh_fixtures::Screen;
use exh_stream::{StormMeter, Terminal};
use std::sync::Mutex;
use std::sync::atomic::{AtomicU32, AtomicU64, Ordering};
use std::thread;
use std::thread::Threads;
use std::time::{Clock, Duration};

#[test]
fn tells_of_a_storm(rt: HostRuntime) {
    let screen = Screen::new(rt.alloc());
    let mut meter = StormMeter::new(&screen);
    screen.now.set(Some(1999));
    meter.answered();
    assert!(rt; screen.has_shown(b""));
    screen.now.set(Some(2000));
    meter.merged(33);
    let first = b"\r\x1b[?7lexhash: 1 calls answered, 33 merges, 0 notices carried\x1b[K\x1b[?7h";
    assert!(rt; screen.has_shown(first));
    screen.now.set(Some(2249));
    meter.carried(1_000_000);
    assert!(rt; screen.has_shown(b""));
    screen.now.set(Some(2250));
    meter.carried(234_567);
    let second =
        b"\r\x1b[?7lexhash: 1 calls answered, 33 merges, 1,234,567 notices carried\x1b[K\x1b[?7h";
    assert!(rt; screen.has_shown(second));
    meter.clear();
    assert!(rt; screen.has_shown(b"\r\x1b[K"));
    meter.clear();
    assert!(rt; screen.has_shown(b""));
}

// How often a wait looks.
const TURNS: u32 = 100_000;

// A terminal at which who shows a line waits until another thread has passed. By its clock two seconds pass between two
// looks at it.
#[derive(Drop)]
struct Board<'a, R: Clock> {
    clock: &'a R,
    looks: AtomicU64,
    shows: AtomicU32,
    passes: AtomicU32,
    shown: Mutex<ArrayVec<u8, 128>>,
}

impl<'a, R: Clock> Board<'a, R> {
    fn new(clock: &'a R) -> Board<'a, R> {
        Board {
            clock,
            looks: AtomicU64::new(0),
            shows: AtomicU32::new(0),
            passes: AtomicU32::new(0),
            shown: Mutex::new(ArrayVec::new()),
        }
    }

    // Lets other threads run until this is counted. Not where that takes too long.
    fn wait_for(&self, count: &AtomicU32) -> bool {
        for _ in 0..TURNS {
            if count.load(Ordering::SeqCst) > 0 {
                return true;
            }
            thread::sleep(self.clock, Duration::from_micros(10));
        }
        false
    }

    // Whether so many lines were shown, of which this is the last.
    fn has_shown(&self, count: u32, text: &[u8]) -> bool {
        match self.shown.try_lock() {
            Some(shown) => {
                self.shows.load(Ordering::SeqCst) == count && shown.as_slice() == text
            }
            None => false,
        }
    }
}

impl<R: Clock> Terminal for &Board<'_, R> {
    fn milliseconds(&self) -> Option<u64> {
        Some(
            self.looks
                .fetch_add(1, Ordering::SeqCst)
                .saturating_mul(2000),
        )
    }

    // What another thread had to wait for is not kept.
    fn show(&self, bytes: &[u8]) {
        self.shows.fetch_add(1, Ordering::SeqCst);
        if self.wait_for(&self.passes)
            && let Some(mut shown) = self.shown.try_lock()
        {
            shown.clear();
            let _ = shown.try_extend_from_slice(bytes);
        }
    }
}

// One thread is at the terminal, and doesn't go on until another has told of a call and of notices.
fn told_by_two<R: Threads + Clock + Sync>(
    rt: &R,
    board: &Board<'_, R>,
    meter: &StormMeter<&Board<'_, R>>,
) {
    thread::join(
        rt,
        || meter.answered(),
        || {
            board.wait_for(&board.shows);
            meter.answered();
            meter.carried(5);
            board.passes.fetch_add(1, Ordering::SeqCst);
        },
    );
}

#[test]
fn no_thread_waits_for_the_one_that_shows(rt: HostRuntime) {
    let board = Board::new(&rt);
    let mut meter = StormMeter::new(&board);
    told_by_two(&rt, &board, &meter);
    let first = b"\r\x1b[?7lexhash: 1 calls answered, 0 merges, 0 notices carried\x1b[K\x1b[?7h";
    assert!(rt; board.has_shown(1, first));
    meter.merged(2);
    let second = b"\r\x1b[?7lexhash: 2 calls answered, 2 merges, 5 notices carried\x1b[K\x1b[?7h";
    assert!(rt; board.has_shown(2, second));
    meter.clear();
    assert!(rt; board.has_shown(3, b"\r\x1b[K"));
}

//! What standard error says of an import that goes on.
ghost use Rattle.std.specs.Prelude.{◌≡◌, ◌*◌, ◌/◌, max, min};

use exh_run::Run;
use exh_text::Escaped;
use std::time::{Duration, Instant};

// So many milliseconds are between two lines at least.
const APART: u64 = 1000;

/// When an import was last told of, and how many pairs were put in by then.
#[derive(Clone, Copy)]
pub(crate) struct Progress {
    // `None` where the system has no clock.
    since: Option<Instant>,
    pairs: u64,
}

impl Progress {
    /// Of an import that begins now.
    pub(crate) fn new(rt: &HostRuntime) -> Progress {
        Progress {
            since: Instant::now(rt).ok(),
            pairs: 0,
        }
    }

    /// Says how many pairs are put in, and how many it were a second, where it was last said a second ago or more.
    pub(crate) fn tell(&mut self, run: &Run<'_>, pairs: u64) {
        let Some(passed) = self.passed(run.rt) else {
            return;
        };
        if passed < APART {
            return;
        }
        let rate = rate_of(pairs.saturating_sub(self.pairs), passed);
        let path = Escaped(run.path);
        let _ = eprintln!(run.rt; "exhash: {path}: {pairs} pairs put in, {rate} a second");
        self.since = Instant::now(run.rt).ok();
        self.pairs = pairs;
    }

    // How many milliseconds ago it was last said, where the system has a clock.
    fn passed(&self, rt: &HostRuntime) -> Option<u64> {
        let passed = self.since?.elapsed(rt).ok()?;
        Some(milliseconds_of(passed))
    }
}

// A time in whole milliseconds.
fn milliseconds_of(passed: Duration) -> u64 {
    passed
        .as_secs()
        .saturating_mul(1000)
        .saturating_add(u64::from(passed.subsec_millis()))
}

// How many a second are so many in such a time, which is in milliseconds.
fn rate_of(pairs: u64, passed: u64) -> u64
    ensures { result ≡ min (pairs * 1000) u64.MAX / max passed 1 }
{
    pairs.saturating_mul(1000) / passed.max(1)
}

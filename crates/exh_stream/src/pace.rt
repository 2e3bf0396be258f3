//! When a line is shown, and when the clock is asked for that. Times are in milliseconds of one clock.
ghost use Rattle.std.specs.Prelude.{◌≡◌, ◌+◌, ◌-◌, ◌*◌, ◌<◌, ◌≤◌, ◌↔◌, min, true, false, None, Some, IsTrue};
ghost use Rattle.exh_stream.specs.Pace.{IsApart, IsTold, IsToldStep};

use crate::Terminal;

/// How long work goes on before it is told of.
pub(crate) const QUIET: u64 = 2000;

/// How long after a line the next one is shown at the earliest.
pub(crate) const APART: u64 = 250;

/// The most steps from one look at the clock to the next.
pub(crate) const STEPS: u8 = 16;

/// A look at the clock that comes so soon after the one before it comes too often.
pub(crate) const SOON: u64 = 10;

/// How far work is, and when it was told of.
#[derive(Clone, Copy)]
pub(crate) struct Pace {
    pub(crate) began: u64,
    pub(crate) done: u64,
    /// When a line was last shown.
    pub(crate) told: Option<u64>,
    /// Whether a line stands there.
    pub(crate) stands: bool,
    /// When the clock was last asked.
    pub(crate) asked: u64,
    /// How many steps there are from one look at the clock to the next, and how many of them are left.
    pub(crate) steps: u8,
    pub(crate) left: u8,
}

impl Pace {
    // Of work that begins now.
    pub(crate) fn new(now: u64) -> Pace
        ensures { result ≡ record { began = now; done = 0; told = None; stands = false; asked = now; steps = 1; left = 1 } }
    {
        Pace {
            began: now,
            done: 0,
            told: None,
            stands: false,
            asked: now,
            steps: 1,
            left: 1,
        }
    }

    // One step further, by this much, with a look at the terminal's clock where that is due. Answers how far the work is
    // then, and whether a line is to be shown now, which it takes as shown.
    pub(crate) fn step<T: Terminal>(self, amount: u64, terminal: &T) -> (Pace, bool)
        ensures done { result.0.done ≡ min (self.done + amount) u64.MAX }
        ensures began { result.0.began ≡ self.began }
        ensures told { result.1 ≡ true → IsToldStep self result.0 }
        ensures quiet { result.1 ≡ false → (result.0.told ≡ self.told) × (result.0.stands ≡ self.stands) }
    {
        let further = self.pass(amount);
        if !further.is_due() {
            return (further, false);
        }
        let Some(now) = terminal.milliseconds() else {
            return (further, false);
        };
        let asked = further.ask(now);
        if asked.is_told(now) {
            (asked.tell(now), true)
        } else {
            (asked, false)
        }
    }

    // One step further, by this much.
    pub(crate) fn pass(self, amount: u64) -> Pace
        ensures { result ≡ record self { done = min (self.done + amount) u64.MAX; left = self.left - 1 } }
    {
        Pace {
            done: self.done.saturating_add(amount),
            left: self.left.saturating_sub(1),
            ..self
        }
    }

    // Whether the clock is to be asked.
    pub(crate) fn is_due(self) -> bool
        ensures { IsTrue result ↔ (self.left ≡ 0) }
    {
        self.left == 0
    }

    // The clock was asked. It is asked at each step while they are slow, and of fast ones at twice as many steps each
    // time, up to a limit.
    pub(crate) fn ask(self, now: u64) -> Pace
        ensures slow { SOON ≤ now - self.asked → result ≡ record self { asked = now; steps = 1; left = 1 } }
        ensures fast { now - self.asked < SOON → result ≡ record self { asked = now; steps = min (2 * self.steps) STEPS; left = min (2 * self.steps) STEPS } }
    {
        let is_slow = now.saturating_sub(self.asked) >= SOON;
        let steps = if is_slow {
            1
        } else {
            self.steps.saturating_mul(2).min(STEPS)
        };
        Pace {
            asked: now,
            steps,
            left: steps,
            ..self
        }
    }

    // Whether a line is shown now.
    pub(crate) fn is_told(self, now: u64) -> bool
        ensures { IsTrue result ↔ IsTold self now }
    {
        now.saturating_sub(self.began) >= QUIET && is_apart(self.told, now)
    }

    // A line was shown.
    pub(crate) fn tell(self, now: u64) -> Pace
        ensures { result ≡ record self { told = Some now; stands = true } }
    {
        Pace {
            told: Some(now),
            stands: true,
            ..self
        }
    }

    // The line was taken away.
    pub(crate) fn clear(self) -> Pace
        ensures { result ≡ record self { stands = false } }
    {
        Pace {
            stands: false,
            ..self
        }
    }
}

// Whether a line may come now, where the last was shown then.
fn is_apart(told: Option<u64>, now: u64) -> bool
    ensures { IsTrue result ↔ IsApart told now }
{
    match told {
        Some(told) => now.saturating_sub(told) >= APART,
        None => true,
    }
}

use crate::line::{CLEARED, line};
use crate::pace::Pace;
use crate::{Terminal, Work};
use std::cell::Cell;

/// How far work is, told on one line of a terminal: from two seconds after its beginning on, at most four times a
/// second, and until the line is taken away. A reader, a writer and their caller share one. It takes no memory, and
/// never fails.
#[derive(Drop)]
pub struct Meter<T: Terminal> {
    terminal: Option<T>,
    work: Work,
    // None where there is no terminal, or its clock couldn't be read.
    pace: Cell<Option<Pace>>,
}

impl<T: Terminal> Meter<T> {
    /// Of work that begins now. Without a terminal nothing is told.
    pub fn new(terminal: Option<T>, work: Work) -> Meter<T> {
        let pace = match &terminal {
            Some(terminal) => terminal.milliseconds().map(Pace::new),
            None => None,
        };
        Meter {
            terminal,
            work,
            pace: Cell::new(pace),
        }
    }

    /// The work came further, by these bytes that were read or written.
    pub fn pass(&self, bytes: &[u8]) {
        if let (Some(terminal), Some(pace)) = (&self.terminal, self.pace.get()) {
            let (further, is_told) = pace.step(self.work.unit.amount(bytes), terminal);
            if is_told {
                terminal.show(line(self.work, further.done).as_slice());
            }
            self.pace.set(Some(further));
        }
    }

    /// Takes the line away, where one stands. It may come again.
    pub fn clear(&self) {
        if let (Some(terminal), Some(pace)) = (&self.terminal, self.pace.get())
            && pace.stands
        {
            terminal.show(CLEARED);
            self.pace.set(Some(pace.clear()));
        }
    }
}

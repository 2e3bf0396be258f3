ghost use Rattle.std.specs.Prelude.{◌≡◌};

use crate::line_number::line_number;
use crate::note::Note;
use crate::tally::Tally;
use crate::texts::{
    TOO_LONG, keyer_differs, more, number_differs, spread, turned_away, unanswered, wrong_line,
};
use crate::wrong_word::wrong_word;
use crate::{Expect, Kind, LineFault, Listener, Parts};
use exh_keyer::AnyKeyer;
use exh_page::{FileSettings, is_same_keyer};
use std::io::Write;

/// How many lines of a kind are told of one by one.
pub const TOLD: u64 = 10;

/// What a run is told of, written line by line. Where it can't be written it is lost; it takes no memory.
#[derive(Drop)]
pub struct Notes<E: Write> {
    error: E,
    /// What the first word of a later line may be.
    first: Expect,
    /// How many lines that aren't empty came before.
    before: u64,
    tally: Tally,
}

impl<E: Write> Notes<E> {
    /// Of a text of which nothing was told yet, written to `error`. Its lines behind the first begin as `first` says.
    pub fn new(error: E, first: Expect) -> Notes<E> {
        Notes {
            error,
            first,
            before: 0,
            tally: Tally::NONE,
        }
    }

    /// Tells how many more lines of each kind there were.
    pub fn end(&mut self) {
        self.end_kind(Kind::Syntax);
        self.end_kind(Kind::Range);
        self.end_kind(Kind::Full);
    }

    fn end_kind(&mut self, kind: Kind) {
        let count = self.tally.of(kind);
        if count > TOLD {
            self.show(more(kind, count - TOLD).as_slice());
        }
    }

    // Tells of a line, where it is one of the first of its kind.
    fn tell(&mut self, text: &[u8], word: Option<&[u8]>, kind: Kind) {
        self.tally = self.tally.and(kind);
        if self.tally.of(kind) <= TOLD {
            let number = line_number(text, self.before);
            self.show(wrong_line(number, kind, word).as_slice());
        }
    }

    fn show(&mut self, bytes: &[u8]) {
        let _ = self.error.write_all(bytes);
    }
}

impl<E: Write> Listener for Notes<E> {
    fn first_refused(&mut self, text: &[u8], line: &[u8], fault: LineFault) {
        let kind = Kind::of_fault(fault);
        self.tell(text, wrong_word(Expect::File, line, fault), kind);
    }

    fn answered(&mut self, text: &[u8], line: &[u8], printed: &[u8]) {
        self.before = self.before.saturating_add(1);
        let Some(kind) = Kind::of_printed(printed) else {
            return;
        };
        let word = match kind {
            Kind::Syntax => wrong_word(self.first, line, LineFault::Syntax),
            Kind::Range => wrong_word(self.first, line, LineFault::Range),
            Kind::Full => Parts::new(b' ', line).next(),
        };
        self.tell(text, word, kind);
    }

    fn too_long(&mut self) {
        self.show(TOO_LONG);
    }

    fn differs(&mut self, script: FileSettings<AnyKeyer>, opened: FileSettings<AnyKeyer>) {
        if script.cap != opened.cap {
            let (script, opened) = (u64::from(script.cap), u64::from(opened.cap));
            self.show(number_differs(b"cap=", script, opened).as_slice());
        }
        if script.ward_bits != opened.ward_bits {
            let (script, opened) = (u64::from(script.ward_bits), u64::from(opened.ward_bits));
            self.show(number_differs(b"wards=", script, opened).as_slice());
        }
        if !is_same_keyer(script.keyer, opened.keyer) {
            self.show(keyer_differs(script.keyer, opened.keyer).as_slice());
        }
    }

    fn script_ended(&mut self, requests: u64) {
        if requests > 0 {
            self.show(unanswered(requests).as_slice());
        }
    }

    fn pairs_ended(&mut self, file: FileSettings<AnyKeyer>) {
        let count = self.tally.of(Kind::Full);
        if count > 0 {
            self.show(turned_away(count, file.cap).as_slice());
            self.show(spread(file.keyer));
        }
    }
}

//! Lines that an import doesn't put in.

use crate::rejects_file::RejectsFile;
use exh_import::{Rejection, Rejects};
use exh_run::{INPUT, Run, tell_refused};
use exh_text::Escaped;

// How long a line is shown on standard error.
const SHOWN: usize = 200;

/// Names each line that isn't put in, and why: in a file while one can be written, else on standard error.
#[derive(Drop)]
pub(crate) struct Rejected<'a, 'r, 'w> {
    pub(crate) run: &'a Run<'r>,
    pub(crate) file: Option<RejectsFile<'w>>,
    // How many the file names.
    pub(crate) named: u64,
    // Writing the file failed.
    pub(crate) has_failed: bool,
}

impl Rejected<'_, '_, '_> {
    // Names a line in the file, and says whether it stands there.
    fn is_in_file(&mut self, number: u64, cause: Rejection, line: &[u8]) -> bool {
        let Some(file) = &mut self.file else {
            return false;
        };
        match file.name(self.run.rt.alloc(), number, cause, line) {
            Ok(()) => {
                self.named = self.named.saturating_add(1);
                true
            }
            Err(fault) => {
                tell_refused(self.run.rt, file.path, &fault);
                self.tell_named();
                self.file = None;
                self.has_failed = true;
                false
            }
        }
    }

    /// Says how many lines the file names, if it names one.
    pub(crate) fn tell_named(&self) {
        let Some(file) = &self.file else {
            return;
        };
        if self.named > 0 {
            let path = Escaped(file.path);
            let named = self.named;
            let _ = eprintln!(self.run.rt; "exhash: {path}: lines that aren't put in: {named}");
        }
    }

    // Names a line on standard error.
    fn tell(&self, number: u64, cause: Rejection, line: &[u8]) {
        let _ = match shown(line) {
            Some(text) => eprintln!(self.run.rt; "exhash: {INPUT}: line {number}: {cause}: {text}"),
            None => eprintln!(self.run.rt; "exhash: {INPUT}: line {number}: {cause}"),
        };
    }
}

// What files and standard error have no model tells.
impl Rejects for Rejected<'_, '_, '_> {
    ghost use Rattle.std.specs.Prelude.{⊤};

    ghost told = { λ old number cause line new. ⊤ };

    fn reject(&mut self, number: u64, cause: Rejection, line: &[u8]) {
        if !self.is_in_file(number, cause, line) {
            self.tell(number, cause, line);
        }
    }
}

// A line as it is shown, if it is short and UTF-8.
fn shown(line: &[u8]) -> Option<Escaped<'_>> {
    if line.len() > SHOWN {
        return None;
    }
    match str::from_utf8(line) {
        Ok(text) => Some(Escaped(text)),
        Err(_) => None,
    }
}

//! What the program says on standard error of a run.
ghost use Rattle.std.specs.Prelude.{◌≡◌};

use exh_file::Escaped;
use std::cell::Cell;
use std::io;

/// What standard input is called.
pub const INPUT: &str = "standard input";

/// Why reading failed, where it did.
pub type Reason = Cell<Option<io::Error>>;

/// What came of opening something; where it is an error, that becomes the reason.
pub fn with_reason<T>(opened: io::Result<T>, reason: &Reason) -> io::Result<T>
    ensures { result ≡ opened }
{
    if let Err(error) = &opened {
        reason.set(Some(*error));
    }
    opened
}

/// Says why something wasn't read, where there is a reason.
pub fn tell_reason(rt: &impl Eprint, what: &str, reason: &Reason) {
    if let Some(error) = reason.get() {
        let what = Escaped(what);
        let _ = eprintln!(rt; "exhash: {what}: {error}");
    }
}

/// Says that the header of a page file is damaged, which is read with the log beside it all the same.
pub fn tell_damaged_header(rt: &impl Eprint, path: &str) {
    let path = Escaped(path);
    let _ = eprintln!(rt;
        "exhash: {path}: its header is damaged: it is read with the log beside it, which is not copied into it"
    );
}

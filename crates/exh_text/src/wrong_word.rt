ghost use Rattle.std.specs.Prelude.{◌≡◌};
ghost use Rattle.std.specs.Option.{option_copied};
ghost use Rattle.exh_text.specs.TextLines.{parts_at, space};
ghost use Rattle.exh_text.specs.WrongWord.{first_wrong};

use crate::{Expect, LineFault, Parts};

// The first word of a line that has a fault where it stands. `None` where no word of it has this one, as where the line
// lacks words.
pub(crate) fn wrong_word(first: Expect, line: &[u8], fault: LineFault) -> Option<&[u8]>
    ensures { option_copied result ≡ first_wrong fault first (parts_at space line.now) }
{
    let mut next = first;
    for word in Parts::new(b' ', line) {
        if next.fault_of_word(word) == Some(fault) {
            return Some(word);
        }
        next = next.after_word(word);
    }
    None
}

ghost use Rattle.std.specs.Prelude.{◌≤◌};

use crate::Parts;

// The number, from 1 on, of the line of a text before which so many lines stand that aren't empty; the greatest `u64`
// where it is still more.
pub(crate) fn line_number(text: &[u8], before: u64) -> u64
    ensures { 1 ≤ result }
{
    let mut left = before;
    let mut number = 1u64;
    for line in Parts::new(b'\n', text) {
        if !line.is_empty() {
            if left == 0 {
                return number;
            }
            left -= 1;
        }
        number = number.saturating_add(1);
    }
    number
}

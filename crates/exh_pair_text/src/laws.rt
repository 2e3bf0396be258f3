//! What holds of all pairs. Each function changes nothing.
ghost use Rattle.exh_pair_text.specs.Laws.{PairsAreOneLine, PairsAreRead};

use crate::{fields_are_read, records_are_whole};

/// What is written of a key of 1 to 64 bytes and a value of at most 128 reads as that pair, in each format, and in
/// hexadecimal too.
pub fn pairs_are_read()
    ensures { PairsAreRead }
{
    fields_are_read();
}

/// With a newline behind it, what is written of a pair is one line: no newline in it ends it, and that behind it does.
pub fn pairs_are_one_line()
    ensures { PairsAreOneLine }
{
    records_are_whole();
}

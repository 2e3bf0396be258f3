ghost use Rattle.std.specs.Prelude.{◌≡◌};
ghost use Rattle.exh_pair_text.specs.Parts.{parts_of, usual};

use crate::{Columns, FieldNames};

/// Which parts of a line are its key and its value, where its format has others.
#[derive(Clone, Copy, Debug)]
pub struct Layout<'n> {
    /// Of a record of comma-separated fields.
    pub columns: Columns,
    /// Of an object: the names of their fields. With `_hex` behind it a name is that of the field with hexadecimal digits.
    pub names: FieldNames<'n>,
}

impl Layout<'_> {
    /// Records of a key and a value, and objects with the fields `key` and `value`.
    pub fn usual() -> Layout<'static>
        ensures { parts_of result ≡ usual }
    {
        Layout {
            columns: Columns::two(),
            names: FieldNames {
                key: "key",
                value: "value",
            },
        }
    }
}

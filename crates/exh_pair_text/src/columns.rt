ghost use Rattle.std.specs.Prelude.{◌≡◌, ◌<◌, IsTrue};
ghost use Rattle.exh_pair_text.specs.Parts.{two_columns};
ghost use Rattle.exh_pair_text.specs.Reading.{has_columns};

/// Which fields of a record are a key and a value, counted from 0 on.
#[derive(Clone, Copy, Debug, PartialEq, Eq)]
pub struct Columns {
    pub key: usize,
    pub value: usize,
    /// How many fields a record has.
    pub width: usize,
}

impl Columns {
    /// Those of records of a key and a value.
    pub fn two() -> Columns
        ensures { result ≡ two_columns }
    {
        Columns {
            key: 0,
            value: 1,
            width: 2,
        }
    }

    // Whether a record of so many fields has them.
    pub(crate) fn fit(self, count: usize) -> bool
        ensures fit { result ≡ has_columns self count }
        ensures within { IsTrue result → (self.key < count) × (self.value < count) }
    {
        count == self.width && self.key < count && self.value < count
    }
}

ghost use Rattle.std.specs.Prelude.{◌≡◌, ◌<◌, List, length, slice_get, Some};
ghost use Rattle.exh_table.specs.Table.{TableMap};

use exh_table::Table;

/// The tables of a file's wards, wherever they lie.
pub trait TableList {
    /// The table of each ward, in the order of their numbers.
    ghost tables: { Self → List TableMap };

    /// The table of a ward. It takes no memory.
    fn table(&self, ward: usize) -> &Table
        requires { ward < length (tables self.now) }
        ensures { slice_get (tables self.now) ward ≡ Some result.now };
}

impl TableList for Vec<Table> {
    ghost tables = { λ list. list.items };

    fn table(&self, ward: usize) -> &Table {
        &self[ward]
    }
}

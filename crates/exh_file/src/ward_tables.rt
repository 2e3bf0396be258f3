use exh_keyer::AnyKeyer;
use exh_placing::TableList;
use exh_stores::Pages;
use exh_table::Table;
use exh_ward::Ward;

/// The tables of wards.
#[derive(Drop)]
pub(crate) struct WardTables<'a, P: Pages + Drop> {
    pub(crate) wards: &'a [Ward<P, AnyKeyer>],
}

impl<P: Pages + Drop> TableList for WardTables<'_, P> {
    ghost use Rattle.exh_file.specs.Placing.{tables_of_all};

    ghost tables = { λ list. tables_of_all list.wards.now };

    fn table(&self, ward: usize) -> &Table {
        self.wards[ward].table()
    }
}

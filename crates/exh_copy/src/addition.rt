use exh_notice::Notice;
use exh_table::Table;

/// What a copy's writer appends to what it publishes.
#[derive(Drop)]
pub enum Addition {
    /// The copy takes a notice.
    Take(Notice),
    /// The copy is joined with another's table.
    Combine(Table),
}

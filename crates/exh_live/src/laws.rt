//! What holds of all couriers' cursors, for the proofs of callers. The function does nothing.

ghost use Rattle.exh_live.specs.CursorLaws.{CursorsGoOnWithWards};

/// Where a ward began with a table's entries at its prefixes, a courier's first cursor in it is the index
/// at which the ward goes on.
pub fn cursors_go_on_with_wards()
    ensures { CursorsGoOnWithWards }
{}

ghost use Rattle.std.specs.Prelude.{ℕ};
ghost use Rattle.std.specs.FinMap as map;
ghost use Rattle.exh_table.specs.Table.{TableMap};

use std::marker::Brand;

/// What a copy began with. Whoever makes a copy picks a type for it, by which its writer and its
/// readers belong together.
pub trait Start {
    /// The start table.
    ghost table: { TableMap };

    /// The file's ward bits.
    ghost ward_bits: { ℕ };
}

/// By which a call picks the start. By itself it is that of a new file with one ward.
impl Start for Brand {
    ghost table = { map.empty };

    ghost ward_bits = { 0 };
}

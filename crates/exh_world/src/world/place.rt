ghost use Rattle.std.specs.Prelude.{◌≡◌, List, length, IfSome, IfNone, None};
ghost use Rattle.exh_table.specs.Table.{TableMap};
ghost use Rattle.exh_world.specs.WorldKept.{IsPlaceOf};
ghost use Rattle.exh_world.specs.World.{numbered};

/// The place of a copy or a sent table that has a number, from 1 on, where there are so many; `None` where there is
/// none.
pub(crate) fn place_of(count: usize, number: u32) -> Option<usize>
    ensures some { IfSome result (λ at. (tables : List TableMap) → length tables ≡ count → IsPlaceOf tables number at) }
    ensures none { IfNone result ((tables : List TableMap) → length tables ≡ count → numbered tables number ≡ None) }
{
    let at = number.checked_sub(1)? as usize;
    if at < count { Some(at) } else { None }
}

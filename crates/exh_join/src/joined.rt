ghost use Rattle.std.specs.Prelude.{◌≡◌, ◌↔◌, [], IfOk, IsNone, IfSome};
ghost use Rattle.exh_join.specs.Joined.{IsLeastAboveEach};

use crate::Join;
use std::alloc::AllocError;

/// The least value that is at least each of the slice: `None` where it is empty. An `AllocError` where
/// memory is refused.
pub fn join_all<J: Join>(values: &[J]) -> Result<Option<J>, AllocError>
    ensures none { IfOk result (λ joined. IsNone joined ↔ (values.now ≡ [])) }
    ensures least { IfOk result (λ joined. IfSome joined (IsLeastAboveEach J.IsAtMost values.now)) }
{
    let Some((first, rest)) = values.split_first() else {
        return Ok(None);
    };
    let mut joined = first.try_clone()?;
    for value in rest {
        joined.join_in(value)?;
    }
    Ok(Some(joined))
}

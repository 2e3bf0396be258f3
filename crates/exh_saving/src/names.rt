//! The names that a save makes of a path.
ghost use Rattle.std.specs.Prelude.{◌≡◌, ◌++◌, ◌+◌, ◌<◌, ◌≤◌, [], IfOk, length, slice_index_or, string_bytes};
ghost use Rattle.exh_saving.specs.Names.{IsBeside, suffixes};

use crate::file_name_of;
use std::alloc::{AllocError, Global};

/// How many names there are beside a path.
pub(crate) const NAMES: usize = 4;

// The most bytes that systems let a name have.
const NAME_LIMIT: usize = 255;

/// What stands behind the name of a file while its new bytes are written beside it. The later ones are for where the
/// earlier ones are taken.
pub(crate) fn suffix_of(turn: usize) -> &'static str
    requires { turn < 4 }
    ensures { result.now ≡ slice_index_or suffixes turn [] }
{
    match turn {
        0 => ".exhash-saving",
        1 => ".exhash-saving-2",
        2 => ".exhash-saving-3",
        _ => ".exhash-saving-4",
    }
}

/// The name of a file beside a path: that of the path with a suffix behind it, of which as many bytes before the suffix
/// are left out as are too many, and of a character all.
pub(crate) fn name_beside(alloc: Global, path: &str, suffix: &str) -> Result<String, AllocError>
    ensures cut { IfOk result (λ name. IsBeside path.now suffix.now (string_bytes name)) }
    ensures whole { length path.now + length suffix.now ≤ 255 → IfOk result (λ name. string_bytes name ≡ path.now ++ suffix.now) }
{
    let len = file_name_of(path).len().saturating_add(suffix.len());
    let excess = len.saturating_sub(NAME_LIMIT);
    let kept = path.floor_char_boundary(path.len().saturating_sub(excess));
    let mut name = String::from_str(alloc, &path[..kept])?;
    name.push_str(suffix)?;
    Ok(name)
}

/// The names beside a path, each as a string of Rust's.
pub(crate) fn names_beside(alloc: Global, path: &str) -> Result<String, AllocError> {
    let mut names = String::new(alloc);
    for turn in 0..NAMES {
        if !names.is_empty() {
            names.push_str(", ")?;
        }
        let name = name_beside(alloc, path, suffix_of(turn))?;
        names.push_str(&format!(in alloc; "{name:?}")?)?;
    }
    Ok(names)
}

ghost use Rattle.std.specs.Prelude.{◌≡◌, ◌≤◌, ℕ, List, ◌++◌, length, map, IfSome, IfNone, OnSome};
ghost use Rattle.exh_codec.specs.Cells.{Pair, IsSizedPair, AreCells, pair_image, pair_in};
ghost use Rattle.exh_page.specs.declared.page.TheConstants.{CAP_LIMIT};

use crate::head::Head;
use crate::kind::Kind;
use arrayvec::ArrayVec;
use exh_page::{CAP_LIMIT, KEY_LIMIT, VALUE_LIMIT};

/// A record as it stands in an image.
#[derive(Clone, Copy, Default, Drop)]
pub(crate) struct Cell<'a> {
    pub key: &'a [u8],
    pub value: &'a [u8],
}

/// The record at the front of some bytes, and the bytes after it, `None` where there is none with
/// its lengths in their ranges.
pub(crate) fn split_cell(bytes: &[u8]) -> Option<(Cell<'_>, &[u8])>
    ensures some { IfSome result (λ split. IsSizedPair (pair_in split.0) × (bytes.now ≡ pair_image (pair_in split.0) ++ split.1.now)) }
    ensures none { IfNone result ((pair : Pair) (rest : List ℕ) → IsSizedPair pair → bytes.now ≡ pair_image pair ++ rest → ⊥) }
{
    let [key_len, value_len, rest @ ..] = bytes else {
        return None;
    };
    let (key_len, value_len) = (*key_len as usize, *value_len as usize);
    if key_len == 0
        || key_len > KEY_LIMIT
        || value_len > VALUE_LIMIT
        || rest.len() < key_len + value_len
    {
        return None;
    }
    let (key, rest) = rest.split_at(key_len);
    let (value, rest) = rest.split_at(value_len);
    Some((Cell { key, value }, rest))
}

/// So many records at the front of some bytes, and the bytes after them, `None` where there are
/// fewer with their lengths in their ranges.
pub(crate) fn split_cells(
    count: usize,
    bytes: &[u8],
) -> Option<(ArrayVec<Cell<'_>, CAP_LIMIT>, &[u8])>
    requires { count ≤ CAP_LIMIT }
    ensures some { IfSome result (λ split. AreCells count bytes.now (map pair_in split.0.items) split.1.now) }
    ensures none { IfNone result ((pairs : List Pair) (rest : List ℕ) → AreCells count bytes.now pairs rest → ⊥) }
{
    let mut cells = ArrayVec::new();
    let mut rest = bytes;
    for _ in 0..count {
        let (cell, after) = split_cell(rest)?;
        cells.push(cell);
        rest = after;
    }
    Some((cells, rest))
}

/// The records of an image with this head, and the bytes after them, `None` where there are too
/// many or a length is out of its range.
pub(crate) fn cells_of(head: Head, body: &[u8]) -> Option<(ArrayVec<Cell<'_>, CAP_LIMIT>, &[u8])>
    ensures few { OnSome result (head.count ≤ CAP_LIMIT) }
    ensures forward { OnSome result (head.kind ≡ Kind.Forward → head.count ≡ 0) }
    ensures cells { IfSome result (λ split. AreCells head.count body.now (map pair_in split.0.items) split.1.now) }
    ensures none { IfNone result (head.count ≤ CAP_LIMIT → (head.kind ≡ Kind.Forward → head.count ≡ 0)
        → (pairs : List Pair) (rest : List ℕ) → AreCells head.count body.now pairs rest → ⊥) }
{
    let count = head.count as usize;
    if count > CAP_LIMIT || (head.kind == Kind::Forward && count > 0) {
        return None;
    }
    split_cells(count, body)
}

ghost use Rattle.std.specs.Prelude.{◌≡◌, ◌++◌, ◌≤◌, flat_map, OnOk};
ghost use Rattle.std.specs.FinMap.{entries};
ghost use Rattle.exh_prefix.specs.declared.prefix.TheConstants.{WARD_BITS_LIMIT};
ghost use Rattle.exh_prefix.specs.Prefix.{low_of};
ghost use Rattle.exh_table.specs.Below.{leaves_listed};
ghost use Rattle.exh_prefix.specs.Leading.{ward_of};
ghost use Rattle.exh_line.specs.Shown.{entry_line, leaf_line, page_head_text, shown_text};
ghost use Rattle.exh_text.specs.Printing.{Keeps};

use crate::answer_text::push_copy;
use exh_array::Directory;
use exh_page::PageHead;
use exh_prefix::{PageNo, ward_number};
use exh_table::{Leaf, Table};
use exh_text::{
    push_entry_line, push_forward_page, push_live_page, push_number, push_place, push_prefix,
    push_text,
};
use std::alloc::AllocError;

/// Adds what a copy knows: the depth of its directory, its entries and its leaves, a line each.
pub fn push_shown(
    out: &mut Vec<u8>,
    ward_bits: u8,
    copy: u32,
    directory: &Directory,
) -> Result<(), AllocError>
    requires most { ward_bits ≤ WARD_BITS_LIMIT }
    requires own { directory.now.pointers.ward_bits ≡ ward_bits }
    ensures ok { OnOk result (out.new.items ≡ out.old.items ++ shown_text ward_bits copy directory.now.table) }
    ensures kept { Keeps out.old.items out.new.items }
{
    push_copy(out, copy)?;
    push_text(out, " depth ")?;
    push_number(out, u64::from(directory.depth()))?;
    push_text(out, "\n")?;
    push_entries(out, directory.table())?;
    push_leaves(out, ward_bits, directory.table())
}

fn push_entries(out: &mut Vec<u8>, table: &Table) -> Result<(), AllocError>
    ensures ok { OnOk result (out.new.items ≡ out.old.items ++ flat_map entry_line (entries table.now)) }
    ensures kept { Keeps out.old.items out.new.items }
{
    for (prefix, entry) in table.entries() {
        push_entry_line(out, prefix, entry)?;
    }
    Ok(())
}

fn push_leaves(out: &mut Vec<u8>, ward_bits: u8, table: &Table) -> Result<(), AllocError>
    requires { ward_bits ≤ WARD_BITS_LIMIT }
    ensures ok { OnOk result (out.new.items ≡ out.old.items ++ flat_map (leaf_line ward_bits) (leaves_listed table.now ward_bits)) }
    ensures kept { Keeps out.old.items out.new.items }
{
    let leaves = table.leaves(ward_bits)?;
    for leaf in &leaves {
        push_leaf(out, ward_bits, leaf)?;
    }
    Ok(())
}

fn push_leaf(out: &mut Vec<u8>, ward_bits: u8, leaf: &Leaf) -> Result<(), AllocError>
    requires { ward_bits ≤ WARD_BITS_LIMIT }
    ensures ok { OnOk result (out.new.items ≡ out.old.items ++ leaf_line ward_bits leaf.now) }
    ensures kept { Keeps out.old.items out.new.items }
{
    let ward = ward_number(ward_bits, leaf.prefix.low());
    push_text(out, "leaf ")?;
    push_prefix(out, &leaf.prefix)?;
    push_text(out, " ")?;
    push_place(out, u32::from(ward), u64::from(leaf.page))?;
    push_text(out, "\n")
}

/// Adds the line of a page of a ward: what it holds, or where it sends callers on to.
pub fn push_page(
    out: &mut Vec<u8>,
    ward: u32,
    number: PageNo,
    head: PageHead,
) -> Result<(), AllocError>
    ensures ok { OnOk result (out.new.items ≡ out.old.items ++ page_head_text ward number head) }
    ensures kept { Keeps out.old.items out.new.items }
{
    match head {
        PageHead::Live {
            prefix,
            right,
            count,
        } => push_live_page(out, ward, number, &prefix, right, count),
        PageHead::Forward { target, .. } => push_forward_page(out, ward, number, target),
    }
}

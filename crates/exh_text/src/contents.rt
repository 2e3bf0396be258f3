ghost use Rattle.std.specs.Prelude.{◌≡◌, ◌++◌, OnOk};
ghost use Rattle.exh_text.specs.Contents.{entry_text, entry_words, forward_page_words, kind_text, live_page_words, live_text, on_line, page_words, right_text};
ghost use Rattle.exh_text.specs.Printing.{Keeps};

use crate::{push_number, push_place, push_prefix, push_text};
use exh_notice::{Entry, Kind};
use exh_prefix::{PageNo, Prefix};
use std::alloc::AllocError;

/// Adds the line of a live page of a ward: its prefix, its right link, and how many records it has.
pub fn push_live_page(
    out: &mut Vec<u8>,
    ward: u32,
    number: PageNo,
    prefix: &Prefix,
    right: Option<PageNo>,
    count: usize,
) -> Result<(), AllocError>
    ensures ok { OnOk result (out.new.items ≡ out.old.items ++ on_line (live_page_words ward number prefix.now right count)) }
    ensures kept { Keeps out.old.items out.new.items }
{
    push_page(out, ward, number)?;
    push_live(out, prefix, right, count)?;
    push_text(out, "\n")
}

/// Adds the line of a forwarding page of a ward: the page that it sends callers on to.
pub fn push_forward_page(
    out: &mut Vec<u8>,
    ward: u32,
    number: PageNo,
    target: PageNo,
) -> Result<(), AllocError>
    ensures ok { OnOk result (out.new.items ≡ out.old.items ++ on_line (forward_page_words ward number target)) }
    ensures kept { Keeps out.old.items out.new.items }
{
    push_page(out, ward, number)?;
    push_text(out, " forward ")?;
    push_place(out, ward, u64::from(target))?;
    push_text(out, "\n")
}

/// Adds the line of an entry at a prefix.
pub fn push_entry_line(out: &mut Vec<u8>, prefix: &Prefix, entry: &Entry) -> Result<(), AllocError>
    ensures ok { OnOk result (out.new.items ≡ out.old.items ++ on_line (entry_words (prefix.now, entry.now))) }
    ensures kept { Keeps out.old.items out.new.items }
{
    push_text(out, "entry ")?;
    push_entry(out, prefix, entry.number, &entry.kind)?;
    push_text(out, "\n")
}

/// Adds the number and the kind of what was done at a prefix.
pub fn push_entry(
    out: &mut Vec<u8>,
    prefix: &Prefix,
    number: u32,
    kind: &Kind,
) -> Result<(), AllocError>
    ensures ok { OnOk result (out.new.items ≡ out.old.items ++ entry_text prefix.now number kind.now) }
    ensures kept { Keeps out.old.items out.new.items }
{
    push_prefix(out, prefix)?;
    push_text(out, " number ")?;
    push_number(out, u64::from(number))?;
    push_kind(out, kind)
}

fn push_kind(out: &mut Vec<u8>, kind: &Kind) -> Result<(), AllocError>
    ensures ok { OnOk result (out.new.items ≡ out.old.items ++ kind_text kind.now) }
    ensures kept { Keeps out.old.items out.new.items }
{
    match kind {
        Kind::Split { right } => {
            push_text(out, " split right ")?;
            push_number(out, u64::from(*right))
        }
        Kind::Merge => push_text(out, " merge"),
    }
}

fn push_page(out: &mut Vec<u8>, ward: u32, number: PageNo) -> Result<(), AllocError>
    ensures ok { OnOk result (out.new.items ≡ out.old.items ++ page_words ward number) }
    ensures kept { Keeps out.old.items out.new.items }
{
    push_text(out, "page ")?;
    push_place(out, ward, u64::from(number))
}

fn push_live(
    out: &mut Vec<u8>,
    prefix: &Prefix,
    right: Option<PageNo>,
    count: usize,
) -> Result<(), AllocError>
    ensures ok { OnOk result (out.new.items ≡ out.old.items ++ live_text prefix.now right count) }
    ensures kept { Keeps out.old.items out.new.items }
{
    push_text(out, " live prefix ")?;
    push_prefix(out, prefix)?;
    push_text(out, " right ")?;
    push_right(out, right)?;
    push_text(out, " records ")?;
    push_number(out, count as u64)
}

fn push_right(out: &mut Vec<u8>, right: Option<PageNo>) -> Result<(), AllocError>
    ensures ok { OnOk result (out.new.items ≡ out.old.items ++ right_text right) }
    ensures kept { Keeps out.old.items out.new.items }
{
    match right {
        Some(right) => push_number(out, u64::from(right)),
        None => push_text(out, "none"),
    }
}

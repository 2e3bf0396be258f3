ghost use Rattle.std.specs.Prelude.{◌≡◌, ◌++◌, OnOk};
ghost use Rattle.exh_text.specs.Contents.{on_line};
ghost use Rattle.exh_report.specs.Finding.{place_words, reason_words, refusal_words};
ghost use Rattle.exh_text.specs.Printing.{Keeps};

use exh_format::LegalFileFault;
use exh_text::{push_number, push_refused, push_text};
use std::alloc::AllocError;

/// Adds the line of a refusal: its number, and the block that it is of or the reason.
pub fn push_refusal(out: &mut Vec<u8>, fault: LegalFileFault) -> Result<(), AllocError>
    ensures ok { OnOk result (out.new.items ≡ out.old.items ++ on_line (refusal_words fault)) }
    ensures kept { Keeps out.old.items out.new.items }
{
    push_refused(out, u32::from(fault.number()))?;
    push_block(out, fault.place())?;
    push_reason(out, fault.reason())?;
    push_text(out, "\n")
}

/// Adds the block that a refusal is of, if it is of one.
pub fn push_block(out: &mut Vec<u8>, place: Option<u32>) -> Result<(), AllocError>
    ensures ok { OnOk result (out.new.items ≡ out.old.items ++ place_words place) }
    ensures kept { Keeps out.old.items out.new.items }
{
    let Some(place) = place else {
        return Ok(());
    };
    push_text(out, " at ")?;
    push_number(out, u64::from(place))
}

fn push_reason(out: &mut Vec<u8>, reason: Option<u8>) -> Result<(), AllocError>
    ensures ok { OnOk result (out.new.items ≡ out.old.items ++ reason_words reason) }
    ensures kept { Keeps out.old.items out.new.items }
{
    let Some(reason) = reason else {
        return Ok(());
    };
    push_text(out, " reason ")?;
    push_number(out, u64::from(reason))
}

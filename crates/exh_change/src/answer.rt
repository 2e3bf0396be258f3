//! What a call's home page answers it.
ghost use Rattle.std.specs.Prelude.{◌≡◌, ◌↔◌, Bool, true, false, length, nat_le, IsTrue, IfOk, OnOk};
ghost use Rattle.exh_page.specs.Page.{IsLive, records_of, with_records};
ghost use Rattle.exh_calls.specs.Call.{key_of};
ghost use Rattle.exh_calls.specs.Effect.{Keep, change_of};
ghost use Rattle.exh_change.specs.PageAnswer.{OverflowsPage, effect_at, records_after, records_changed, reply_by};

use exh_calls::{Call, KeyChange, Reply};
use exh_page::{Key, Page, Record};
use exh_prefix::LIMIT;
use std::alloc::AllocError;

/// How many records a page has.
pub(crate) fn record_count(page: &Page) -> usize
    ensures { result ≡ length (records_of page.now) }
{
    match page {
        Page::Live { records, .. } => records.len(),
        Page::Forward { .. } => 0,
    }
}

/// Whether a page must be split before it answers a call: a put of a new key, for which it has no room, and its prefix is
/// shorter than `LIMIT`.
pub(crate) fn overflows(page: &Page, cap: u8, pseudokey: u64, call: &Call) -> bool
    ensures { IsTrue result ↔ OverflowsPage cap pseudokey page.now call.now }
{
    match page {
        Page::Live {
            prefix,
            records,
            ..
        } => {
            records.len() >= usize::from(cap)
                && prefix.len() < LIMIT
                && records.find(pseudokey, call.key()).is_none()
                && call.sets_new()
        }
        Page::Forward { .. } => false,
    }
}

/// Answers a call at a live page, and whether it changes it.
pub(crate) fn answer(
    page: &mut Page,
    full: bool,
    pseudokey: u64,
    call: &Call,
) -> Result<(Reply, bool), AllocError>
    requires { IsLive page.old }
    ensures reply { IfOk result (λ answered. answered.0 ≡ reply_by full pseudokey call.now page.old) }
    ensures page { OnOk result (page.new ≡ with_records (records_after full pseudokey call.now (records_of page.old)) page.old) }
    ensures kept { IfOk result (λ answered. answered.1 ≡ false → (effect_at full pseudokey call.now (records_of page.old)).change ≡ Keep) }
    ensures changed { IfOk result (λ answered. answered.1 ≡ true → (effect_at full pseudokey call.now (records_of page.old)).change ≡ Keep → ⊥) }
{
    let lookup = page.look_up(pseudokey, call.key());
    let reply = call.reply(full, &lookup.value);
    let change = call.change(full, &lookup.value);
    let changes = !matches!(change, KeyChange::Keep);
    make_change(page, pseudokey, call.key(), change)?;
    Ok((reply, changes))
}

// Makes the change of a key at a live page.
fn make_change(
    page: &mut Page,
    pseudokey: u64,
    key: &Key,
    change: KeyChange<'_>,
) -> Result<(), AllocError>
    requires { IsLive page.old }
    ensures { OnOk result (page.new ≡ with_records (records_changed (change_of change.entry) pseudokey key.now (records_of page.old)) page.old) }
{
    match change {
        KeyChange::Keep => Ok(()),
        KeyChange::Set(value) => {
            page.put(Record {
                pseudokey,
                key: *key,
                value: *value,
            })?;
            Ok(())
        }
        KeyChange::Remove => {
            page.remove(pseudokey, key);
            Ok(())
        }
    }
}

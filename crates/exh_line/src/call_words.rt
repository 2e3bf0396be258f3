ghost use Rattle.std.specs.Prelude.{◌≡◌, Some, option_map};
ghost use Rattle.exh_text.specs.LineFault.{ranged};
ghost use Rattle.exh_calls.specs.declared.call.Call.TheVariants.{Put, Swap};
ghost use Rattle.exh_line.specs.CallWords.{call_of};
ghost use Rattle.exh_line.specs.Grammar.{call_in_range, spelled_call, spelled_put, spelled_swap};

use exh_calls::Call;
use exh_text::{ByteWord, LineFault, Parts};

/// The words of a call, by its verb, before its key and values are read. A `Call` has room for a key and two values, which
/// each function that answers one clears and moves: so a caller reads them where it makes the call.
#[derive(Drop)]
pub enum CallWords<'a> {
    /// `get KEY`
    Get {
        key: ByteWord<'a>,
    },
    /// `put KEY VALUE`
    Put {
        key: ByteWord<'a>,
        value: ByteWord<'a>,
    },
    /// `del KEY`
    Del {
        key: ByteWord<'a>,
    },
    /// `swap KEY OLD NEW`
    Swap {
        key: ByteWord<'a>,
        old: ByteWord<'a>,
        new: ByteWord<'a>,
    },
}

impl<'a> CallWords<'a> {
    /// The words of a call. `None` where they spell none, whatever the lengths of its key and values.
    #[inline(always)]
    #[tactic(auto, unfolding(crate::specs::Grammar::spelled_call))]
    pub fn split(mut words: Parts<'a>) -> Option<CallWords<'a>>
        ensures { option_map call_of result ≡ spelled_call words.entry }
    {
        let verb = words.next()?;
        let key = words.next()?;
        let value = words.next();
        let second = words.next();
        if words.next().is_some() {
            return None;
        }
        match verb {
            b"get" if value.is_none() => match ByteWord::parse(key) {
                Some(key) => Some(CallWords::Get { key }),
                None => None,
            },
            b"del" if value.is_none() => match ByteWord::parse(key) {
                Some(key) => Some(CallWords::Del { key }),
                None => None,
            },
            b"put" if second.is_none() => split_put(key, value?),
            b"swap" => split_swap(key, value?, second?),
            _ => None,
        }
    }

    /// The call. `Range`: its key or a value is out of its range.
    pub fn read(self) -> Result<Call, LineFault>
        ensures { result ≡ ranged call_in_range (Some (call_of self.entry)) }
    {
        match self {
            CallWords::Get { key } => match key.key() {
                Some(key) => Ok(Call::Get { key }),
                None => Err(LineFault::Range),
            },
            CallWords::Put { key, value } => read_put(&key, &value),
            CallWords::Del { key } => match key.key() {
                Some(key) => Ok(Call::Del { key }),
                None => Err(LineFault::Range),
            },
            CallWords::Swap { key, old, new } => read_swap(&key, &old, &new),
        }
    }
}

// The words of a put.
#[inline(always)]
#[tactic(auto, unfolding(crate::specs::Grammar::spelled_put))]
fn split_put<'a>(key: &'a [u8], value: &'a [u8]) -> Option<CallWords<'a>>
    ensures { option_map call_of result ≡ spelled_put key.now value.now }
{
    let key = ByteWord::parse(key)?;
    let value = ByteWord::parse(value)?;
    Some(CallWords::Put { key, value })
}

// The words of a swap.
#[tactic(auto, unfolding(crate::specs::Grammar::spelled_swap))]
fn split_swap<'a>(key: &'a [u8], old: &'a [u8], new: &'a [u8]) -> Option<CallWords<'a>>
    ensures { option_map call_of result ≡ spelled_swap key.now old.now new.now }
{
    let key = ByteWord::parse(key)?;
    let old = ByteWord::parse(old)?;
    let new = ByteWord::parse(new)?;
    Some(CallWords::Swap { key, old, new })
}

// A put of these.
fn read_put(key: &ByteWord<'_>, value: &ByteWord<'_>) -> Result<Call, LineFault>
    ensures { result ≡ ranged call_in_range (Some (Put key.now value.now)) }
{
    let Some(key) = key.key() else {
        return Err(LineFault::Range);
    };
    match value.value() {
        Some(value) => Ok(Call::Put { key, value }),
        None => Err(LineFault::Range),
    }
}

// A swap of these.
fn read_swap(key: &ByteWord<'_>, old: &ByteWord<'_>, new: &ByteWord<'_>) -> Result<Call, LineFault>
    ensures { result ≡ ranged call_in_range (Some (Swap key.now old.now new.now)) }
{
    let Some(key) = key.key() else {
        return Err(LineFault::Range);
    };
    let Some(old) = old.value() else {
        return Err(LineFault::Range);
    };
    match new.value() {
        Some(new) => Ok(Call::Swap { key, old, new }),
        None => Err(LineFault::Range),
    }
}

use crate::{Call, Reply};
use exh_page::{Key, Value};

/// What a journal keeps of an entry beside its bytes: where they start among those of all entries,
/// and the lengths of the call's key, the call's two values and the reply's value, which stand there
/// in this order.
#[derive(Clone, Copy)]
pub(crate) struct StoredEntry {
    pub(crate) client: u32,
    pub(crate) start: usize,
    pub(crate) key_len: u8,
    pub(crate) value_len: u8,
    pub(crate) second_len: u8,
    pub(crate) reply_len: u8,
    pub(crate) call: CallKind,
    pub(crate) reply: ReplyKind,
}

/// A call without its key and its values.
#[derive(Clone, Copy)]
pub(crate) enum CallKind {
    Get,
    Put,
    Del,
    Swap,
}

impl CallKind {
    ghost use Rattle.std.specs.Prelude.{◌≡◌, ◌≤◌, length};
    ghost use Rattle.exh_page.specs.declared.key.TheConstants.{KEY_LIMIT};
    ghost use Rattle.exh_page.specs.declared.value.TheConstants.{VALUE_LIMIT};
    ghost use Rattle.exh_calls.specs.Call.{key_of};
    ghost use Rattle.exh_calls.specs.Journal.{call_as, second_given, value_given};

    /// The kind of a call.
    pub(crate) fn of(call: &Call) -> CallKind
        ensures { call_as result (key_of call.now) (value_given call.now) (second_given call.now) ≡ call.now }
    {
        match call {
            Call::Get { .. } => CallKind::Get,
            Call::Put { .. } => CallKind::Put,
            Call::Del { .. } => CallKind::Del,
            Call::Swap { .. } => CallKind::Swap,
        }
    }

    /// The call of this kind, of the bytes of a key and two values; a get and a del have no value,
    /// and a put has the first alone.
    pub(crate) fn call(self, key: &[u8], value: &[u8], second: &[u8]) -> Call
        requires some { 1 ≤ length key.now }
        requires key { length key.now ≤ KEY_LIMIT }
        requires value { length value.now ≤ VALUE_LIMIT }
        requires second { length second.now ≤ VALUE_LIMIT }
        ensures { result ≡ call_as self key.now value.now second.now }
    {
        let key = Key::from_bytes(key).unwrap();
        match self {
            CallKind::Get => Call::Get { key },
            CallKind::Put => Call::Put {
                key,
                value: Value::from_bytes(value).unwrap(),
            },
            CallKind::Del => Call::Del { key },
            CallKind::Swap => Call::Swap {
                key,
                old: Value::from_bytes(value).unwrap(),
                new: Value::from_bytes(second).unwrap(),
            },
        }
    }
}

/// A reply without its value.
#[derive(Clone, Copy)]
pub(crate) enum ReplyKind {
    Is,
    None,
    New,
    Was,
    Full,
    Swapped,
    Differs,
}

impl ReplyKind {
    ghost use Rattle.std.specs.Prelude.{◌≡◌, ◌≤◌, length};
    ghost use Rattle.exh_page.specs.declared.value.TheConstants.{VALUE_LIMIT};
    ghost use Rattle.exh_calls.specs.Journal.{reply_as, value_told};

    /// The kind of a reply.
    pub(crate) fn of(reply: &Reply) -> ReplyKind
        ensures { reply_as result (value_told reply.now) ≡ reply.now }
    {
        match reply {
            Reply::Is(_) => ReplyKind::Is,
            Reply::None => ReplyKind::None,
            Reply::New => ReplyKind::New,
            Reply::Was(_) => ReplyKind::Was,
            Reply::Full => ReplyKind::Full,
            Reply::Swapped => ReplyKind::Swapped,
            Reply::Differs(_) => ReplyKind::Differs,
        }
    }

    /// The reply of this kind, of the bytes of a value; `None`, `New`, `Full` and `Swapped` have no
    /// value.
    pub(crate) fn reply(self, value: &[u8]) -> Reply
        requires { length value.now ≤ VALUE_LIMIT }
        ensures { result ≡ reply_as self value.now }
    {
        match self {
            ReplyKind::Is => Reply::Is(Value::from_bytes(value).unwrap()),
            ReplyKind::None => Reply::None,
            ReplyKind::New => Reply::New,
            ReplyKind::Was => Reply::Was(Value::from_bytes(value).unwrap()),
            ReplyKind::Full => Reply::Full,
            ReplyKind::Swapped => Reply::Swapped,
            ReplyKind::Differs => Reply::Differs(Value::from_bytes(value).unwrap()),
        }
    }
}

use crate::{KeyChange, Reply, swaps_compare};
use exh_page::{Key, LentValue, Value};

/// A call on the map from keys to values. A copy takes no memory.
#[derive(Clone, Copy, PartialEq, Eq)]
pub enum Call {
    /// Asks for the key's value.
    Get { key: Key },
    /// Gives the key a value, new or in place of another.
    Put { key: Key, value: Value },
    /// Takes the key and its value out.
    Del { key: Key },
    /// Gives the key the new value, where its value is the old one.
    Swap { key: Key, old: Value, new: Value },
}

impl Call {
    ghost use Rattle.std.specs.Prelude.{◌≡◌, None};
    ghost use Rattle.exh_calls.specs.Call.{key_of};
    ghost use Rattle.exh_calls.specs.Effect.{change_of, effect_of, sets_new};

    /// The key that the call is about. It takes no memory.
    pub fn key(&self) -> &Key
        ensures { result.now ≡ key_of self.now }
    {
        match self {
            Call::Get { key }
            | Call::Put { key, .. }
            | Call::Del { key }
            | Call::Swap { key, .. } => key,
        }
    }

    /// What the call is answered, by whether new keys are turned away and the value that the key has.
    /// It takes no memory.
    pub fn reply(&self, full: bool, stood: &Option<LentValue<'_>>) -> Reply
        ensures { result ≡ (effect_of self.now full stood.now).reply }
    {
        swaps_compare();
        let Some(value) = stood else {
            return self.reply_to_none(full);
        };
        // Each branch returns its reply: where they meet, it would be moved once more.
        if let Call::Swap { old, .. } = self {
            if value.equals(old) {
                return Reply::Swapped;
            }
            return Reply::Differs(value.to_value());
        }
        if let Call::Get { .. } = self {
            return Reply::Is(value.to_value());
        }
        Reply::Was(value.to_value())
    }

    /// What becomes of the key, by the same. It takes no memory.
    pub fn change(&self, full: bool, stood: &Option<LentValue<'_>>) -> KeyChange<'_>
        ensures { change_of result ≡ (effect_of self.now full stood.now).change }
    {
        match stood {
            Some(stood) => match self {
                Call::Get { .. } => KeyChange::Keep,
                Call::Put { value, .. } => KeyChange::Set(value),
                Call::Del { .. } => KeyChange::Remove,
                Call::Swap { old, new, .. } if stood.equals(old) => KeyChange::Set(new),
                Call::Swap { .. } => KeyChange::Keep,
            },
            None => match self {
                Call::Get { .. } | Call::Del { .. } | Call::Swap { .. } => KeyChange::Keep,
                Call::Put { .. } if full => KeyChange::Keep,
                Call::Put { value, .. } => KeyChange::Set(value),
            },
        }
    }

    // What the call is answered where the key has no value, by whether new keys are turned away.
    fn reply_to_none(&self, full: bool) -> Reply
        ensures { result ≡ (effect_of self.now full None).reply }
    {
        match self {
            Call::Get { .. } | Call::Del { .. } | Call::Swap { .. } => Reply::None,
            Call::Put { .. } => { if full { Reply::Full } else { Reply::New } }
        }
    }

    /// Whether the call gives a key that has no value one. It takes no memory.
    pub fn sets_new(&self) -> bool
        ensures { result ≡ sets_new self.now }
    {
        match self {
            Call::Put { .. } => true,
            Call::Get { .. } | Call::Del { .. } | Call::Swap { .. } => false,
        }
    }
}

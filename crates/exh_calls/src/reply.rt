use exh_page::Value;

/// What a call is answered.
#[derive(Clone, Copy, Debug, PartialEq, Eq)]
pub enum Reply {
    /// The value of the key asked for.
    Is(Value),
    /// The key has no value, and none is given to it.
    None,
    /// The key was absent, and has the value now.
    New,
    /// The value that the key had, which is replaced or taken out.
    Was(Value),
    /// The key is absent and stays so: as many keys as a page holds share the `LIMIT` leading bits
    /// of its pseudokey.
    Full,
    /// The key had the old value that the call names, and has the new one now.
    Swapped,
    /// The value of the key, which isn't the old one that the call names, and stays.
    Differs(Value),
}

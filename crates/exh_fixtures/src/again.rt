//! A second try of what was refused.

/// What a call answers, or where that is the refusal, what the same call answers then. What was
/// refused changed nothing.
#[macro_export]
macro_rules! again {
    ($refused:pat => $call:expr) => {
        match $call {
            $refused => $call,
            answer => answer,
        }
    };
}

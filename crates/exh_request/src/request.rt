//! A request.

use crate::{Action, Form};

/// An everyday command, as the words of a command line ask for it.
#[derive(Drop)]
pub struct Request<'w> {
    /// The page file that the command is about.
    pub path: &'w str,
    /// What is done there.
    pub action: Action<'w>,
    /// How many seconds another process is waited for, 0 to 86,400.
    pub wait: u64,
    /// How keys and values are read and printed.
    pub form: Form,
}

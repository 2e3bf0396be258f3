use exh_request::Form;
use exhash::Reason;

/// The run of an everyday command over the page file of a path.
#[derive(Clone, Copy)]
pub struct Run<'r> {
    pub rt: &'r HostRuntime,
    pub path: &'r str,
    /// How many seconds it waits for others that are at work on the file.
    pub seconds: u64,
    /// How keys and values are read and printed.
    pub form: Form,
    /// Why standard output failed, if it did.
    pub reason: &'r Reason,
}

/// What is told of a storm while it goes on, by many threads at once. Nothing is promised of what a
/// watch does.
pub trait Watch {
    /// One call more was answered.
    fn answered(&self);

    /// One round of a keeper made so many merges.
    fn merged(&self, merges: u32);

    /// One round of a courier carried so many notices.
    fn carried(&self, notices: u64);
}

/// A watch that is told, and does nothing.
#[derive(Clone, Copy)]
pub struct NoWatch;

impl Watch for NoWatch {
    fn answered(&self) {}

    fn merged(&self, _merges: u32) {}

    fn carried(&self, _notices: u64) {}
}

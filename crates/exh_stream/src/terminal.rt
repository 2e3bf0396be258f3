/// Where a line of progress stands, and the clock that it goes by. Nothing is promised of either.
pub trait Terminal {
    /// Milliseconds since some moment; `None` where the clock can't be read.
    fn milliseconds(&self) -> Option<u64>;

    /// Writes bytes where the cursor is. What can't be written is lost.
    fn show(&self, bytes: &[u8]);
}

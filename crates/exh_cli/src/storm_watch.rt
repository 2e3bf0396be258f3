use exh_live::Watch;
use exh_stream::{StormMeter, Terminal};

/// What a storm tells a meter.
#[derive(Drop)]
pub(crate) struct StormWatch<'m, T: Terminal> {
    pub(crate) meter: &'m StormMeter<T>,
}

impl<T: Terminal> Watch for StormWatch<'_, T> {
    fn answered(&self) {
        self.meter.answered();
    }

    fn merged(&self, merges: u32) {
        self.meter.merged(merges);
    }

    fn carried(&self, notices: u64) {
        self.meter.carried(notices);
    }
}

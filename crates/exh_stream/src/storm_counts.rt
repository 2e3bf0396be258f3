/// How far a storm is: how many calls were answered, merges made and notices carried.
#[derive(Clone, Copy)]
pub(crate) struct StormCounts {
    pub(crate) calls: u64,
    pub(crate) merges: u64,
    pub(crate) notices: u64,
}

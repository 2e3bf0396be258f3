use crate::Request;

/// A request that was begun, and whether it was answered since.
#[derive(Clone, Copy)]
pub(crate) struct Slot {
    pub(crate) name: u32,
    pub(crate) request: Request,
    pub(crate) is_answered: bool,
}

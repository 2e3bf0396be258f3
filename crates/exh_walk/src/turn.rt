use crate::{Event, Outcome, StepFault};

/// An event with what it came to, or why it was refused.
#[derive(Clone, Copy)]
pub struct Turn {
    pub event: Event,
    pub result: Result<Outcome, StepFault>,
}

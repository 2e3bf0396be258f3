ghost use Rattle.std.specs.Prelude.{◌≡◌, ◌++◌};
ghost use Rattle.exh_live.specs.Refusals.{first_of_workers, first_refusal};

use crate::StormFault;

/// What a worker of a storm came to: it did all that it was to do, or was refused.
pub type Outcome = Result<(), StormFault>;

/// What the workers of a storm came to.
#[derive(Drop)]
pub struct Outcomes {
    /// The callers, by their numbers.
    pub callers: Vec<Outcome>,
    /// The keepers, by their wards' numbers.
    pub keepers: Vec<Outcome>,
    /// The couriers, by their copies' numbers.
    pub couriers: Vec<Outcome>,
}

impl Outcomes {
    /// The first refusal of the callers, then of the keepers, then of the couriers, if there is one.
    pub fn first_refusal(&self) -> Outcome
        ensures { result ≡ first_of_workers self.now }
    {
        first_of_all(&self.callers, &self.keepers, &self.couriers)
    }
}

// The first refusal of the callers, the keepers and the couriers, if there is one.
fn first_of_all(callers: &[Outcome], keepers: &[Outcome], couriers: &[Outcome]) -> Outcome
    ensures { result ≡ first_refusal (callers.now ++ (keepers.now ++ couriers.now)) }
{
    match first_refusal(callers) {
        Ok(()) => match first_refusal(keepers) {
            Ok(()) => first_refusal(couriers),
            Err(fault) => Err(fault),
        },
        Err(fault) => Err(fault),
    }
}

// The first refusal, if there is one.
fn first_refusal(outcomes: &[Outcome]) -> Outcome
    ensures { result ≡ first_refusal outcomes.now }
{
    for outcome in outcomes {
        if let Err(fault) = outcome {
            return Err(*fault);
        }
    }
    Ok(())
}

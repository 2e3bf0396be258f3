ghost use Rattle.std.specs.Prelude.{◌≡◌};
ghost use Rattle.exh_script.specs.Left.{ended_with};

use exh_load::Opened;
use exh_stores::Pages;

/// How the run of a script ended, its text being out.
#[derive(Clone, Copy, Debug, PartialEq, Eq)]
pub enum Ended {
    /// Each line was answered.
    Done,
    /// The script was refused as a whole.
    Refused,
}

impl Ended {
    /// How a run ended that left these wards, or none.
    pub(crate) fn with<P: Pages + Drop>(left: &Option<Opened<P>>) -> Ended
        ensures { result ≡ ended_with left.now }
    {
        match left {
            Some(_) => Ended::Done,
            None => Ended::Refused,
        }
    }
}

//! How `load` loads.
ghost use Rattle.std.specs.Prelude.{◌≡◌};
ghost use Rattle.exh_command.specs.Job.{way_of};

/// How pairs are loaded.
#[derive(Clone, Copy)]
pub enum LoadWay {
    /// As a new file, from a text of the length of a script.
    Short,
    /// As a new file, from a text of any length.
    Long,
    /// Into the file that is there, from a text of any length.
    Into,
}

impl LoadWay {
    /// The way that the flags `--long` and `--into` say. Both of them say none.
    pub(crate) fn by_flags(long: bool, into: bool) -> Option<LoadWay>
        ensures { result ≡ way_of long into }
    {
        match (long, into) {
            (false, false) => Some(LoadWay::Short),
            (true, false) => Some(LoadWay::Long),
            (false, true) => Some(LoadWay::Into),
            (true, true) => None,
        }
    }
}

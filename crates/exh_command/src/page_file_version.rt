//! The version of a page file that is asked for.
ghost use Rattle.std.specs.Prelude.{◌≡◌};
ghost use Rattle.exh_command.specs.Job.{version_numbered};

/// The version of a page file that `convert` writes.
#[derive(Clone, Copy)]
pub enum PageFileVersion {
    /// The table stands behind the pages, entry by entry.
    Second,
    /// The table stands in cells before the pages, each of which keeps its place.
    Third,
}

impl PageFileVersion {
    /// The version of this number, 2 or 3. Another number is that of none.
    pub(crate) fn numbered(number: u32) -> Option<PageFileVersion>
        ensures { result ≡ version_numbered number }
    {
        match number {
            2 => Some(PageFileVersion::Second),
            3 => Some(PageFileVersion::Third),
            _ => None,
        }
    }
}

ghost use Rattle.std.specs.Prelude.{◌≤◌, length};
ghost use Rattle.exh_saving.specs.Folder.{IsNameIn};

/// The name of a path's file in its folder: what stands behind the last slash.
pub fn file_name_of(path: &str) -> &str
    ensures name { IsNameIn path.now result.now }
    ensures short { length result.now ≤ length path.now }
{
    match path.rsplit_once('/') {
        Some((_, name)) => name,
        None => path,
    }
}

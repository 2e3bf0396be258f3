ghost use Rattle.std.specs.Prelude.{◌≡◌};
ghost use Rattle.exh_saving.specs.Folder.{IsFolderOf, folder_named};

/// The folder that a path's file is in: what stands before the last slash.
pub fn folder_of(path: &str) -> &str
    ensures { IsFolderOf path.now result.now }
{
    match path.rsplit_once('/') {
        Some((before, _)) => folder_named(before),
        None => ".",
    }
}

// The folder that stands before a slash.
fn folder_named(before: &str) -> &str
    ensures { result.now ≡ folder_named before.now }
{
    if before.is_empty() { "/" } else { before }
}

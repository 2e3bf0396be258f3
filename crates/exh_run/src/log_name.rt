use crate::Run;
use exh_saving::{file_name_of, folder_of};
use std::fs;

/// Whether a path is where the page file's log stands, or the journal that the pager looks for.
pub fn is_for_log(run: &Run<'_>, path: &str) -> bool {
    let Ok(whole) = fs::canonicalize(run.rt, run.path) else {
        return false;
    };
    let Ok(folder) = fs::canonicalize(run.rt, folder_of(path)) else {
        return false;
    };
    let whole = whole.as_str();
    let ending = file_name_of(path).strip_prefix(file_name_of(whole));
    folder.as_str() == folder_of(whole) && matches!(ending, Some("-wal" | "-journal"))
}

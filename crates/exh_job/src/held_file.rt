use exh_load::FileForm;
use exh_map::OpenedFile;

/// A page file that was opened at a path and is held open.
#[derive(Drop)]
pub struct HeldFile<'w> {
    /// The path that was named.
    pub(crate) path: &'w str,
    /// The file.
    pub(crate) seen: OpenedFile,
    /// How it has its pages in places.
    pub(crate) form: FileForm,
}

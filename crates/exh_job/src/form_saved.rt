//! The form in which wards are saved at a path.
ghost use Rattle.std.specs.Option.{option_copied};
ghost use Rattle.exh_job.specs.HeldForm.{IsFormSaved};

use crate::held_file::HeldFile;
use exh_load::{FileForm, PlacedForm};

/// The places in which wards are saved at a path: those of the file that was opened, where that is of version 3 and the
/// same path was named. A path that leads to it by another name is elsewhere.
pub(crate) fn form_saved<'h>(path: &str, held: Option<&'h HeldFile<'_>>) -> Option<&'h PlacedForm>
    ensures { IsFormSaved path.now (option_copied held.entry) (option_copied result) }
{
    let held = held?;
    if held.path != path {
        return None;
    }
    match &held.form {
        FileForm::Placed(form) => Some(form),
        FileForm::Plain => None,
    }
}

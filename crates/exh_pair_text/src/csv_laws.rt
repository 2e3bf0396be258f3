//! What holds of all records. Each function changes nothing.
ghost use Rattle.exh_pair_text.specs.CsvLaws.{FieldsAreRead, RecordsAreWhole};

/// What is written of one field or more reads as these fields.
pub fn fields_are_read()
    ensures { FieldsAreRead }
{}

/// In what is written each newline stands in quotes, and all quotes are closed, so it ends where it is written to.
pub fn records_are_whole()
    ensures { RecordsAreWhole }
{}

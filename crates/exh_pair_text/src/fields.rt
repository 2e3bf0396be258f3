//! The fields of a record.
ghost use Rattle.std.specs.Prelude.{◌≡◌, [], IfOk, OnOk};
ghost use Rattle.exh_pair_text.specs.Fields.{fields_in};
ghost use Rattle.exh_pair_text.specs.CsvReads.{ended, items_of, lists_of, so_far, taken_by};

use crate::{Part, Place, WrongRecord};
use std::alloc::{AllocError, Global};

/// The fields of a record, of which there is one at least, or the first thing that is wrong with it. The newline behind it is
/// no part of it. An `Err`: out of memory.
pub fn fields_of(
    alloc: Global,
    text: &[u8],
) -> Result<Result<Vec<Vec<u8>>, WrongRecord>, AllocError>
    ensures { IfOk result (λ read. lists_of read ≡ fields_in text.now) }
{
    let mut taken = Taken::new(alloc);
    let mut place = Place::Start;
    for at in 0..text.len() {
        let part = place.part(text[at]);
        if let Part::Stray = part {
            return Ok(Err(WrongRecord::BehindQuote { at: at + 1 }));
        }
        taken.take(part, text[at])?;
        place = place.after(text[at]);
    }
    if let Place::Quoted = place {
        return Ok(Err(WrongRecord::OpenQuote));
    }
    Ok(Ok(taken.all()?))
}

// The fields of a record as far as it is read.
#[derive(Drop)]
struct Taken {
    // Those behind which a comma stands.
    fields: Vec<Vec<u8>>,
    // The one behind them.
    field: Vec<u8>,
}

impl Taken {
    // Of a record of which nothing is read.
    fn new(alloc: Global) -> Taken
        ensures { so_far result ≡ ([], []) }
    {
        Taken {
            fields: Vec::new(alloc),
            field: Vec::new(alloc),
        }
    }

    // Takes the next byte, which is such a part.
    fn take(&mut self, part: Part, byte: u8) -> Result<(), AllocError>
        ensures { OnOk result (so_far self.new ≡ taken_by part byte (so_far self.old)) }
    {
        match part {
            Part::Content => self.field.extend_from_slice([byte].as_slice()),
            Part::Comma => self.end_field(),
            Part::Mark | Part::Stray => Ok(()),
        }
    }

    // Ends the field.
    fn end_field(&mut self) -> Result<(), AllocError>
        ensures { OnOk result (so_far self.new ≡ ended (so_far self.old)) }
    {
        let alloc = *self.field.allocator();
        let field = std::mem::replace(&mut self.field, Vec::new(alloc));
        self.fields.push(field)?;
        Ok(())
    }

    // All fields, the last one of which ends.
    fn all(self) -> Result<Vec<Vec<u8>>, AllocError>
        ensures { IfOk result (λ fields. items_of fields ≡ (ended (so_far self)).0) }
    {
        let mut fields = self.fields;
        fields.push(self.field)?;
        Ok(fields)
    }
}

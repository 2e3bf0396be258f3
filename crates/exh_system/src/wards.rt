ghost use Rattle.exh_file.specs.Draft.{IsDraftLeft, bytes_in};
ghost use Rattle.exh_system.specs.WardsFault.{IsWardsFault};

use exh_file::{Draft, SaveFault};
use exh_saving::{Source, SourceFault, Watch};
use exh_stores::Pages;
use exh_stream::{Meter, Terminal};
use std::io::Write;

/// Wards that are to be saved as a page file.
#[derive(Drop)]
pub(crate) struct Wards<P: Pages + Drop> {
    pub(crate) draft: Draft<P>,
}

impl<P: Pages + Drop> Source for Wards<P> {
    ghost leaves = { λ old new. IsDraftLeft old.draft new.draft };

    ghost fails = { λ old new. IsWardsFault old.draft new.draft };

    ghost bytes = { λ wards. bytes_in wards.draft };

    fn write_to<W: Write>(self, writer: &mut W) -> (Result<(), SourceFault>, Self) {
        let Wards { draft } = self;
        let (written, draft) = draft.write_to(writer);
        let written = match written {
            Ok(()) => Ok(()),
            Err(SaveFault::Write) => Err(SourceFault::Writer),
            Err(SaveFault::Memory) => Err(SourceFault::Memory),
            Err(SaveFault::Page) => Err(SourceFault::Source),
        };
        (written, Wards { draft })
    }
}

/// A meter that is told of what is written.
#[derive(Drop)]
pub(crate) struct Metered<'m, T: Terminal> {
    pub(crate) meter: &'m Meter<T>,
}

impl<T: Terminal> Watch for Metered<'_, T> {
    fn wrote(&self, bytes: &[u8]) {
        self.meter.pass(bytes);
    }
}

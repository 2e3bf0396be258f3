ghost use Rattle.std.specs.Prelude.{◌≡◌, ◌↔◌, IsTrue};
ghost use Rattle.exh_pair_text.specs.Places.{part_at, place_after};
ghost use Rattle.exh_pair_text.specs.declared.place.Place.TheVariants.{Quoted};

use crate::Part;

/// Where in a record the next byte stands, by the bytes before it.
#[derive(Clone, Copy, Debug, PartialEq, Eq)]
pub enum Place {
    /// A field begins.
    Start,
    /// In a field that doesn't begin with a quote.
    Plain,
    /// In a quoted field.
    Quoted,
    /// Behind a quote in a quoted field: it closes the field, or is the first of the two that spell a quote.
    Closed,
}

impl Place {
    /// The place behind this byte.
    pub fn after(self, byte: u8) -> Place
        ensures { result ≡ place_after self byte }
    {
        match (self, byte) {
            (Place::Quoted, b'"') => Place::Closed,
            (Place::Quoted, _) => Place::Quoted,
            (Place::Start | Place::Closed, b'"') => Place::Quoted,
            (_, b',') => Place::Start,
            _ => Place::Plain,
        }
    }

    /// What this byte is here.
    pub fn part(self, byte: u8) -> Part
        ensures { result ≡ part_at self byte }
    {
        match (self, byte) {
            (Place::Start | Place::Quoted, b'"') => Part::Mark,
            (Place::Quoted, _) | (Place::Closed, b'"') => Part::Content,
            (_, b',') => Part::Comma,
            (Place::Closed, _) => Part::Stray,
            _ => Part::Content,
        }
    }

    /// Whether a newline here is a byte of a field.
    pub fn is_quoted(self) -> bool
        ensures { IsTrue result ↔ (self ≡ Quoted) }
    {
        match self {
            Place::Quoted => true,
            Place::Start | Place::Plain | Place::Closed => false,
        }
    }
}

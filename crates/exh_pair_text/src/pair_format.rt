ghost use Rattle.std.specs.Prelude.{◌≡◌};
ghost use Rattle.exh_pair_text.specs.Formats.{format_name, format_named};
ghost use Rattle.exh_pair_text.specs.Lines.{end_before, end_behind, opening_text};
ghost use Rattle.exh_pair_text.specs.Records.{place_by};

use crate::Place;

/// How a text has its pairs.
#[derive(Clone, Copy, Debug, PartialEq, Eq)]
pub enum PairFormat {
    /// `KEY VALUE`, as `exhash pairs` prints words.
    Words,
    /// KEY, a tab, VALUE, with escapes that begin with a backslash.
    Tsv,
    /// A JSON object with the fields `key` and `value`, or `key_hex` and `value_hex`.
    Jsonl,
    /// KEY, a comma, VALUE, each in quotes where it has to be.
    Csv,
}

impl PairFormat {
    /// The format of a name, `None` where it is that of none.
    pub fn named(word: &[u8]) -> Option<PairFormat>
        ensures { result ≡ format_named word.now }
    {
        match word {
            b"words" => Some(PairFormat::Words),
            b"tsv" => Some(PairFormat::Tsv),
            b"jsonl" => Some(PairFormat::Jsonl),
            b"csv" => Some(PairFormat::Csv),
            _ => None,
        }
    }

    /// Its name.
    pub fn name(self) -> &'static str
        ensures { result.now ≡ format_name self }
    {
        match self {
            PairFormat::Words => "words",
            PairFormat::Tsv => "tsv",
            PairFormat::Jsonl => "jsonl",
            PairFormat::Csv => "csv",
        }
    }

    /// The place behind a byte of a line, which begins at `Place::Start`. A newline at `Place::Quoted` is a byte of the line,
    /// and at any other place it ends the line.
    pub fn place_after(self, place: Place, byte: u8) -> Place
        ensures { result ≡ place_by self place byte }
    {
        match self {
            PairFormat::Csv => place.after(byte),
            PairFormat::Words | PairFormat::Tsv | PairFormat::Jsonl => Place::Start,
        }
    }

    // The first line of an export.
    pub(crate) fn opening(self) -> &'static str
        ensures { result.now ≡ opening_text self }
    {
        match self {
            PairFormat::Words => "# exhash export words",
            PairFormat::Tsv => "# exhash export tsv",
            PairFormat::Jsonl => "{\"exhash\":\"export\",\"format\":\"jsonl\"}",
            PairFormat::Csv => "# exhash export csv",
        }
    }

    // What stands in its last line before the number of pairs.
    pub(crate) fn end_before(self) -> &'static str
        ensures { result.now ≡ end_before self }
    {
        match self {
            PairFormat::Words | PairFormat::Tsv | PairFormat::Csv => "# exhash end ",
            PairFormat::Jsonl => "{\"exhash\":\"end\",\"pairs\":",
        }
    }

    // What stands there behind it.
    pub(crate) fn end_behind(self) -> &'static str
        ensures { result.now ≡ end_behind self }
    {
        match self {
            PairFormat::Words | PairFormat::Tsv | PairFormat::Csv => "\n",
            PairFormat::Jsonl => "}\n",
        }
    }
}

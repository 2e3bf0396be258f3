//! The places of a command's words.

/// What a word stands for that is no option.
#[derive(Clone, Copy, Debug)]
pub enum Place {
    Path,
    NewPath,
    Key,
    Value,
    Old,
    New,
}

impl Place {
    /// What help calls it.
    pub fn name(self) -> &'static str {
        match self {
            Place::Path => "PATH",
            Place::Key => "KEY",
            Place::Value => "VALUE",
            Place::Old => "OLD",
            Place::New | Place::NewPath => "NEW",
        }
    }

    /// The same behind its article.
    pub fn with_article(self) -> &'static str {
        match self {
            Place::Path => "a PATH",
            Place::Key => "a KEY",
            Place::Value => "a VALUE",
            Place::Old => "an OLD",
            Place::New | Place::NewPath => "a NEW",
        }
    }
}

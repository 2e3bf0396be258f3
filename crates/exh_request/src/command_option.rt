//! The options of the everyday commands.
ghost use Rattle.std.specs.Prelude.{◌≡◌};
ghost use Rattle.exh_request.specs.Commands.{file_option_named, has_value, is_same_option, option_named, text_option_named};

use crate::word::is_word;

/// An option of an everyday command.
#[derive(Clone, Copy, Debug)]
pub enum CommandOption {
    Wait,
    Hex,
    Raw,
    New,
    Replace,
    From,
    Cap,
    Wards,
    Keyer,
    Format,
    Create,
    Atomic,
    Rejects,
    Header,
    Key,
    Value,
    Bare,
    Json,
}

impl CommandOption {
    /// Its word, behind the two dashes.
    pub fn name(self) -> &'static str {
        match self {
            CommandOption::Wait => "wait",
            CommandOption::Hex => "hex",
            CommandOption::Raw => "raw",
            CommandOption::New => "new",
            CommandOption::Replace => "replace",
            CommandOption::From => "from",
            CommandOption::Cap => "cap",
            CommandOption::Wards => "wards",
            CommandOption::Keyer => "keyer",
            CommandOption::Format => "format",
            CommandOption::Create => "create",
            CommandOption::Atomic => "atomic",
            CommandOption::Rejects => "rejects",
            CommandOption::Header => "header",
            CommandOption::Key => "key",
            CommandOption::Value => "value",
            CommandOption::Bare => "bare",
            CommandOption::Json => "json",
        }
    }

    /// What its value is to be.
    pub fn wanted(self) -> &'static str {
        match self {
            CommandOption::Wait => "a number of seconds from 0 to 86400",
            CommandOption::From => "`-`, which is standard input",
            CommandOption::Cap => "a number from 1 to 16",
            CommandOption::Wards => "a number from 0 to 4",
            CommandOption::Keyer => "`sha` or `plain`",
            CommandOption::Format => "`words`, `tsv`, `jsonl` or `csv`",
            CommandOption::Rejects => "the path of a new file, in UTF-8",
            CommandOption::Key | CommandOption::Value => "a name in UTF-8",
            CommandOption::Hex
            | CommandOption::Raw
            | CommandOption::New
            | CommandOption::Replace
            | CommandOption::Create
            | CommandOption::Atomic
            | CommandOption::Header
            | CommandOption::Bare
            | CommandOption::Json => "no value",
        }
    }

    /// The option of a name, without the dashes.
    pub(crate) fn named(name: &[u8]) -> Option<CommandOption>
        ensures { result ≡ option_named name.now }
    {
        match CommandOption::text_named(name) {
            Some(option) => Some(option),
            None => CommandOption::file_named(name),
        }
    }

    // The option of a name, of those of files, keys and values.
    #[tactic(auto, unfolding(crate::specs::Commands::file_option_named))]
    fn file_named(name: &[u8]) -> Option<CommandOption>
        ensures { result ≡ file_option_named name.now }
    {
        match name {
            _ if is_word(name, "replace") => Some(CommandOption::Replace),
            b"wait" => Some(CommandOption::Wait),
            b"hex" => Some(CommandOption::Hex),
            b"raw" => Some(CommandOption::Raw),
            b"new" => Some(CommandOption::New),
            b"from" => Some(CommandOption::From),
            b"cap" => Some(CommandOption::Cap),
            b"wards" => Some(CommandOption::Wards),
            b"keyer" => Some(CommandOption::Keyer),
            _ => None,
        }
    }

    // The option of a name, of those of texts and counts of pairs.
    #[tactic(auto, unfolding(crate::specs::Commands::text_option_named))]
    fn text_named(name: &[u8]) -> Option<CommandOption>
        ensures { result ≡ text_option_named name.now }
    {
        match name {
            _ if is_word(name, "format") => Some(CommandOption::Format),
            _ if is_word(name, "create") => Some(CommandOption::Create),
            _ if is_word(name, "atomic") => Some(CommandOption::Atomic),
            _ if is_word(name, "rejects") => Some(CommandOption::Rejects),
            _ if is_word(name, "header") => Some(CommandOption::Header),
            _ if is_word(name, "key") => Some(CommandOption::Key),
            _ if is_word(name, "value") => Some(CommandOption::Value),
            _ if is_word(name, "bare") => Some(CommandOption::Bare),
            _ if is_word(name, "json") => Some(CommandOption::Json),
            _ => None,
        }
    }

    /// Whether a value belongs to it.
    pub(crate) fn has_value(self) -> bool
        ensures { result ≡ has_value self }
    {
        match self {
            CommandOption::Wait
            | CommandOption::From
            | CommandOption::Cap
            | CommandOption::Wards
            | CommandOption::Keyer
            | CommandOption::Format
            | CommandOption::Rejects
            | CommandOption::Key
            | CommandOption::Value => true,
            CommandOption::Hex
            | CommandOption::Raw
            | CommandOption::New
            | CommandOption::Replace
            | CommandOption::Create
            | CommandOption::Atomic
            | CommandOption::Header
            | CommandOption::Bare
            | CommandOption::Json => false,
        }
    }

    /// Whether this is the other option.
    pub(crate) fn is(self, other: CommandOption) -> bool
        ensures { result ≡ is_same_option self other }
    {
        match (self, other) {
            (CommandOption::Wait, CommandOption::Wait)
            | (CommandOption::Hex, CommandOption::Hex)
            | (CommandOption::Raw, CommandOption::Raw)
            | (CommandOption::New, CommandOption::New)
            | (CommandOption::Replace, CommandOption::Replace)
            | (CommandOption::From, CommandOption::From)
            | (CommandOption::Cap, CommandOption::Cap)
            | (CommandOption::Wards, CommandOption::Wards)
            | (CommandOption::Keyer, CommandOption::Keyer)
            | (CommandOption::Format, CommandOption::Format)
            | (CommandOption::Create, CommandOption::Create)
            | (CommandOption::Atomic, CommandOption::Atomic)
            | (CommandOption::Rejects, CommandOption::Rejects)
            | (CommandOption::Header, CommandOption::Header)
            | (CommandOption::Key, CommandOption::Key)
            | (CommandOption::Value, CommandOption::Value)
            | (CommandOption::Bare, CommandOption::Bare)
            | (CommandOption::Json, CommandOption::Json) => true,
            _ => false,
        }
    }
}

//! The everyday commands.
ghost use Rattle.std.specs.Prelude.{◌≡◌};
ghost use Rattle.exh_request.specs.Commands.{command_named, command_word, takes};

use crate::CommandOption;
use crate::command_words::{
    BACKUP, COMPACT, CREATE, DEL, EXPORT, GET, IMPORT, PUT, SALVAGE, STATS, SWAP,
};
use crate::word::is_word;

/// An everyday command.
#[derive(Clone, Copy, Debug)]
pub enum EverydayCommand {
    Create,
    Get,
    Put,
    Del,
    Swap,
    Backup,
    Import,
    Export,
    Compact,
    Stats,
    Salvage,
}

impl EverydayCommand {
    /// The word by which it is called.
    pub fn name(self) -> &'static str
        ensures { result.now ≡ command_word self }
    {
        match self {
            EverydayCommand::Create => CREATE,
            EverydayCommand::Get => GET,
            EverydayCommand::Put => PUT,
            EverydayCommand::Del => DEL,
            EverydayCommand::Swap => SWAP,
            EverydayCommand::Backup => BACKUP,
            EverydayCommand::Import => IMPORT,
            EverydayCommand::Export => EXPORT,
            EverydayCommand::Compact => COMPACT,
            EverydayCommand::Stats => STATS,
            EverydayCommand::Salvage => SALVAGE,
        }
    }

    /// The command that a word calls, `None` where it calls no everyday one.
    #[tactic(auto, unfolding(crate::specs::Commands::command_named))]
    pub fn named(word: &[u8]) -> Option<EverydayCommand>
        ensures { result ≡ command_named word.now }
    {
        match word {
            _ if is_word(word, CREATE) => Some(EverydayCommand::Create),
            _ if is_word(word, BACKUP) => Some(EverydayCommand::Backup),
            _ if is_word(word, IMPORT) => Some(EverydayCommand::Import),
            _ if is_word(word, EXPORT) => Some(EverydayCommand::Export),
            _ if is_word(word, COMPACT) => Some(EverydayCommand::Compact),
            _ if is_word(word, STATS) => Some(EverydayCommand::Stats),
            _ if is_word(word, SALVAGE) => Some(EverydayCommand::Salvage),
            _ if is_word(word, GET) => Some(EverydayCommand::Get),
            _ if is_word(word, PUT) => Some(EverydayCommand::Put),
            _ if is_word(word, DEL) => Some(EverydayCommand::Del),
            _ if is_word(word, SWAP) => Some(EverydayCommand::Swap),
            _ => None,
        }
    }

    /// Whether this is one of its options.
    pub(crate) fn takes(self, option: CommandOption) -> bool
        ensures { result ≡ takes self option }
    {
        match (self, option) {
            (EverydayCommand::Salvage, CommandOption::Wait) => false,
            (_, CommandOption::Wait) => true,
            (
                EverydayCommand::Create,
                CommandOption::Cap | CommandOption::Wards | CommandOption::Keyer,
            ) => true,
            (EverydayCommand::Get, CommandOption::Hex | CommandOption::Raw | CommandOption::From) =>
                true,
            (
                EverydayCommand::Put,
                CommandOption::Hex
                | CommandOption::Raw
                | CommandOption::New
                | CommandOption::Replace,
            ) => true,
            (EverydayCommand::Del, CommandOption::Hex | CommandOption::From) => true,
            (EverydayCommand::Swap, CommandOption::Hex) => true,
            (
                EverydayCommand::Import,
                CommandOption::Format
                | CommandOption::Hex
                | CommandOption::Create
                | CommandOption::Atomic
                | CommandOption::Rejects
                | CommandOption::Header
                | CommandOption::Key
                | CommandOption::Value
                | CommandOption::Cap
                | CommandOption::Wards
                | CommandOption::Keyer,
            ) => true,
            (
                EverydayCommand::Export | EverydayCommand::Salvage,
                CommandOption::Format | CommandOption::Hex | CommandOption::Bare,
            ) => true,
            (
                EverydayCommand::Compact,
                CommandOption::Cap | CommandOption::Wards | CommandOption::Keyer,
            ) => true,
            (EverydayCommand::Stats, CommandOption::Json) => true,
            _ => false,
        }
    }
}

//! What the words of an everyday command ask for: a request, or what is wrong with them.
//!
//! The words of an everyday command, parted into places and options, and what is wrong with them.
#![tactic(auto)]

pub use action::Action;
pub use asking::{help_asked, request_of};
pub use cause_or_memory::CauseOrMemory;
pub use command_option::CommandOption;
pub use command_words::{
    BACKUP, COMPACT, CREATE, DEL, EXPORT, GET, IMPORT, PUT, SALVAGE, STATS, SWAP,
};
pub use everyday_command::EverydayCommand;
pub use fault::RequestFault;
pub use form::Form;
pub use given_settings::GivenSettings;
pub use given_texts::GivenTexts;
pub use import_words::ImportWords;
pub use keys::Keys;
pub use line::{Line, Placed, Use};
pub use new_value::NewValue;
pub use options::{USUAL_WAIT, WAIT_LIMIT};
pub use place::Place;
pub use put_when::PutWhen;
pub use request::Request;
pub use word::is_word;
pub use words::{command_called, words_of};
pub use wrong_request::{WrongCause, WrongRequest};

mod action;
mod argument;
mod asking;
mod cause_or_memory;
mod command_option;
mod command_words;
mod everyday_command;
mod fault;
mod form;
mod given_settings;
mod given_texts;
mod import_words;
mod keys;
mod line;
mod new_value;
mod options;
mod place;
mod put_when;
mod request;
mod word;
mod words;
mod wrong_request;

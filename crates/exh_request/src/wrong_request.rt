//! What is wrong with the words of an everyday command.

use crate::{CommandOption, EverydayCommand, Place};
use exh_page::{KEY_LIMIT, VALUE_LIMIT};
use std::fmt;

/// What is wrong with the words of an everyday command. Its text is one sentence, without a full stop.
#[derive(Clone, Copy, Debug)]
pub struct WrongRequest {
    pub command: EverydayCommand,
    pub cause: WrongCause,
}

/// Why the words of an everyday command are wrong.
#[derive(Clone, Copy, Debug)]
pub enum WrongCause {
    /// The option stands at the end, without its value.
    NoValue(CommandOption),
    /// The option stands there twice.
    Twice(CommandOption),
    /// The option's value is none that it takes.
    BadValue(CommandOption),
    /// `--new` and `--replace` stand there both.
    NewAndReplace,
    /// Settings stand there, and no file is made.
    SettingsOfNone,
    /// `--header` stands there, and the format isn't `csv`.
    HeaderOfNone,
    /// `--key` or `--value` stands there, and the format has no names.
    NamesOfNone,
    /// One of the two stands there of comma-separated fields.
    OneName,
    /// `--raw` stands there without one key alone.
    RawKeys,
    /// A word is missing that stands for this.
    Missing(Place),
    /// There are more words than the command takes.
    TooMany,
    /// The path is no UTF-8.
    PathNotText(Place),
    /// The word isn't hexadecimal digits, two a byte.
    NotHex(Place),
    /// The key has no bytes.
    KeyEmpty,
    /// The key has so many bytes, more than 64.
    KeyTooLong { length: usize },
    /// The value at this place has so many bytes, more than 128.
    ValueTooLong { place: Place, length: usize },
}

impl fmt::Display for WrongRequest {
    fn fmt<W: fmt::Write>(&self, f: &mut fmt::Formatter<W>) -> fmt::Result {
        let command = self.command.name();
        match self.cause {
            WrongCause::NoValue(option) | WrongCause::BadValue(option) => {
                let (name, wanted) = (option.name(), option.wanted());
                write!(f, "`{command} --{name}` takes {wanted}")
            }
            WrongCause::Twice(option) => write!(f, "`{command}` takes --{} once", option.name()),
            WrongCause::NewAndReplace => {
                write!(f, "`{command}` takes --new or --replace, not both")
            }
            WrongCause::SettingsOfNone => write!(
                f,
                "`{command}` takes --cap, --wards and --keyer only beside --create"
            ),
            WrongCause::HeaderOfNone => {
                write!(f, "`{command}` takes --header only beside --format csv")
            }
            WrongCause::NamesOfNone => write!(
                f,
                "`{command}` takes --key and --value only beside --format jsonl or --header"
            ),
            WrongCause::OneName => write!(
                f,
                "`{command} --header` takes --key and --value both, or neither"
            ),
            WrongCause::RawKeys => write!(f, "`{command} --raw` takes one KEY"),
            WrongCause::Missing(place) => write!(f, "`{command}` takes {}", place.with_article()),
            WrongCause::TooMany => write!(f, "`{command}` takes fewer words"),
            WrongCause::PathNotText(place) => write!(
                f,
                "the {} of `{command}` is not UTF-8, as a page file's whole path must be",
                place.name(),
            ),
            WrongCause::NotHex(place) => {
                let wanted = place.with_article();
                write!(
                    f,
                    "`{command} --hex` takes {wanted} of hexadecimal digits, two a byte"
                )
            }
            WrongCause::KeyEmpty => {
                write!(
                    f,
                    "`{command}` takes a KEY of 1 to {KEY_LIMIT} bytes, and not of 0"
                )
            }
            WrongCause::KeyTooLong { length } => {
                write!(
                    f,
                    "`{command}` takes a KEY of 1 to {KEY_LIMIT} bytes, and not of {length}"
                )
            }
            WrongCause::ValueTooLong { place, length } => {
                let wanted = place.with_article();
                write!(
                    f,
                    "`{command}` takes {wanted} of 0 to {VALUE_LIMIT} bytes, and not of {length}"
                )
            }
        }
    }
}

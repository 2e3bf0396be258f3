//! The words of a command line as texts, and what is wrong with them.

use exh_command::{CliFault, manual_text, not_text, usage_error};
use exh_request::{EverydayCommand, RequestFault};
use std::alloc::{AllocError, Global};

/// The words as texts.
///
/// `Wrong`: one isn't UTF-8. `Memory`: a growth was refused.
pub(crate) fn texts_of(alloc: Global, words: &[Vec<u8>]) -> Result<Vec<String>, CliFault> {
    let mut texts = Vec::new(alloc);
    for word in words {
        match str::from_utf8(word) {
            Ok(text) => push_text(&mut texts, String::from_str(alloc, text)?)?,
            Err(_) => return Err(CliFault::Wrong(not_text(alloc)?)),
        }
    }
    Ok(texts)
}

fn push_text(texts: &mut Vec<String>, text: String) -> Result<(), AllocError> {
    Ok(texts.push(text)?)
}

/// The fault of the words of an everyday command, with the usage of that command.
pub(crate) fn wrong_request(alloc: Global, fault: RequestFault) -> CliFault {
    match fault {
        RequestFault::Wrong(wrong) => match format!(in alloc; "{wrong}") {
            Ok(sentence) => usage_error(alloc, wrong.command.name(), sentence.as_str()),
            Err(_) => CliFault::Memory,
        },
        RequestFault::Memory => CliFault::Memory,
    }
}

/// The help of an everyday command, which standard error shows as it does that of the others.
pub(crate) fn help_of(alloc: Global, command: EverydayCommand) -> CliFault {
    match manual_text(alloc, Some(command.name())) {
        Ok(text) => CliFault::Wrong(text),
        Err(_) => CliFault::Memory,
    }
}

//! What standard error shows of a wrong command line whose words have control characters.

use exh_command::{CliFault, job_of};
use exh_text::Escaped;
use std::alloc::{AllocError, Global};

/// The fault of a wrong command line as it is shown: where words have control characters, that of the same words with
/// these escaped, if they are wrong too.
pub(crate) fn shown_fault(alloc: Global, words: &[String], fault: CliFault) -> CliFault {
    if !words
        .iter()
        .any(|word| word.chars().any(|c| c.is_control()))
    {
        return fault;
    }
    match escaped_fault(alloc, words) {
        Some(escaped) => escaped,
        None => fault,
    }
}

// That of the words with what is escaped in them.
fn escaped_fault(alloc: Global, words: &[String]) -> Option<CliFault> {
    let escaped = escaped(alloc, words).ok()?;
    match job_of(alloc, &escaped) {
        Err(CliFault::Wrong(error)) => Some(CliFault::Wrong(error)),
        _ => None,
    }
}

fn escaped(alloc: Global, words: &[String]) -> Result<Vec<String>, AllocError> {
    let mut escaped = Vec::new(alloc);
    for word in words {
        escaped.push(format!(in alloc; "{}", Escaped(word))?)?;
    }
    Ok(escaped)
}

//! The program's own words.

use crate::EverydayCommand;
use std::alloc::AllocError;
use std::env::{Env, FillError};

// No everyday command has a longer name.
const LONGEST_NAME: usize = 8;

/// The words that the program was started with, its own name first, as their bytes. An `AllocError` where memory is
/// refused.
pub fn words_of(rt: &(impl Env + AllocGlobal)) -> Result<Vec<Vec<u8>>, AllocError> {
    let mut words = Vec::new(rt.alloc());
    for index in 0..usize::MAX {
        match word_at(rt, index)? {
            Some(word) => words.push(word)?,
            None => break,
        }
    }
    Ok(words)
}

/// The everyday command that the program was started with, read without memory; `None` where it is none.
pub fn command_called(rt: &impl Env) -> Option<EverydayCommand> {
    let mut word = [0u8; LONGEST_NAME];
    let length = rt.arg(1, word.as_mut_slice()).ok()?;
    EverydayCommand::named(word.get(..length)?)
}

// The word of an index, `None` behind the last. Its room is doubled until it fits.
fn word_at(rt: &(impl Env + AllocGlobal), index: usize) -> Result<Option<Vec<u8>>, AllocError> {
    let mut room: usize = 256;
    for _ in 0..usize::BITS {
        let mut word = vec![in rt.alloc(); 0u8; room]?;
        match rt.arg(index, word.as_mut_slice()) {
            Ok(length) => {
                word.truncate(length);
                return Ok(Some(word));
            }
            Err(FillError::NotPresent) => return Ok(None),
            Err(FillError::TooLong) => room = room.saturating_mul(2),
        }
    }
    Err(AllocError)
}

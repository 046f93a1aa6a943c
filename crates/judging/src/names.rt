//! Names that are near to a word.

use crate::instructions::INSTRUCTIONS;
use posix::Call;
use std::alloc::{AllocError, Global};
use text::Words;
use wording::{distance, nearest_name};

/// Returns true if a name is near to a word.
pub fn is_near(alloc: Global, word: &[u8], name: &[u8]) -> Result<bool, AllocError> {
    Ok(distance(alloc, word, name)?.is_some())
}

/// Returns the nearest of a list of words, which are separated by spaces. Returns `None` if none is near.
pub fn nearest_in(
    alloc: Global,
    word: &[u8],
    list: &'static str,
) -> Result<Option<&'static [u8]>, AllocError> {
    nearest_name(alloc, word, Words(list.as_bytes()))
}

/// Returns the nearest of the words that begin instructions, and of `end`. Returns `None` if none is near.
pub fn nearest_instruction(
    alloc: Global,
    word: &[u8],
) -> Result<Option<&'static [u8]>, AllocError> {
    let first = INSTRUCTIONS
        .iter()
        .flat_map(|(words, _)| Words(words.as_bytes()));
    nearest_name(alloc, word, first.chain(Words(b"end")))
}

/// Returns the nearest name of a call. Returns `None` if none is near.
pub fn nearest_call(alloc: Global, word: &[u8]) -> Result<Option<&'static [u8]>, AllocError> {
    let mut names = Vec::new(alloc);
    for call in &Call::ALL {
        names.push(call.name())?;
    }
    nearest_name(alloc, word, names.into_iter())
}

//! The known name closest to an unknown word.

ghost use Rattle.std.specs.Iterator.{IsFinite};

use crate::table::NAMES;
use std::alloc::{AllocError, Global};
use std::str;
use strsim::osa_distance;

/// Returns how many letters of a word may be wrong: one of up to three bytes, two of up to eight, a third of more.
fn limit_of(word: &str) -> usize {
    match word.len() {
        0..=3 => 1,
        4..=8 => 2,
        len => len / 3,
    }
}

/// Returns how many letters are left out, inserted, replaced, or exchanged with their neighbour between a word and a
/// name. `None` if these are too many, or if the word or the name is not UTF-8.
pub fn distance(alloc: Global, word: &[u8], name: &[u8]) -> Result<Option<usize>, AllocError> {
    let (Ok(word), Ok(name)) = (str::from_utf8(word), str::from_utf8(name)) else {
        return Ok(None);
    };
    let limit = limit_of(word);
    if word.len().abs_diff(name.len()) > limit {
        return Ok(None);
    }
    let distance = osa_distance(alloc, word, name)?;
    Ok(Some(distance).filter(|distance| *distance <= limit))
}

/// Returns the name closest to a word, if one is close. Of equally close names, those with the first letter of the word
/// are preferred, and of these, the first.
pub fn nearest_name<'n, I: Iterator<Item = &'n [u8]> + Drop>(
    alloc: Global,
    word: &[u8],
    names: I,
) -> Result<Option<&'n [u8]>, AllocError>
    requires can { I.can_next names }
    requires ends { IsFinite (I.remaining names) }
{
    let mut least = usize::MAX;
    let mut found = None;
    for name in names {
        let Some(distance) = distance(alloc, word, name)? else {
            continue;
        };
        let differs = usize::from(word.first() != name.first());
        let rank = distance.saturating_mul(2).saturating_add(differs);
        if rank < least {
            least = rank;
            found = Some(name);
        }
    }
    Ok(found)
}

/// Returns the name that consists of these letters and a word.
fn name_behind(letters: &[u8], word: &[u8]) -> Option<&'static [u8]> {
    let mut names = NAMES.iter().map(|(_, name, _)| name.as_bytes());
    names.find(|name| name.strip_prefix(letters) == Some(word))
}

/// The prefixes of names, by kind.
const BEGINNINGS: [&str; 6] = ["SIG", "SIG_", "SA_", "W", "E", "P_"];

/// Returns the name that a word becomes with one of the prefixes.
fn name_without_beginning(word: &[u8]) -> Option<&'static [u8]> {
    BEGINNINGS
        .iter()
        .find_map(|letters| name_behind(letters.as_bytes(), word))
}

/// Returns the name that an unknown word probably misspells; `None` if no name is close.
pub fn meant(alloc: Global, word: &[u8]) -> Result<Option<&'static [u8]>, AllocError> {
    if let Some(name) = name_without_beginning(word) {
        return Ok(Some(name));
    }
    if word.starts_with(b"SIGRT") {
        return Ok(Some(b"SIGRTMIN+1"));
    }
    nearest_name(
        alloc,
        word,
        NAMES.iter().map(|(_, name, _)| name.as_bytes()),
    )
}

//! The rules of words, by docs/FORMATS.md.

use arrayvec::ArrayVec;
use text::{Reason, are_name_bytes, integer};

/// How many bytes of a word are compared with names. No name is so long, and none is near to a word that is.
const MAX_COMPARED: usize = 24;

/// Returns true if a word is a name, or is one except for its length.
pub fn is_long_name(word: &[u8]) -> bool {
    match word {
        [first, rest @ ..] => first.is_ascii_lowercase() && are_name_bytes(rest),
        [] => false,
    }
}

/// Returns true if a word is a number: digits, optionally after a minus. It may exceed 64 bits.
pub fn is_number(word: &[u8]) -> bool {
    !matches!(integer(word), Err(Reason::BadNumber))
}

/// Returns true if a word is a register.
pub fn is_register(word: &[u8]) -> bool {
    matches!(word, [b'r', b'0'..=b'7'])
}

/// Returns true if a word is a byte: two hexadecimal digits.
pub fn is_byte(word: &[u8]) -> bool {
    match word {
        [high, low] => high.is_ascii_hexdigit() && low.is_ascii_hexdigit(),
        _ => false,
    }
}

/// Returns the beginning of a word that is compared with names.
fn beginning_of(word: &[u8]) -> ArrayVec<u8, MAX_COMPARED> {
    let mut beginning = ArrayVec::new();
    let _ = beginning.try_extend_from_slice(&word[..word.len().min(MAX_COMPARED)]);
    beginning
}

/// Returns the beginning of a word that is compared, in lower case.
pub fn lower(word: &[u8]) -> ArrayVec<u8, MAX_COMPARED> {
    let mut small = beginning_of(word);
    small.make_ascii_lowercase();
    small
}

/// Returns the beginning of a word that is compared, in upper case.
pub fn upper(word: &[u8]) -> ArrayVec<u8, MAX_COMPARED> {
    let mut capitals = beginning_of(word);
    capitals.make_ascii_uppercase();
    capitals
}

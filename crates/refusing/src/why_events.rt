//! Messages about words that are not events, consoles or bytes.

use crate::why_instructions::put_too_many;
use crate::why_words::put_nearest;
use judging::{Line, is_byte, is_call, is_listed, is_number, lower};
use text::are_digits;
use wording::Prose;

/// Returns the message for `step=3` or `tick:3`, up to the count, and the count.
fn glued(word: &[u8]) -> Option<(&'static str, &[u8])> {
    match word {
        [b's', b't', b'e', b'p', b'=' | b':', count @ ..] if are_digits(count) => {
            Some(("expected a space: step ", count))
        }
        [b't', b'i', b'c', b'k', b'=' | b':', count @ ..] if are_digits(count) => {
            Some(("expected a space: tick ", count))
        }
        _ => None,
    }
}

/// Adds why a word cannot begin a line of events.
pub fn put_no_event(why: &mut Prose, word: &[u8]) {
    let small = lower(word);
    if word == b"pidmax".as_slice() {
        why.push_str("expected events, found a world; the events are the second argument");
    } else if is_listed("step tick key hangup", small.as_slice()) {
        why.push_word("expected lower case: ", small.as_slice());
    } else if let Some((words, count)) = glued(word) {
        why.push_word(words, count);
    } else if is_call(word) {
        why.push_around("unknown event ", word, "; only programs make system calls");
    } else {
        put_no_first(why, word);
    }
}

/// Adds which words begin a line of events, and which of them was probably intended.
fn put_no_first(why: &mut Prose, word: &[u8]) {
    why.push_str("expected step, tick, key, type or hangup");
    if is_byte(word) {
        why.push_str("; bytes follow key and a console");
    } else if is_listed("run steps", word) {
        why.push_str("; did you mean step?");
    } else {
        put_nearest(why, word, "step tick key type hangup");
    }
}

/// Adds which consoles a world has.
pub fn put_no_console(why: &mut Prose, line: Line<'_>, consoles: u8) {
    let word = line.word(1);
    if consoles == 0 {
        why.push_str("this world has no console; write consoles 1 in its header");
    } else if line.first() == b"key".as_slice() && is_byte(word) && word != b"00".as_slice() {
        why.push_word("expected a console before the byte: key 1 ", word);
    } else if consoles == 1 {
        why.push_str("expected console 1, the only one of this world");
    } else {
        why.push_with("expected a console from 1 to ", u64::from(consoles));
    }
}

/// Adds why a word is not a byte for `key`.
pub fn put_no_byte(why: &mut Prose, word: &[u8]) {
    if word.len() % 2 == 0 && word.iter().all(u8::is_ascii_hexdigit) {
        put_pairs(why, word);
    } else {
        let (words, digits) = match word {
            [digit] if digit.is_ascii_hexdigit() => ("expected two digits: 0", word),
            [b'0', b'x' | b'X', digits @ ..] | [b'\'', digits @ .., b'\''] if is_byte(digits) => {
                ("expected only two digits: ", digits)
            }
            [b'0', digits @ ..] if is_byte(digits) => ("expected two digits: ", digits),
            _ => ("expected two hexadecimal digits, 00 to FF", &word[..0]),
        };
        why.push_word(words, digits);
    }
}

/// Adds digits as bytes of two digits.
fn put_pairs(why: &mut Prose, digits: &[u8]) {
    why.push_str("expected one word per byte:");
    for pair in digits.chunks(2) {
        why.push_word(" ", pair);
    }
}

/// Adds why a word cannot follow `hangup` and its console.
pub fn put_many_consoles(why: &mut Prose, line: Line<'_>, word: &[u8]) {
    if is_number(word) {
        why.push_str("expected one console; write one hangup per line");
    } else {
        put_too_many(why, line, 2);
    }
}

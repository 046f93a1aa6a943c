//! Messages about words that are not names or numbers, and about lines of the header and lines `program`.

use judging::{Line, Named, Number, is_listed, is_long_name, is_number, lower, nearest_in, oddity};
use text::{are_digits, is_name};
use wording::Prose;

/// Adds which word of a list was probably intended, if one is near.
pub fn put_nearest(why: &mut Prose, word: &[u8], list: &'static str) {
    let near = nearest_in(why.alloc(), word, list);
    why.push_meant(near);
}

/// Adds words and, unless the number is that of a console, the range of numbers allowed in this place.
pub fn put_range(why: &mut Prose, words: &str, number: Number) {
    why.push_str(words);
    if !matches!(number, Number::KeyConsole(_) | Number::HangupConsole(_)) {
        let (low, high) = number.range();
        why.push_number(low);
        why.push_with(" to ", high);
    }
}

/// Returns the word for a label or a program.
fn text_of(named: Named) -> &'static str {
    match named {
        Named::Label => "label",
        Named::Program => "program",
    }
}

/// Returns true if a word begins and ends with a quotation mark.
fn is_quoted(word: &[u8]) -> bool {
    matches!(word, [b'"' | b'\'', .., b'"' | b'\''])
}

/// Returns true if a word is a name and a colon.
fn is_label(word: &[u8]) -> bool {
    match word {
        [name @ .., b':'] => is_name(name),
        _ => false,
    }
}

/// Adds why a word is not a name.
pub fn put_no_name(why: &mut Prose, word: &[u8], named: Named) {
    let small = lower(word);
    if let Some(what) = oddity(word) {
        why.push_str(what);
    } else if is_quoted(word) {
        why.push_str("expected a name without quotes");
    } else if is_label(word) {
        why.push_str("unexpected colon; only the definition of a label has one");
    } else if is_name(small.as_slice()) {
        why.push_word("expected lower case: ", small.as_slice());
    } else if is_long_name(word) {
        why.push_with("expected at most 16 characters, found ", word.len() as u64);
    } else {
        put_no_letter(why, word, named);
    }
}

/// Adds why a word is not a name, if it is empty, begins with no lower-case letter, or has characters that names lack.
fn put_no_letter(why: &mut Prose, word: &[u8], named: Named) {
    let found = match word {
        [] => "",
        _ if is_number(word) => ", found a number",
        [b'@', ..] => " without @",
        [b'$', ..] => " without $",
        [b'a'..=b'z', ..] => return why.push_str(
            "expected only lower-case letters, digits and _ in a name",
        ),
        _ => return why.push_str("expected a lower-case letter at the start of a name"),
    };
    why.push_around("expected the name of a ", text_of(named).as_bytes(), found);
}

/// Returns what follows the `@` or `$` of a word.
pub fn behind_mark(word: &[u8]) -> &[u8] {
    word.get(1..).unwrap_or(&[])
}

/// Adds that a number has no `@` or `$` before it.
pub fn put_marked_number(why: &mut Prose, word: &[u8]) {
    match word {
        [b'@', number @ ..] => why.push_word("expected a number without @: ", number),
        [_, number @ ..] => why.push_word("expected a number without $: ", number),
        [] => {}
    }
}

/// Adds that a number doesn't fit in 64 bits with a sign.
pub fn put_wide_value(why: &mut Prose, word: &[u8]) {
    why.push_str(match word {
        b"18446744073709551615" => "expected a signed 64-bit number; for all bits set, write -1",
        _ => "expected a number from -9223372036854775808 to 9223372036854775807",
    });
}

/// Returns what follows the digits at the front of a word, which a minus may precede. Returns `None` if the word has no
/// digits there, or nothing after them.
fn behind_digits(word: &[u8]) -> Option<&[u8]> {
    let digits = match word {
        [b'-', digits @ ..] => digits,
        _ => word,
    };
    let end = digits.iter().position(|b| !b.is_ascii_digit())?;
    if end == 0 { None } else { Some(&digits[end..]) }
}

/// Returns true if a word is a number with a unit, as in `10ms`. The unit does not begin with `x`, as in `0x10`.
fn has_unit(word: &[u8]) -> bool {
    match behind_digits(word) {
        Some([first, rest @ ..]) => {
            first.is_ascii_lowercase()
                && *first != b'x'
                && rest.iter().all(|b| b.is_ascii_lowercase() || b.is_ascii_digit() || *b == b'_')
        }
        _ => false,
    }
}

/// Returns the number that a word has in hexadecimal, with at most 11 digits after `0x`.
fn hexadecimal(word: &[u8]) -> Option<u64> {
    let [b'0', b'x' | b'X', digits @ ..] = word else {
        return None;
    };
    if digits.is_empty() || digits.len() > 11 {
        return None;
    }
    let mut sum: u64 = 0;
    for byte in digits {
        let digit = char::from(*byte).to_digit(16)?;
        sum = sum.saturating_mul(16).saturating_add(u64::from(digit));
    }
    Some(sum)
}

/// Adds why a word is not a number, if that does not depend on the range. Returns true if it has added something.
pub fn put_no_digits(why: &mut Prose, word: &[u8]) -> bool {
    if has_unit(word) {
        why.push_str("expected a number without a unit");
    } else if let Some(number) = hexadecimal(word) {
        why.push_with("expected a decimal number: ", number);
    } else {
        match word {
            [b'+', digits @ ..] if are_digits(digits) => {
                why.push_word("expected a number without +: ", digits);
            }
            [b'\'', byte, b'\''] => {
                why.push_with(
                    "expected a number instead of a character: ",
                    u64::from(*byte),
                );
            }
            _ => return false,
        }
    }
    true
}

/// Adds why a word is not a number.
pub fn put_no_number(why: &mut Prose, word: &[u8], number: Number) {
    if put_no_digits(why, word) {
        return;
    }
    let words = match number {
        Number::KeyConsole(_) => "expected a console number: key 1 ..",
        Number::HangupConsole(_) => "expected a console number: hangup 1",
        Number::Id => "expected a numeric ID from ",
        Number::Pidmax | Number::Consoles | Number::Count => "expected a number from ",
    };
    put_range(why, words, number);
    if number == Number::Id && word == b"root".as_slice() {
        why.push_str("; root is 0");
    }
}

/// Words that follow the event number in lines of a trace.
const OF_TRACE: &str = "note call handle discard stop return end halt";

/// Adds what the first or the second line of a world must be.
pub fn put_no_header(why: &mut Prose, line: Line<'_>, number: Number) {
    let word = line.first();
    let is_first = number == Number::Pidmax;
    let (name, words) = if is_first {
        ("pidmax", "expected pidmax N, then consoles N")
    } else {
        ("consoles", "expected consoles N after pidmax N")
    };
    if word.strip_suffix(b":") == Some(name.as_bytes()) {
        why.push_around("unexpected colon after ", name.as_bytes(), "");
    } else if is_first && is_listed("step tick key type hangup", word) {
        why.push_str("expected a world, found events; the world is the first argument");
    } else if is_first && are_digits(word) && is_listed(OF_TRACE, line.word(1)) {
        why.push_str("expected a world, found a trace; a world begins with pidmax");
    } else if word.eq_ignore_ascii_case(name.as_bytes()) {
        why.push_word("expected lower case: ", name.as_bytes());
    } else {
        why.push_str(words);
        put_nearest(why, word, name);
    }
}

/// Adds why a word cannot begin a program. The last argument is the program before it, if there is one, and the line of
/// its `end`.
pub fn put_no_program(why: &mut Prose, word: &[u8], behind: Option<(&[u8], u64)>) {
    let alloc = why.alloc();
    if word.eq_ignore_ascii_case(b"program") {
        why.push_str("expected lower case: program");
    } else if why.found(nearest_in(alloc, word, "program")).is_some() {
        why.push_str("did you mean program?");
    } else {
        match behind {
            None => why.push_str("expected program NAME to begin a program"),
            Some((_, end)) if word == b"end".as_slice() => {
                why.push_with("unexpected end; the program already ended in line ", end);
            }
            Some((name, _)) => why.push_around(
                "expected program NAME after the end of program ",
                name,
                "",
            ),
        }
    }
}

/// Adds why a word cannot follow the name of a program.
pub fn put_no_option(why: &mut Prose, word: &[u8]) {
    match word {
        b"setuid" => why.push_str("expected setuid before setgid"),
        b"{" => why.push_str("unexpected brace; end is the last line of a program"),
        [b'u' | b'g', b'i', b'd'] => why.push_around("did you mean set", word, "?"),
        _ => {
            why.push_str("only setuid U and setgid G can follow the name");
            put_nearest(why, word, "setuid setgid");
        }
    }
}

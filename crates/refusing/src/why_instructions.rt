//! Messages about words that are not instructions, operands or calls.

use crate::why_words::{put_no_digits, put_no_name};
use judging::{
    Line, Named, Operands, is_call, is_instruction, is_listed, is_long_name, is_number,
    is_register, label_line, lower, nearest_call, nearest_in, nearest_instruction, operands_of,
    other_call, other_instruction, program_line, upper,
};
use std::alloc::{AllocError, Global};
use text::is_name;
use wording::{Prose, meant, named};

/// Returns true if a word continues after a label, as in `loop:note`.
fn goes_on(word: &[u8]) -> bool {
    let Some(colon) = word.iter().position(|b| *b == b':') else {
        return false;
    };
    is_long_name(&word[..colon]) && matches!(&word[colon..], [_, next, ..] if *next != b':')
}

/// Adds why the first word of a line cannot begin a line within a program.
pub fn put_no_instruction(why: &mut Prose, line: Line<'_>) {
    let word = line.first();
    let small = lower(word);
    if line.word(1) == b":".as_slice() {
        why.push_around("unexpected space before the colon: ", word, ":");
    } else if let [name @ .., b':'] = word {
        put_no_name(why, name, Named::Label);
    } else if goes_on(word) {
        why.push_str("expected a new line after the label");
    } else if is_instruction(small.as_slice()) || is_listed("end program", small.as_slice()) {
        why.push_word("expected lower case: ", small.as_slice());
    } else if is_call(word) {
        why.push_word("expected sys before a system call: sys ", word);
    } else {
        why.push_str("unknown instruction");
        put_other_instruction(why, line);
    }
}

/// Adds which instruction or call to use for the first word of a line, or that a label needs a colon.
fn put_other_instruction(why: &mut Prose, line: Line<'_>) {
    let word = line.first();
    let alloc = why.alloc();
    if let Some(what) = other_instruction(word) {
        why.push_word("; use ", what.as_bytes());
    } else if let Some(what) = other_call(word) {
        why.push_word("; use sys ", what.as_bytes());
    } else if let Some(name) = why.found(nearest_first(alloc, line)) {
        why.push_around("; did you mean ", name, "?");
    } else if let Some(name) = why.found(nearest_call(alloc, word)) {
        why.push_around("; did you mean sys ", name, "?");
    } else if line.count() == 1 && is_name(word) {
        why.push_around("; a label ends with a colon: ", word, ":");
    }
}

/// Returns the nearest to the first word of a line, of instructions, `end` and, if the line has more words, `program`.
fn nearest_first(alloc: Global, line: Line<'_>) -> Result<Option<&'static [u8]>, AllocError> {
    let word = line.first();
    match nearest_instruction(alloc, word) {
        Ok(None) if line.count() > 1 => nearest_in(alloc, word, "program"),
        nearest => nearest,
    }
}

/// Adds why a word is not a register.
pub fn put_no_register(why: &mut Prose, line: Line<'_>, word: &[u8]) {
    let small = lower(word);
    if is_number(word) {
        why.push_str("expected a register, found a number; set loads a number");
        if line.first() == b"mov".as_slice() && line.word(2) == word {
            why.push_around(": set ", line.word(1), ", ");
            why.push_bytes(word);
        }
    } else if is_register(small.as_slice()) {
        why.push_word("expected lower case: ", small.as_slice());
    } else {
        why.push_str(match word {
            [] => "expected a register, r0 to r7",
            [b'[' | b'(', .., b']' | b')'] => "expected a register without brackets",
            [first, ..] if is_name(word) && *first != b'r' => {
                "expected a register, r0 to r7, found a name"
            }
            _ => "expected a register, r0 to r7",
        });
    }
}

/// Adds why a word is not a value of `set`, in the program that begins in line `program` of a text.
pub fn put_no_value(why: &mut Prose, text: &[u8], line: Line<'_>, program: u64) {
    let word = line.word(2);
    let capitals = upper(word);
    if is_register(word) {
        why.push_around(
            "expected a number, found a register; use mov ",
            line.word(1),
            ", ",
        );
        why.push_bytes(word);
    } else if is_name(word) && label_line(text, word, program).is_some() {
        why.push_word(
            "expected a number, found a label; for its address, write @",
            word,
        );
    } else if is_name(word) && program_line(text, word).is_some() {
        why.push_word(
            "expected a number, found a program; for its number, write $",
            word,
        );
    } else if named(capitals.as_slice()).is_some() {
        why.push_around("did you mean ", capitals.as_slice(), "?");
    } else if !put_no_digits(why, word) {
        why.push_str("expected a number, @LABEL or $PROGRAM");
        let name = meant(why.alloc(), capitals.as_slice());
        why.push_meant(name);
    }
}

/// Adds why a word is not the name of a call.
pub fn put_no_call(why: &mut Prose, word: &[u8]) {
    let small = lower(word);
    if word.is_empty() {
        why.push_str("expected a system call");
    } else if is_call(small.as_slice()) {
        why.push_word("expected lower case: ", small.as_slice());
    } else if let Some(what) = other_call(word) {
        why.push_word("unknown system call; use ", what.as_bytes());
    } else {
        why.push_str("unknown system call");
        let name = nearest_call(why.alloc(), word);
        why.push_meant(name);
    }
}

/// Words, besides instructions, that begin lines of worlds and events.
const FIRST_WORDS: &str = "step tick key hangup consoles program end";

/// Adds why the line must end before the word at this place.
pub fn put_too_many(why: &mut Prose, line: Line<'_>, place: usize) {
    let word = line.word(place);
    let first = line.first();
    let last = line.word(place.saturating_sub(1));
    if is_instruction(word) || is_listed(FIRST_WORDS, word) {
        return why.push_around("expected a new line before ", word, "");
    }
    match operands_of(first) {
        Some(Operands::Call) => {
            why.push_str("unexpected operand; arguments are passed in registers, from r1");
        }
        Some(Operands::Registers) => {
            why.push_around("unexpected operand; ", first, " takes two registers");
        }
        _ if is_number(word) && is_number(last) => {
            why.push_word("unexpected comma in a number: ", last);
            why.push_bytes(word);
        }
        _ => why.push_str("expected the end of the line"),
    }
}

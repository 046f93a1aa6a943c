//! Messages: why a word is rejected, and what to write.

use crate::why_events::{put_many_consoles, put_no_byte, put_no_console, put_no_event};
use crate::why_instructions::{
    put_no_call, put_no_instruction, put_no_register, put_no_value, put_too_many,
};
use crate::why_words::{
    behind_mark, put_marked_number, put_no_header, put_no_name, put_no_number, put_no_option,
    put_no_program, put_range, put_wide_value,
};
use judging::{Definition, Fault, Line, NameUse, Named, Number, Refusal, World, oddity};
use wording::Prose;

/// A rejected line, and what is known about it.
#[derive(Clone, Copy)]
pub struct Seen<'a, 'w> {
    /// The text, with numbers for its names.
    pub text: &'a [u8],
    /// The line of that text.
    pub line: &'a [u8],
    /// The line as the user wrote it.
    pub given: &'a [u8],
    /// What the world defines, if the text is a world.
    pub world: Option<&'w World<'a>>,
}

/// Adds that a number is missing.
fn put_missing(why: &mut Prose, number: Number) {
    let words = match number {
        Number::KeyConsole(_) => "expected a console and at least one byte: key 1 0A",
        Number::HangupConsole(_) => "expected a console: hangup 1",
        Number::Id => "expected an ID from ",
        Number::Pidmax | Number::Consoles | Number::Count => "expected a number from ",
    };
    put_range(why, words, number);
}

/// Adds which numbers are allowed in this place.
fn put_out_of_range(why: &mut Prose, line: Line<'_>, word: &[u8], number: Number) {
    match number {
        Number::KeyConsole(consoles) | Number::HangupConsole(consoles) => {
            put_no_console(why, line, consoles);
        }
        Number::Id => put_range(why, "expected an ID from ", number),
        Number::Pidmax | Number::Consoles => {
            why.push_bytes(line.first());
            put_range(why, " must be from ", number);
        }
        Number::Count => {
            why.push_bytes(line.first());
            put_range(why, " count must be from ", number);
            if !word.iter().all(|b| matches!(b, b'0' | b'-')) {
                why.push_str("; repeat the line for more");
            }
        }
    }
}

/// Adds that a name is defined twice.
fn put_twice(why: &mut Prose, named: Named, line: u64) {
    why.push_with("already defined in line ", line);
    why.push_str(match named {
        Named::Label => "; choose another label",
        Named::Program => "; choose another program name",
    });
}

/// Adds that a program has no `end`, and the line in which it begins.
fn put_program(why: &mut Prose, before: &str, program: Definition<'_>) {
    why.push_word(before, program.name);
    why.push_with(" (line ", program.line);
    why.push_str(") has no end");
}

/// Adds that a line has too many bytes.
fn put_long_line(why: &mut Prose, line: &[u8]) {
    why.push_with("expected at most 200 bytes, found ", line.len() as u64);
    why.push_str("; the comment counts");
}

/// Returns the message for a missing value of `set`.
fn no_value_at_all(given: &[u8]) -> &'static str {
    if given.contains(&b'#') {
        "expected a number, found a comment; # begins a comment"
    } else {
        "expected a number, @LABEL or $PROGRAM"
    }
}

/// Adds that a defined name is never used, and that another one is.
fn put_unused(why: &mut Prose, is: Definition<'_>, used: NameUse<'_>) {
    why.push_word("nothing uses ", is.name);
    why.push_with("; line ", used.line);
    why.push_word(" uses ", used.name);
}

/// Adds where other programs define a label. Returns true if one does.
fn put_elsewhere(why: &mut Prose, world: &World<'_>, name: &[u8]) -> bool {
    let mut is_there = false;
    for label in world.labels.iter().filter(|label| label.is.name == name) {
        why.push_with("; the label in line ", label.is.line);
        why.push_str(" belongs to another program");
        is_there = true;
    }
    is_there
}

/// Adds the names of all programs.
fn put_programs(why: &mut Prose, world: &World<'_>) {
    let count = world.programs.len();
    for (place, program) in world.programs.iter().enumerate() {
        let before = if place == 0 {
            "; this world defines "
        } else if place + 1 == count {
            " and "
        } else {
            ", "
        };
        why.push_word(before, program.name);
    }
}

/// Adds that a name is not defined, and which one was probably intended.
fn put_unknown(
    why: &mut Prose,
    world: &World<'_>,
    used: NameUse<'_>,
    near: Option<Definition<'_>>,
) {
    match used.named {
        Named::Label => {
            let program = match world.programs.get(used.program) {
                Some(program) => program.name,
                None => &[],
            };
            why.push_around("program ", program, " has no label ");
        }
        Named::Program => why.push_str("unknown program "),
    }
    why.push_bytes(used.name);
    match (near, used.named) {
        (Some(near), _) => {
            why.push_word("; did you mean ", near.name);
            why.push_with(" (line ", near.line);
            why.push_str(")?");
        }
        (None, Named::Label) if put_elsewhere(why, world, used.name) => {}
        (None, Named::Label) => why.push_around("; define it with the line ", used.name, ":"),
        (None, Named::Program) => put_programs(why, world),
    }
}

/// Returns the message for a fault, if it does not depend on the words.
fn words_of(fault: Fault<'_>) -> Option<&'static str> {
    match fault {
        Fault::EndNotAlone => Some("expected nothing after end"),
        Fault::LabelNotAlone => Some("expected a new line after the label"),
        Fault::ManyPrograms => Some("expected at most 32 programs"),
        Fault::ManyInstructions => Some(
            "expected at most 1,000 instructions in a program; use a loop",
        ),
        Fault::ManyEvents => Some("expected at most 1,000,000,000,000 events"),
        Fault::HeaderEnds => Some(HEADER_ENDS),
        Fault::NoPrograms => Some(NO_PROGRAMS),
        _ => None,
    }
}

const HEADER_ENDS: &str = "unexpected end of file; expected pidmax N, consoles N and a program";

const NO_PROGRAMS: &str = "expected a program after the header: program NAME, its lines, end";

/// Adds why a word is not one of those allowed in its place.
fn put_other(why: &mut Prose, seen: &Seen<'_, '_>, refusal: &Refusal<'_>) {
    let line = Line::new(seen.line);
    let word = line.word(refusal.place);
    if let Some(what) = oddity(word) {
        return why.push_str(what);
    }
    match refusal.fault {
        Fault::NoNumber(number) => put_no_number(why, word, number),
        Fault::NoHeader(number) => put_no_header(why, line, number),
        Fault::TooMany => put_too_many(why, line, refusal.place),
        Fault::NoProgram(behind) => put_no_program(why, word, behind),
        Fault::NoName(named) => put_no_name(why, word, named),
        Fault::NoOption => put_no_option(why, word),
        Fault::NoInstruction => put_no_instruction(why, line),
        Fault::NoCall => put_no_call(why, word),
        Fault::NoRegister => put_no_register(why, line, word),
        Fault::BadValue(program) => put_no_value(why, seen.text, line, program),
        Fault::NoEvent => put_no_event(why, word),
        Fault::NoByte => put_no_byte(why, word),
        Fault::ManyConsoles => put_many_consoles(why, line, word),
        _ => {}
    }
}

/// Adds why a word is rejected; nothing if that isn't known.
pub fn put_why(why: &mut Prose, seen: &Seen<'_, '_>, refusal: &Refusal<'_>) {
    if let Some(words) = words_of(refusal.fault) {
        return why.push_str(words);
    }
    let line = Line::new(seen.line);
    let word = line.word(refusal.place);
    match refusal.fault {
        Fault::Unsaid => {}
        Fault::LongLine => put_long_line(why, seen.line),
        Fault::Missing(number) => put_missing(why, number),
        Fault::OutOfRange(number) => put_out_of_range(why, line, word, number),
        Fault::Within(program) => put_program(why, "expected end first; program ", program),
        Fault::NoMarkedName(named) => put_no_name(why, behind_mark(word), named),
        Fault::Twice(named, line) => put_twice(why, named, line),
        Fault::NoValue => why.push_str(no_value_at_all(seen.given)),
        Fault::MarkedNumber => put_marked_number(why, word),
        Fault::WideValue => put_wide_value(why, word),
        Fault::ByteMissing => why.push_around(
            "expected at least one byte: key ",
            line.word(1),
            " 0A",
        ),
        Fault::ProgramEnds(program) => put_program(
            why,
            "unexpected end of file; program ",
            program,
        ),
        Fault::LabelWritten(name) => why.push_around(
            "expected a label definition; write ",
            name,
            ":",
        ),
        Fault::Unused(is, used) => put_unused(why, is, used),
        Fault::Unknown(used, near) => {
            if let Some(world) = seen.world {
                put_unknown(why, world, used, near);
            }
        }
        _ => put_other(why, seen, refusal),
    }
}

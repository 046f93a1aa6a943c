//! Errors in names, keys and texts, and their messages.

ghost use Rattle.naming.specs.Lines.{AddsMore, Extends};

use wording::{Prose, meant};

/// An error in a name, a key or a typed text.
#[derive(Clone, Copy)]
pub enum Fault<'a> {
    /// A name is missing before or after a `|`.
    Missing,
    /// This name is unknown.
    Unknown(&'a [u8]),
    /// Bytes that cannot be part of names follow these names directly.
    NoName(&'a [u8], &'a [u8]),
    /// This name in a set is not the name of a signal.
    NoSignal(&'a [u8]),
    /// Names of different kinds are combined: the first name, and the first name of another kind.
    TwoKinds(&'a [u8], &'a [u8]),
    /// Several names of a kind that cannot be combined; this is the first name.
    Alone(&'a [u8]),
    /// The `}` of a set is missing.
    OpenSet,
    /// This word begins with `^`, but is not a key.
    NoKey(&'a [u8]),
    /// A line `type` lacks its console or its quoted text.
    NoText,
    /// The closing `"` of a text is missing.
    OpenText,
    /// This letter after a `\` forms no escape; empty at the end of the line.
    NoEscape(&'a [u8]),
    /// A text is empty.
    EmptyText,
    /// A byte other than a separator or `#` follows the closing `"` of a text.
    GluedText,
    /// The line would be longer than 200 bytes with the bytes of its text.
    LongText,
}

impl Fault<'_> {
    /// Adds a line with the message, and with the number of the faulty line.
    pub fn tell(self, line: u64, told: &mut Prose)
        ensures { AddsMore told.old told.new }
    {
        told.push_with("jobk: line ", line);
        told.push_str(": ");
        self.say(told);
        told.push_str("\n");
    }

    /// Adds the message.
    fn say(self, told: &mut Prose)
        ensures { Extends told.old told.new }
    {
        match self {
            Fault::Missing => told.push_str("expected a name on each side of |"),
            Fault::Unknown(name) => {
                told.push_word("unknown name ", name);
                let near = meant(told.alloc(), name);
                told.push_meant(near);
            }
            Fault::NoName(name, more) => {
                told.push_word("unknown name ", name);
                told.push_bytes(more);
            }
            Fault::NoSignal(name) => told.push_around("expected a signal, found ", name, NO_SIGNAL),
            Fault::TwoKinds(first, name) => {
                told.push_around("cannot combine ", first, " and ");
                told.push_around("", name, "; they are different kinds of constants");
            }
            Fault::Alone(name) => told.push_around("cannot combine ", name, ALONE),
            Fault::OpenSet => told.push_str("expected } at the end of the set"),
            Fault::NoKey(key) => told.push_around("unknown key ", key, KEYS),
            Fault::NoText => told.push_str(
                "expected a console and a quoted text: type 1 \"fg\\n\"",
            ),
            Fault::OpenText => told.push_str("expected \" at the end of the text"),
            Fault::NoEscape(letter) => told.push_around("unknown escape \\", letter, ESCAPES),
            Fault::EmptyText => told.push_str("expected at least one character in the text"),
            Fault::GluedText => told.push_str(
                "expected a space after the closing \"; inside a text, write \\\"",
            ),
            Fault::LongText => told.push_str(LONG_TEXT),
        }
    }
}

const NO_SIGNAL: &str = "; a set contains only signals";

const ALONE: &str = "; only signals, options and flags can be combined";

const KEYS: &str = "; expected ^A to ^Z, ^@ ^[ ^\\ ^] ^^ ^_ or ^?";

const ESCAPES: &str = "; expected \\n \\t \\r \\\\ \\\" or a byte such as \\x1B";

const LONG_TEXT: &str =
    "text too long: each character takes 3 of the 200 bytes of a line; use several lines";

//! Patterns of words, which `jobk explore --find` looks for in the lines of a trace.

ghost use Rattle.std.specs.Prelude.{◌≡◌};
ghost use Rattle.counting.specs.Patterns.{matches_front as matches_front_of, matches_word as matches_word_of, matches_from as matches_from_of, has_pattern as has_pattern_of, is_number as is_number_of, is_number_of as is_number_of_name, kinds_of as kinds_in};

use crate::lines::shown;
use posix::{Entry, WaitCall, decimal_value};
use trace::split_word;
use wording::{Kind, number_named};

/// For lines in which no name can match a word. The longest such line has 9 words.
static WORDS: [Option<Kind>; 9] = [None; 9];

/// For lines whose third word is a signal.
static SIGNALLED: [Option<Kind>; 5] = [None, None, Some(Kind::Signal), None, None];

/// For lines whose fifth word is a result, which is the negative number of an error if the call fails.
static RESULTING: [Option<Kind>; 6] = [None, None, None, None, Some(Kind::Errno), None];

/// Returns, for each word of a line, which names can match it: those of signals, those of errors, or none.
fn kinds_of(entry: &Entry) -> &'static [Option<Kind>]
    ensures { result.now ≡ kinds_in entry.now }
{
    match entry {
        Entry::Noted { .. } | Entry::Ended { .. } => &WORDS[..3],
        Entry::Called { .. } => &RESULTING[..5],
        Entry::Moved { .. } => &WORDS[..7],
        Entry::Reported {
            call: WaitCall::Waitpid,
            ..
        } => &WORDS[..7],
        Entry::Reported { .. } | Entry::Looked { .. } => &WORDS,
        Entry::NoMemory { .. } => &RESULTING,
        Entry::Marked { .. } => &WORDS[..7],
        Entry::Handled { .. } => &SIGNALLED,
        Entry::Discarded { .. } | Entry::Stopped { .. } => &SIGNALLED[..3],
        Entry::Returned { .. } => &WORDS[..2],
        Entry::Halted => &WORDS[..1],
    }
}

/// Returns true if the decimal value of a word is the absolute value of this number.
fn is_number(word: &[u8], number: i64) -> bool
    ensures { result ≡ is_number_of word.now number }
{
    decimal_value(word) == number.unsigned_abs()
}

/// Returns true if a name matches a word: a signal its number, an error its negative number.
fn is_number_of(name: &[u8], kind: Option<Kind>, word: &[u8]) -> bool
    ensures { result ≡ is_number_of_name name.now kind word.now }
{
    match (kind, word) {
        (Some(Kind::Signal), _) => match number_named(name) {
            Some((Kind::Signal, number)) => is_number(word, number),
            _ => false,
        },
        // Few results are errors: the name is looked up only for those.
        (Some(Kind::Errno), [b'-', digits @ ..]) => match number_named(name) {
            Some((Kind::Errno, number)) => is_number(digits, number),
            _ => false,
        },
        _ => false,
    }
}

/// Returns true if a word of a pattern matches a word of a line.
fn matches_word(sought: &[u8], kind: Option<Kind>, word: &[u8]) -> bool
    ensures { result ≡ matches_word_of sought.now kind word.now }
{
    sought == b"*".as_slice() || sought == word || is_number_of(sought, kind, word)
}

/// Returns true if the words of a pattern match the first words of a line.
#[tactic(auto, unfolding(crate::specs::Patterns::matches_front))]
fn matches_front(pattern: &[u8], kinds: &[Option<Kind>], line: &[u8]) -> bool
    ensures { result ≡ matches_front_of pattern.now kinds.now line.now }
{
    if pattern.is_empty() {
        return true;
    }
    let Some((kind, kinds)) = kinds.split_first() else {
        return false;
    };
    let (sought, pattern) = split_word(pattern);
    let (word, line) = split_word(line);
    matches_word(sought, *kind, word) && matches_front(pattern, kinds, line)
}

/// Returns true if the words of a pattern match consecutive words of a line.
#[tactic(auto, unfolding(crate::specs::Patterns::matches_from))]
fn matches_from(pattern: &[u8], kinds: &[Option<Kind>], line: &[u8]) -> bool
    ensures { result ≡ matches_from_of pattern.now kinds.now line.now }
{
    if matches_front(pattern, kinds, line) {
        return true;
    }
    let Some((_, kinds)) = kinds.split_first() else {
        return false;
    };
    let (_, line) = split_word(line);
    matches_from(pattern, kinds, line)
}

/// Returns true if a line matches a pattern. The event number isn't compared, because ticks change event numbers.
#[tactic(auto, unfolding(crate::specs::Patterns::has_pattern))]
pub fn has_pattern(pattern: &str, entry: &Entry) -> bool
    ensures { result ≡ has_pattern_of pattern.now entry.now }
{
    let mut room = [0; 128];
    matches_from(pattern.as_bytes(), kinds_of(entry), shown(entry, &mut room))
}

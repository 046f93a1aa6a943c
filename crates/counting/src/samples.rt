//! Decides whether a trace line can match a pattern: the words of the pattern replace words of sample lines.

ghost use Rattle.std.specs.Prelude.{◌≡◌, ◌++◌, All, IfOk, OnOk, false, map, true};
ghost use Rattle.counting.specs.Samples.{CanBeShown, IsShownByNone, IsWithout, IsWithoutIn, filled as filled_of, with_pattern};

use crate::pattern::has_pattern;
use std::alloc::{AllocError, Global};
use trace::{read_line, split_word};
use wording::{Kind, number_named};

/// Lines of each form, without event numbers. Some words depend on each other: N bytes are shown by 2N digits. So there
/// is a sample for each N.
static SAMPLES: [&[&str]; 29] = [
    &["halt"],
    &["note", "1", "0"],
    &["call", "1", "kill", "=", "0"],
    &["call", "1", "waitpid", "=", "2", "status", "0"],
    &["call", "1", "waitid", "=", "0", "take", "2", "status", "0"],
    &["call", "1", "waitid", "=", "0", "look", "2", "status", "0"],
    &["call", "1", "subreaper", "=", "0", "mark", "1"],
    &["call", "1", "fork", "=", "-11", "memory"],
    &["handle", "1", "10", "0", "0"],
    &["discard", "1", "17"],
    &["stop", "1", "19"],
    &["return", "1"],
    &["end", "1", "0"],
    &["call", "1", "read", "=", "1", "bytes", "00"],
    &["call", "1", "read", "=", "2", "bytes", "0000"],
    &["call", "1", "read", "=", "3", "bytes", "000000"],
    &["call", "1", "read", "=", "4", "bytes", "00000000"],
    &["call", "1", "read", "=", "5", "bytes", "0000000000"],
    &["call", "1", "read", "=", "6", "bytes", "000000000000"],
    &["call", "1", "read", "=", "7", "bytes", "00000000000000"],
    &["call", "1", "read", "=", "8", "bytes", "0000000000000000"],
    &["call", "1", "read", "=", "9", "bytes", "000000000000000000"],
    &[
        "call",
        "1",
        "read",
        "=",
        "10",
        "bytes",
        "00000000000000000000",
    ],
    &[
        "call",
        "1",
        "read",
        "=",
        "11",
        "bytes",
        "0000000000000000000000",
    ],
    &[
        "call",
        "1",
        "read",
        "=",
        "12",
        "bytes",
        "000000000000000000000000",
    ],
    &[
        "call",
        "1",
        "read",
        "=",
        "13",
        "bytes",
        "00000000000000000000000000",
    ],
    &[
        "call",
        "1",
        "read",
        "=",
        "14",
        "bytes",
        "0000000000000000000000000000",
    ],
    &[
        "call",
        "1",
        "read",
        "=",
        "15",
        "bytes",
        "000000000000000000000000000000",
    ],
    &[
        "call",
        "1",
        "read",
        "=",
        "16",
        "bytes",
        "00000000000000000000000000000000",
    ],
];

/// Adds the word that replaces a word of a sample: for `*` the sample's own word, for a name its number.
fn put_word(text: &mut Vec<u8>, sought: &[u8], own: &str) -> Result<(), AllocError>
    ensures { OnOk result (text.new.items ≡ text.old.items ++ filled_of sought.now own.now) }
{
    if sought == b"*".as_slice() {
        return text.extend_from_slice(own.as_bytes());
    }
    let Some((kind, number)) = number_named(sought) else {
        return text.extend_from_slice(sought);
    };
    if matches!(kind, Kind::Errno) {
        text.push(b'-')?;
    }
    let mut digits = itoa::Buffer::new();
    text.extend_from_slice(digits.format(number).as_bytes())
}

/// Adds the words of a sample. The words of the pattern, while any are left, replace those after the first `skipped`.
#[tactic(auto, unfolding(crate::specs::Samples::with_pattern))]
fn put_words(
    text: &mut Vec<u8>,
    pattern: &[u8],
    skipped: usize,
    words: &[&str],
) -> Result<(), AllocError>
    ensures { OnOk result (text.new.items ≡ text.old.items ++ with_pattern pattern.now skipped (map (λ w. w.now) words.now)) }
{
    let Some((own, words)) = words.split_first() else {
        return Ok(());
    };
    text.push(b' ')?;
    if skipped > 0 || pattern.is_empty() {
        text.extend_from_slice(own.as_bytes())?;
        return put_words(text, pattern, skipped.saturating_sub(1), words);
    }
    let (sought, pattern) = split_word(pattern);
    put_word(text, sought, own)?;
    put_words(text, pattern, 0, words)
}

/// Returns true if a text is a line of a trace that matches a pattern.
fn is_line_with(text: &[u8], pattern: &str) -> bool
    ensures shown { result ≡ true → CanBeShown pattern.now }
    ensures without { result ≡ false → IsWithout pattern.now text.now }
{
    match read_line(text) {
        Some((_, entry)) => has_pattern(pattern, &entry),
        None => false,
    }
}

/// Returns true if the words of a pattern can replace words of a sample so that the line matches the pattern.
fn can_be_put_into(text: &mut Vec<u8>, pattern: &str, words: &[&str]) -> Result<bool, AllocError>
    ensures shown { IfOk result (λ can. can ≡ true → CanBeShown pattern.now) }
    ensures without { IfOk result (λ can. can ≡ false → IsWithoutIn pattern.now (map (λ w. w.now) words.now)) }
{
    for skipped in 0..words.len() {
        text.clear();
        text.push(b'1')?;
        put_words(text, pattern.as_bytes(), skipped, words)?;
        if is_line_with(text.as_slice(), pattern) {
            return Ok(true);
        }
    }
    Ok(false)
}

/// Returns true if one of the samples can be made to match a pattern.
fn can_be_put_into_one(
    alloc: Global,
    pattern: &str,
    samples: &[&[&str]],
) -> Result<bool, AllocError>
    ensures shown { IfOk result (λ can. can ≡ true → CanBeShown pattern.now) }
    ensures without { IfOk result (λ can. can ≡ false → All (IsWithoutIn pattern.now) (map (λ s. map (λ w. w.now) s.now) samples.now)) }
{
    let mut text = Vec::new(alloc);
    for words in samples {
        if can_be_put_into(&mut text, pattern, words)? {
            return Ok(true);
        }
    }
    Ok(false)
}

/// Returns true if a line of a trace can match a pattern. Otherwise no sample can be made to match it.
pub fn can_be_shown(alloc: Global, pattern: &str) -> Result<bool, AllocError>
    ensures shown { IfOk result (λ can. can ≡ true → CanBeShown pattern.now) }
    ensures without { IfOk result (λ can. can ≡ false → IsShownByNone pattern.now) }
{
    can_be_put_into_one(alloc, pattern, &SAMPLES)
}

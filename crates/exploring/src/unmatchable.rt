//! Whether lines can match the texts that `--find` looks for.

ghost use Rattle.std.specs.Prelude.{◌≡◌, IfOk, IfSome, None, map};
ghost use Rattle.std.specs.List.{All};
ghost use Rattle.counting.specs.Samples.{CanBeShown};
ghost use Rattle.exploring.specs.Serving.{OneIsUnmatchable};

use counting::can_be_shown;
use std::alloc::{AllocError, Global};
use text::are_digits;
use thiserror::Error;

/// Why no line can match a text.
#[derive(Clone, Copy, Debug, Error)]
pub enum Unmatchable<'a> {
    #[error("expected words without the number of the event, found `{0}`; ticks change these numbers")]
    Number(&'a str),
    #[error("expected words of a line, found `{0}`; jobk-trace(5) has the forms of lines")]
    First(&'a str),
    #[error("expected another word after `{0}`, found `{1}`; jobk-trace(5) has the forms of lines")]
    After(&'a str, &'a str),
}

/// A message quotes at most this many bytes at one place, because a reported line has at most 256 bytes.
const MOST_BYTES: usize = 40;

/// Returns the words to quote, or `..` if a message has no room for them.
fn shortened(word: &str) -> &str {
    if word.len() <= MOST_BYTES { word } else { ".." }
}

/// Returns the number at the front of a text, if a line can match the words after it.
fn number_in_front<'a>(alloc: Global, text: &'a str) -> Result<Option<&'a str>, AllocError> {
    let Some((number, words)) = text.split_once(' ') else {
        return Ok(None);
    };
    if are_digits(number.as_bytes()) && can_be_shown(alloc, words)? {
        return Ok(Some(number));
    }
    Ok(None)
}

/// Returns why no line can match a text, by its first wrong word: a line can match the words before that word.
fn why_unmatchable<'a>(alloc: Global, text: &'a str) -> Result<Unmatchable<'a>, AllocError> {
    if let Some(number) = number_in_front(alloc, text)? {
        return Ok(Unmatchable::Number(shortened(number)));
    }
    let mut rest = text;
    for _word in 0..text.len() {
        let Some((front, last)) = rest.rsplit_once(' ') else {
            break;
        };
        if can_be_shown(alloc, front)? {
            return Ok(Unmatchable::After(shortened(front), shortened(last)));
        }
        rest = front;
    }
    Ok(Unmatchable::First(shortened(rest)))
}

/// Returns the first text that no line can match, if there is one.
fn first_unmatchable<'a>(alloc: Global, texts: &[&'a str]) -> Result<Option<&'a str>, AllocError>
    ensures none { IfOk result (λ it. it ≡ None → All CanBeShown (map (λ t. t.now) texts.now)) }
    ensures some { IfOk result (λ it. IfSome it (λ t. OneIsUnmatchable (map (λ t. t.now) texts.now))) }
{
    for text in texts {
        if !can_be_shown(alloc, text)? {
            return Ok(Some(text));
        }
    }
    Ok(None)
}

/// Returns why no line can match one of the texts; `None` if a line can match each of them.
pub fn find_unmatchable<'a>(
    alloc: Global,
    texts: &[&'a str],
) -> Result<Option<Unmatchable<'a>>, AllocError>
    ensures none { IfOk result (λ it. it ≡ None → All CanBeShown (map (λ t. t.now) texts.now)) }
    ensures some { IfOk result (λ it. IfSome it (λ why. OneIsUnmatchable (map (λ t. t.now) texts.now))) }
{
    match first_unmatchable(alloc, texts)? {
        Some(text) => Ok(Some(why_unmatchable(alloc, text)?)),
        None => Ok(None),
    }
}

//! Lines of a text, and their words.

ghost use Rattle.std.specs.Prelude.{◌≡◌, ◌==◌, [], bytes_eq, length, nat_lt, option_map, unwrap_or};
ghost use Rattle.std.specs.List.{list_any, slice_get};
ghost use Rattle.judging.specs.Lines.{last_with_words as last_with_words_of, line_of};
ghost use Rattle.text.specs.Lines.{all_lines};
ghost use Rattle.text.specs.Words.{line_words, words};

use text::{Lines, Words, next_line, next_word, split_comment};

/// Returns the line with a number, from 1. Returns `None` if the text has no such line.
pub fn line_at(text: &[u8], number: u64) -> Option<&[u8]>
    ensures { option_map (λ line. line.now) result ≡ line_of number text.now }
{
    Lines(text).nth(number.saturating_sub(1) as usize)
}

/// Returns the number of the last line that has words before the line with number `before`; `None` if there is none.
pub fn last_with_words(text: &[u8], before: u64) -> Option<u64>
    ensures { result ≡ last_with_words_of before text.now }
{
    let mut found = None;
    let mut number = 0;
    let mut left = before.saturating_sub(1);
    let mut rest = text;
    while left > 0 {
        let Some((line, more)) = next_line(rest) else {
            return found;
        };
        number += 1;
        if Line::new(line).has_words() {
            found = Some(number);
        }
        rest = more;
        left -= 1;
    }
    found
}

/// Returns true if a text has exactly one line.
pub fn has_one_line(text: &[u8]) -> bool
    ensures { result ≡ (length (all_lines text.now) == 1) }
{
    Lines(text).count() == 1
}

/// A line without its comment.
#[derive(Clone, Copy)]
pub struct Line<'a> {
    code: &'a [u8],
}

impl<'a> Line<'a> {
    /// Returns the line of these bytes, without its comment.
    pub fn new(line: &'a [u8]) -> Line<'a>
        ensures { words result.code.now ≡ line_words line.now }
    {
        let (code, _) = split_comment(line);
        Line { code }
    }

    /// Returns the word at a place, from 0; an empty one if the line has fewer words.
    pub fn word(self, place: usize) -> &'a [u8]
        ensures { result.now ≡ unwrap_or (slice_get (words self.entry.code.now) place) [] }
    {
        Words(self.code).nth(place).unwrap_or(&[])
    }

    /// Returns the first word; an empty one if there is none.
    pub fn first(self) -> &'a [u8]
        ensures { result.now ≡ unwrap_or (slice_get (words self.entry.code.now) 0) [] }
    {
        self.word(0)
    }

    /// Returns the number of words.
    pub fn count(self) -> usize
        ensures { result ≡ length (words self.entry.code.now) }
    {
        Words(self.code).count()
    }

    /// Returns true if the line has words.
    pub fn has_words(self) -> bool
        ensures { result ≡ nat_lt 0 (length (words self.entry.code.now)) }
    {
        next_word(self.code).is_some()
    }
}

/// Returns true if a word is in a list of words, which are separated by spaces.
pub fn is_listed(list: &str, word: &[u8]) -> bool
    ensures { result ≡ list_any (λ listed. bytes_eq listed word.now) (words list.now) }
{
    Words(list.as_bytes()).any(|listed| listed == word)
}

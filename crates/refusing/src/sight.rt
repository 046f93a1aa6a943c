//! The line that a report shows, and the words in it that are marked.

ghost use Rattle.std.specs.Prelude.{◌≡◌, ◌≤◌, length};
ghost use Rattle.refusing.specs.Sights.{before_missing as before_missing_of, beginning_of, behind_words as behind_words_of, marked_in, missing_in, view_of, without_return as without_return_of, words_at as words_at_of, words_len as words_len_of};

use judging::Line;
use text::{next_word, skip_separators, split_comment};

/// The most bytes that are shown of a line that is too long.
const MOST_SHOWN: usize = 60;

/// Consecutive words of a line, at least one.
#[derive(Clone, Copy)]
pub struct Words {
    /// The place of the first word, from 0.
    pub first: usize,
    /// How many words follow the first.
    pub more: usize,
}

/// A line, the part of it before the marked words, and these words. `marked` is empty if a word is missing.
#[derive(Clone, Copy)]
pub struct Sight<'a> {
    pub line: &'a [u8],
    pub before: &'a [u8],
    pub marked: &'a [u8],
}

/// Returns what follows the first `count` words of a text; nothing if the text has fewer words.
fn behind_words(text: &[u8], count: usize) -> &[u8]
    ensures rest { result.now ≡ behind_words_of count text.now }
    ensures within { length result.now ≤ length text.now }
{
    let mut rest = text;
    let mut left = count;
    while left > 0 {
        match next_word(rest) {
            Some((_, _, more)) => rest = more,
            None => return &[],
        }
        left -= 1;
    }
    rest
}

/// Returns how many bytes the line has up to the end of its last word.
fn words_len(line: &[u8]) -> usize
    ensures is { result ≡ words_len_of line.now }
    ensures within { result ≤ length line.now }
{
    let (code, _) = split_comment(line);
    let count = Line::new(line).count();
    code.len() - behind_words(code, count).len()
}

/// Returns what is before a missing word: the line up to the end of its last word, and the byte after that, if there is
/// one. Returns nothing if the line has no words.
fn before_missing(line: &[u8]) -> &[u8]
    ensures { result.now ≡ before_missing_of line.now }
{
    let end = words_len(line);
    if end > 0 && end < line.len() {
        &line[..end + 1]
    } else {
        &line[..end]
    }
}

/// Returns the line without a carriage return at its end.
pub fn without_return(line: &[u8]) -> &[u8]
    ensures { result.now ≡ without_return_of line.now }
{
    match line {
        [front @ .., b'\r'] => front,
        _ => line,
    }
}

impl<'a> Sight<'a> {
    /// Returns the sight of a line in which a word is missing after the last one.
    pub fn of_missing(line: &'a [u8]) -> Sight<'a>
        ensures { view_of result ≡ missing_in line.entry.now }
    {
        Sight {
            line,
            before: before_missing(line),
            marked: &[],
        }
    }

    /// Returns the sight of some words of a line. If the first of them is missing, the mark shows that.
    pub fn of_words(line: &'a [u8], words: Words) -> Sight<'a>
        ensures { view_of result ≡ marked_in line.entry.now words }
    {
        let (code, _) = split_comment(line);
        let rest = skip_separators(behind_words(code, words.first));
        if rest.is_empty() {
            return Sight::of_missing(line);
        }
        let (before, _) = code.split_at(code.len() - rest.len());
        let after = behind_words(behind_words(rest, 1), words.more);
        let (marked, _) = rest.split_at(rest.len() - after.len());
        Sight {
            line,
            before,
            marked,
        }
    }

    /// Returns the sight of the beginning of a line that is too long to be shown whole; otherwise of its first word.
    pub fn of_beginning(line: &'a [u8]) -> Sight<'a>
        ensures { view_of result ≡ beginning_of line.entry.now }
    {
        if line.len() <= MOST_SHOWN {
            return Sight::of_words(line, Words { first: 0, more: 0 });
        }
        let (beginning, _) = line.split_at(MOST_SHOWN);
        Sight {
            line: beginning,
            before: &[],
            marked: beginning,
        }
    }
}

/// Returns the words that a user wrote for the word at this place of a line. `line` has numbers for names, and `given`
/// is as the user wrote it.
pub fn words_at(line: &[u8], given: &[u8], place: usize) -> Words
    ensures { result ≡ words_at_of line.now given.now place }
{
    let (line, given) = (Line::new(line), Line::new(given));
    let others = given.count().saturating_sub(line.count());
    let is_set = line.first() == b"set".as_slice();
    if is_set && place == 2 {
        return Words {
            first: 2,
            more: others,
        };
    }
    let first = if is_set && place > 2 {
        place.saturating_add(others)
    } else if given.first() == b"type".as_slice() && place > 2 {
        2
    } else {
        place
    };
    Words { first, more: 0 }
}

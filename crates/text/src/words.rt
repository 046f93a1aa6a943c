//! Splits texts into lines, and lines into words.

ghost use Rattle.std.specs.Prelude.{◌≡◌, ◌==◌, ◌+◌, ◌<◌, ◌≤◌, ◌++◌, ℕ, List, [], ◌∷◌, Some, Ok, Err, MatchOption, MatchResult, IfSome, IfOk, length, not};
ghost use Rattle.std.specs.List.{list_all, position_or_len};
ghost use Rattle.text.specs.Lines.{all_lines, behind_line, first_line};
ghost use Rattle.text.specs.Words.{before_comment, behind_word, first_word as first_word_of, from_word, is_name as is_name_of, is_name_byte as is_name_byte_of, is_separator as is_separator_of, words};
ghost use Rattle.text.specs.Reading.{words_within as words_within_of};
ghost use Rattle.text.specs.declared.fault.Reason.TheVariants.{UnknownWord};

use crate::fault::Reason;

/// The largest length of a line without its line feed, in bytes.
pub const MAX_LINE_LEN: usize = 200;

/// The largest length of a name, in bytes.
const MAX_NAME_LEN: usize = 16;

/// Returns the number of bytes before the first `byte`; the length of the text if there is none.
fn len_before(byte: u8, text: &[u8]) -> usize
    ensures len { result ≡ position_or_len (λ b. b == byte) text.now }
    ensures within { result ≤ length text.now }
{
    text.iter().position(|b| *b == byte).unwrap_or(text.len())
}

/// Returns the first line of a text without its line feed, and the text after that line feed; `None` if the text is
/// empty. The last line may lack its line feed.
pub fn next_line(text: &[u8]) -> Option<(&[u8], &[u8])>
    ensures lines { MatchOption result (all_lines text.now ≡ []) (λ f. all_lines text.now ≡ f.0.now ∷ all_lines f.1.now) }
    ensures first { MatchOption result (text.now ≡ []) (λ f. (first_line text.now ≡ Some f.0.now) × (f.1.now ≡ behind_line text.now)) }
    ensures shorter { IfSome result (λ f. length f.1.now < length text.now) }
{
    if text.is_empty() {
        return None;
    }
    let (line, rest) = text.split_at(len_before(b'\n', text));
    let (_, more) = rest.split_at(rest.len().min(1));
    Some((line, more))
}

/// Returns true if a byte separates words: space, tab, carriage return or comma.
pub fn is_separator(byte: u8) -> bool
    ensures { result ≡ is_separator_of byte }
{
    byte == b' ' || byte == b'\t' || byte == b'\r' || byte == b','
}

/// Returns the number of separators at the start.
fn separators_len(text: &[u8]) -> usize
    ensures len { result ≡ position_or_len (λ b. not (is_separator_of b)) text.now }
    ensures within { result ≤ length text.now }
{
    text.iter()
        .position(|b| !is_separator(*b))
        .unwrap_or(text.len())
}

/// Returns the length of the word at the start.
pub fn word_len(text: &[u8]) -> usize
    ensures len { result ≡ position_or_len is_separator_of text.now }
    ensures within { result ≤ length text.now }
{
    text.iter()
        .position(|b| is_separator(*b))
        .unwrap_or(text.len())
}

/// Splits a line into the part before its comment, and the comment, which begins with `#`.
pub fn split_comment(line: &[u8]) -> (&[u8], &[u8])
    ensures front { result.0.now ≡ before_comment line.now }
    ensures whole { line.now ≡ result.0.now ++ result.1.now }
{
    line.split_at(len_before(b'#', line))
}

/// Returns a line of at most 200 bytes without its comment. A longer line is `LineTooLong`.
pub fn words_within(line: &[u8]) -> Result<&[u8], Reason>
    ensures short { IfOk result (λ rest. length rest.now ≤ 200) }
    ensures words { MatchResult result (λ rest. words_within_of line.now ≡ Ok (words rest.now)) (λ reason. words_within_of line.now ≡ Err reason) }
{
    if line.len() > MAX_LINE_LEN {
        return Err(Reason::LineTooLong);
    }
    let (code, _) = split_comment(line);
    Ok(code)
}

/// Returns a text without the separators at its start.
pub fn skip_separators(text: &[u8]) -> &[u8]
    ensures rest { result.now ≡ from_word text.now }
    ensures within { length result.now ≤ length text.now }
{
    let (_, rest) = text.split_at(separators_len(text));
    rest
}

/// Returns the separators at the start, the word after them, and the rest; `None` if there is no word.
#[tactic(auto, using(crate::proofs::WordLemmas::word_rules))]
pub fn next_word(text: &[u8]) -> Option<(&[u8], &[u8], &[u8])>
    ensures words { MatchOption result (words text.now ≡ []) (λ f. words text.now ≡ f.1.now ∷ words f.2.now) }
    ensures first { MatchOption result (length (from_word text.now) ≡ 0) (λ f. (f.1.now ≡ first_word_of text.now) × (f.2.now ≡ behind_word text.now)) }
    ensures whole { IfSome result (λ f. text.now ≡ f.0.now ++ (f.1.now ++ f.2.now)) }
    ensures within { IfSome result (λ f. length f.0.now + length f.1.now + length f.2.now ≡ length text.now) }
    ensures shorter { IfSome result (λ f. length f.2.now < length text.now) }
{
    let (separators, rest) = text.split_at(separators_len(text));
    if rest.is_empty() {
        return None;
    }
    let (word, more) = rest.split_at(word_len(rest));
    Some((separators, word, more))
}

/// An iterator over the words of a text.
#[derive(Clone, Copy)]
pub struct Words<'a>(pub &'a [u8]);

impl<'a> Iterator for Words<'a> {
    ghost use Rattle.std.specs.Prelude.{length};
    ghost use Rattle.std.specs.Iterator.{YieldsFirstBy, at_most};
    ghost use Rattle.text.specs.Words.{words};

    type Item = &'a [u8];

    ghost next_gives = { YieldsFirstBy (λ w. w.now) (λ s. words s.0.now) };

    ghost remaining = { λ s. at_most (length s.0.now) };

    fn next(&mut self) -> Option<&'a [u8]> {
        let (_, word, rest) = next_word(self.0)?;
        self.0 = rest;
        Some(word)
    }
}

/// An iterator over the lines of a text, without their line feeds.
#[derive(Clone, Copy)]
pub struct Lines<'a>(pub &'a [u8]);

impl<'a> Iterator for Lines<'a> {
    ghost use Rattle.std.specs.Prelude.{length};
    ghost use Rattle.std.specs.Iterator.{YieldsFirstBy, at_most};
    ghost use Rattle.text.specs.Lines.{all_lines};

    type Item = &'a [u8];

    ghost next_gives = { YieldsFirstBy (λ line. line.now) (λ s. all_lines s.0.now) };

    ghost remaining = { λ s. at_most (length s.0.now) };

    fn next(&mut self) -> Option<&'a [u8]> {
        let (line, rest) = next_line(self.0)?;
        self.0 = rest;
        Some(line)
    }
}

/// Returns the first word, and the rest of the line. If there is no word, fails with `UnknownWord`.
pub fn first_word(line: &[u8]) -> Result<(&[u8], &[u8]), Reason>
    ensures within { IfOk result (λ f. length f.0.now + length f.1.now ≤ length line.now) }
    ensures words { MatchResult result (λ f. words line.now ≡ f.0.now ∷ words f.1.now) (λ reason. (words line.now ≡ []) × (reason ≡ UnknownWord)) }
{
    match next_word(line) {
        Some((_, word, rest)) => Ok((word, rest)),
        None => Err(Reason::UnknownWord),
    }
}

/// Checks that a line has no more words. Another word is `UnknownWord`.
pub fn no_more_words(line: &[u8]) -> Result<(), Reason>
    ensures { MatchResult result (λ _. words line.now ≡ []) (λ reason. (reason ≡ UnknownWord) × ((w : List ℕ) × (ws : List (List ℕ)) × (words line.now ≡ w ∷ ws))) }
{
    match next_word(line) {
        Some(_) => Err(Reason::UnknownWord),
        None => Ok(()),
    }
}

/// Returns true if a byte may occur in a name after its first byte.
pub fn is_name_byte(byte: u8) -> bool
    ensures { result ≡ is_name_byte_of byte }
{
    byte.is_ascii_lowercase() || byte.is_ascii_digit() || byte == b'_'
}

/// Returns true if all bytes may occur in a name after its first byte.
pub fn are_name_bytes(text: &[u8]) -> bool
    ensures { result ≡ list_all is_name_byte_of text.now }
{
    text.iter().all(|b| is_name_byte(*b))
}

/// Returns true if a word is a name: a letter a to z, and then at most 15 of a to z, 0 to 9 and `_`.
pub fn is_name(word: &[u8]) -> bool
    ensures { result ≡ is_name_of word.now }
{
    match word {
        [] => false,
        [first, rest @ ..] => {
            first.is_ascii_lowercase() && rest.len() < MAX_NAME_LEN && are_name_bytes(rest)
        }
    }
}

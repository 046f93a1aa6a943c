//! Lines `type C "TEXT"`.

ghost use Rattle.std.specs.Prelude.{◌≡◌, ◌++◌, ◌==◌, ◌||◌, ℕ, IfOk, IfSome, List, MatchResult, None, OnOk, Some};
ghost use Rattle.std.specs.List.{list_any};
ghost use Rattle.std.specs.Option.{is_none, option_and_then};
ghost use Rattle.naming.specs.Letters.{IsOneLineLetter, IsShorter, is_whole, letters_behind, letters_from, type_named, typed, typed_from, unescaped as byte_unescaped, with_digits};
ghost use Rattle.naming.specs.Letters.Begun.{Backslash, Nothing};
ghost use Rattle.naming.specs.Lines.{IsOneLine, IsOneLineOutcome, IsTold, said};

use crate::fault::Fault;
use crate::key_line::push_byte;
use crate::line::{Outcome, joined};
use std::alloc::{AllocError, Global};
use text::{MAX_LINE_LEN, is_separator, next_word, skip_separators};
use wording::Prose;

/// The next letter of a text.
enum Letter<'a> {
    /// A letter, and what follows it.
    Byte(u8, &'a [u8]),
    /// A letter that is written as two hexadecimal digits, and what follows it.
    Digits([u8; 2], &'a [u8]),
    /// The end of the text, and what follows it.
    End(&'a [u8]),
}

/// Returns the byte of an escape of one letter; `None` if there is no such escape.
fn unescaped(letter: u8) -> Option<u8>
    ensures { result ≡ byte_unescaped letter }
{
    match letter {
        b'n' => Some(b'\n'),
        b't' => Some(b'\t'),
        b'r' => Some(b'\r'),
        b'\\' | b'"' => Some(letter),
        _ => None,
    }
}

/// Returns the letter of an escape. `text` is what follows its `\`. Fails if the escape is unknown.
fn escaped(text: &[u8]) -> Result<Letter<'_>, Fault<'_>>
    ensures letter { (bytes : List ℕ) → MatchResult result (λ l. letters_from bytes Backslash text.now ≡ letters_behind bytes l) (λ fault. letters_from bytes Backslash text.now ≡ None) }
    ensures shorter { IfOk result (λ l. IsShorter text.now l) }
    ensures one_line { IsOneLine text.now → IfOk result IsOneLineLetter }
{
    match text {
        [b'x', high, low, rest @ ..] if high.is_ascii_hexdigit() && low.is_ascii_hexdigit() => {
            Ok(Letter::Digits([*high, *low], rest))
        }
        [letter, rest @ ..] => match unescaped(*letter) {
            Some(byte) => Ok(Letter::Byte(byte, rest)),
            None => Err(Fault::NoEscape(&text[..1])),
        },
        [] => Err(Fault::NoEscape(text)),
    }
}

/// Returns the next letter of a text, or its end. Fails if the closing `"` is missing, or an escape is unknown.
fn next_letter(text: &[u8]) -> Result<Letter<'_>, Fault<'_>>
    ensures letter { (bytes : List ℕ) → MatchResult result (λ l. letters_from bytes Nothing text.now ≡ letters_behind bytes l) (λ fault. letters_from bytes Nothing text.now ≡ None) }
    ensures shorter { IfOk result (λ l. IsShorter text.now l) }
    ensures one_line { IsOneLine text.now → IfOk result IsOneLineLetter }
{
    match text {
        [] => Err(Fault::OpenText),
        [b'"', rest @ ..] => Ok(Letter::End(rest)),
        [b'\\', rest @ ..] => escaped(rest),
        [byte, rest @ ..] => Ok(Letter::Byte(*byte, rest)),
    }
}

/// Adds a space, unless nothing is before it.
fn push_blank(bytes: &mut Vec<u8>) -> Result<(), AllocError>
    ensures items { OnOk result ((digits : List ℕ) → bytes.new.items ++ digits ≡ with_digits bytes.old.items digits) }
    ensures one_line { IsOneLine bytes.old.items → OnOk result (IsOneLine bytes.new.items) }
{
    if !bytes.is_empty() {
        bytes.push(b' ')?;
    }
    Ok(())
}

/// Adds the letters of a text as bytes, with a space between two. Returns what follows the text, or the error in it.
fn push_letters<'a>(
    bytes: &mut Vec<u8>,
    text: &'a [u8],
) -> Result<Result<&'a [u8], Fault<'a>>, AllocError>
    ensures letters { IfOk result (λ r. MatchResult r (λ rest. letters_from bytes.old.items Nothing text.entry.now ≡ Some (bytes.new.items, rest.now)) (λ fault. letters_from bytes.old.items Nothing text.entry.now ≡ None)) }
    ensures one_line { IsOneLine text.entry.now → IsOneLine bytes.old.items → IfOk result (λ r. IsOneLine bytes.new.items × IfOk r (λ rest. IsOneLine rest.now)) }
{
    let mut rest = text;
    loop {
        match next_letter(rest) {
            Ok(Letter::Byte(byte, more)) => {
                push_blank(bytes)?;
                push_byte(bytes, byte)?;
                rest = more;
            }
            Ok(Letter::Digits(digits, more)) => {
                push_blank(bytes)?;
                bytes.extend_from_slice(&digits)?;
                rest = more;
            }
            Ok(Letter::End(more)) => return Ok(Ok(more)),
            Err(fault) => return Ok(Err(fault)),
        }
    }
}

/// Returns why a text is rejected: it is empty, or a byte other than a separator or `#` follows its closing `"`. `None`
/// if it is accepted.
fn fault_of<'a>(bytes: &[u8], behind: &[u8]) -> Option<Fault<'a>>
    ensures { is_none result ≡ is_whole bytes.now behind.now }
{
    if bytes.is_empty() {
        return Some(Fault::EmptyText);
    }
    match behind {
        [byte, ..] if *byte != b'#' && !is_separator(*byte) => Some(Fault::GluedText),
        _ => None,
    }
}

/// The parts of a line `type C "TEXT"`.
#[derive(Clone, Copy)]
struct TypeLine<'a> {
    /// The part before the word `type`.
    indent: &'a [u8],
    /// The part between that word and the opening `"` of the text.
    console: &'a [u8],
    /// What follows the opening `"` of the text.
    text: &'a [u8],
}

/// Returns true if a text or a comment begins within a word.
fn has_text(word: &[u8]) -> bool
    ensures { result ≡ list_any (λ b. (b == 34) || (b == 35)) word.now }
{
    word.iter().any(|b| *b == b'"' || *b == b'#')
}

/// Returns the parts of a line `type C "TEXT"`; `None` if the line has another form.
fn parts_of(line: &[u8]) -> Option<TypeLine<'_>>
    ensures parts { typed line.now ≡ option_and_then (λ p. typed_from p.indent.now p.console.now p.text.now) result }
    ensures one_line { IsOneLine line.now → IfSome result (λ p. IsOneLine p.indent.now × IsOneLine p.console.now × IsOneLine p.text.now) }
{
    let (indent, _, behind_type) = next_word(line)?;
    let (_, console, behind) = next_word(behind_type)?;
    if has_text(console) {
        return None;
    }
    match skip_separators(behind) {
        [b'"', text @ ..] => {
            let (console, _) = behind_type.split_at(behind_type.len() - text.len() - 1);
            Some(TypeLine {
                indent,
                console,
                text,
            })
        }
        _ => None,
    }
}

/// Returns the line `key` that replaces a line `type`, or why the line is rejected.
fn key_line_of<'a>(alloc: Global, line: &'a [u8]) -> Result<Result<Vec<u8>, Fault<'a>>, AllocError>
    ensures is { IfOk result (λ r. MatchResult r (λ v. typed line.entry.now ≡ Some v.items) (λ fault. typed line.entry.now ≡ None)) }
    ensures one_line { IsOneLine line.entry.now → IfOk result (λ r. IfOk r (λ v. IsOneLine v.items)) }
{
    match parts_of(line) {
        Some(parts) => parts.key_line(alloc),
        None => Ok(Err(Fault::NoText)),
    }
}

impl<'a> TypeLine<'a> {
    /// Returns the line `key`, or why the text is rejected.
    fn key_line(self, alloc: Global) -> Result<Result<Vec<u8>, Fault<'a>>, AllocError>
        ensures is { IfOk result (λ r. MatchResult r (λ v. typed_from self.entry.indent.now self.entry.console.now self.entry.text.now ≡ Some v.items) (λ fault. typed_from self.entry.indent.now self.entry.console.now self.entry.text.now ≡ None)) }
        ensures one_line { IsOneLine self.entry.indent.now → IsOneLine self.entry.console.now → IsOneLine self.entry.text.now → IfOk result (λ r. IfOk r (λ v. IsOneLine v.items)) }
    {
        let mut bytes = Vec::new(alloc);
        let behind = match push_letters(&mut bytes, self.text)? {
            Ok(behind) => behind,
            Err(fault) => return Ok(Err(fault)),
        };
        if let Some(fault) = fault_of(bytes.as_slice(), behind) {
            return Ok(Err(fault));
        }
        let parts = [self.indent, b"key", self.console, bytes.as_slice(), behind];
        let key_line = joined(alloc, &parts)?;
        if key_line.len() > MAX_LINE_LEN {
            return Ok(Err(Fault::LongText));
        }
        Ok(Ok(key_line))
    }
}

/// Returns what replaces a line `type`, the `number`-th of its text: a line `key` with a byte for each letter.
#[tactic(auto, unfolding(crate::specs::Letters::type_named))]
pub fn type_line(
    alloc: Global,
    number: u64,
    line: &[u8],
    told: &mut Prose,
) -> Result<Outcome, AllocError>
    ensures is { IfOk result (λ o. said line.now o ≡ type_named line.now) }
    ensures told { IfOk result (λ o. IsTold o told.old told.new) }
    ensures one_line { IsOneLine line.now → IfOk result IsOneLineOutcome }
{
    match key_line_of(alloc, line)? {
        Ok(key_line) => Ok(Outcome::Named(key_line)),
        Err(fault) => {
            fault.tell(number, told);
            Ok(Outcome::Refused)
        }
    }
}

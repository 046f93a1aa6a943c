//! The sorts of lines, and the lines that replace them.

ghost use Rattle.std.specs.Prelude.{◌≡◌, All, IfOk, flat_map};
ghost use Rattle.std.specs.List.{list_any};
ghost use Rattle.text.specs.Words.{behind_word};
ghost use Rattle.naming.specs.Lines.{IsOneLine, begins_name as begins_name_of, is_plain as is_plain_of, said, sort_named as sort_named_of, sort_of as sort_of_line};
ghost use Rattle.naming.specs.Sets.{behind_second as behind_second_word};

use std::alloc::{AllocError, Global};
use text::{next_word, split_comment};

/// The sort of a line, by its first word.
#[derive(Clone, Copy)]
pub enum Sort {
    Set,
    Key,
    Typed,
    /// A line that has no names.
    Other,
}

/// The line that replaces a line.
#[derive(Drop)]
pub enum Outcome {
    /// The line itself, because it has no names.
    Same,
    /// This line, in which numbers replace names, keys or letters.
    Named(Vec<u8>),
    /// The line itself, because something in it is rejected, which is reported.
    Refused,
}

impl Outcome {
    /// Returns the line that replaces a line: the line itself, unless this is `Named`.
    pub fn text<'t>(&'t self, line: &'t [u8]) -> &'t [u8]
        ensures { result.now ≡ (said line.entry.now self.entry.now).text }
    {
        match self {
            Outcome::Named(text) => text.as_slice(),
            Outcome::Same | Outcome::Refused => line,
        }
    }
}

/// Returns the sort of a line: `Other` if nothing follows its first word, because then it has no names.
pub fn sort_of(line: &[u8]) -> Sort
    ensures { result ≡ sort_of_line line.now }
{
    match next_word(line) {
        Some((_, word, behind)) if !behind.is_empty() => sort_named(word),
        _ => Sort::Other,
    }
}

/// Returns the sort of a line with this first word.
fn sort_named(word: &[u8]) -> Sort
    ensures { result ≡ sort_named_of word.now }
{
    match word {
        b"set" => Sort::Set,
        b"key" => Sort::Key,
        b"type" => Sort::Typed,
        _ => Sort::Other,
    }
}

/// Returns true if a name, a set, a key or a text can begin with this byte.
fn begins_name(byte: u8) -> bool
    ensures { result ≡ begins_name_of byte }
{
    byte.is_ascii_uppercase() || matches!(byte, b'{' | b'^' | b'"')
}

/// Returns true if a name, a set, a key or a text can begin with one of the bytes.
fn has_beginning(code: &[u8]) -> bool
    ensures { result ≡ list_any begins_name_of code.now }
{
    code.iter().any(|b| begins_name(*b))
}

/// Returns true if no name, set, key or text can begin before the comment of a line.
pub fn is_plain(line: &[u8]) -> bool
    ensures { result ≡ is_plain_of line.now }
{
    let (code, _) = split_comment(line);
    !has_beginning(code)
}

/// Returns what follows the second word of a line; nothing if the line has fewer words.
pub fn behind_second(line: &[u8]) -> &[u8]
    ensures { result.now ≡ behind_second_word line.now }
{
    behind_first(behind_first(line))
}

/// Returns what follows the first word of a line; nothing if the line has no word.
fn behind_first(line: &[u8]) -> &[u8]
    ensures { result.now ≡ behind_word line.now }
{
    match next_word(line) {
        Some((_, _, behind)) => behind,
        None => &[],
    }
}

/// Concatenates texts.
pub fn joined(alloc: Global, texts: &[&[u8]]) -> Result<Vec<u8>, AllocError>
    ensures items { IfOk result (λ v. v.items ≡ flat_map (λ t. t.now) texts.now) }
    ensures one_line { All (λ t. IsOneLine t.now) texts.now → IfOk result (λ v. IsOneLine v.items) }
{
    let mut all = Vec::new(alloc);
    for text in texts {
        all.extend_from_slice(text)?;
    }
    Ok(all)
}

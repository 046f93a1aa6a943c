//! Lines `set rA, NAMES`.

ghost use Rattle.std.specs.Prelude.{◌≡◌, ◌≢◌, ◌-◌, ◌<◌, ◌≤◌, ◌==◌, ◌++◌, ℕ, IfOk, IfSome, List, MatchResult, None, OnOk, Some, get_or, length, not};
ghost use Rattle.std.specs.Fmt.{signed_decimal};
ghost use Rattle.std.specs.List.{position, position_or_len};
ghost use Rattle.naming.specs.Lines.{IsOneLine, IsOneLineOutcome, IsTold, renamed_as, said};
ghost use Rattle.naming.specs.Sets.{form_of as form_by, in_braces, is_blank as is_blank_byte, is_ended as are_ended, is_in_names as is_in_names_of, number_before as number_of_names, of_names, set_named, trimmed, with_byte, with_number as number_put, within, without_blanks as closed_up};
ghost use Rattle.naming.specs.declared.number.Form.TheVariants.{Set};

use crate::fault::Fault;
use crate::line::{Outcome, behind_second, joined};
use crate::number::{Form, number_of};
use itoa::Buffer;
use std::alloc::{AllocError, Global};
use text::{is_separator, skip_separators, split_comment, word_len};
use wording::Prose;

/// Returns true if a byte is a space or a tab.
fn is_blank(byte: u8) -> bool
    ensures { result ≡ is_blank_byte byte }
{
    byte == b' ' || byte == b'\t'
}

/// Returns true if a text ends with a blank.
fn ends_blank(text: &[u8]) -> bool
    ensures { result ≡ is_blank_byte (get_or text.now (length text.now - 1) 0) }
{
    match text {
        [.., byte] => is_blank(*byte),
        [] => false,
    }
}

/// Returns true if a text ends with a `|`.
fn ends_joined(text: &[u8]) -> bool
    ensures { result ≡ (get_or text.now (length text.now - 1) 0 == 124) }
{
    match text {
        [.., byte] => *byte == b'|',
        [] => false,
    }
}

/// Removes the blanks at the end.
fn trim_blanks(text: &mut Vec<u8>)
    ensures items { text.new.items ≡ trimmed text.old.items }
    ensures one_line { IsOneLine text.old.items → IsOneLine text.new.items }
{
    while ends_blank(text.as_slice()) {
        text.pop();
    }
}

/// Adds a byte, unless it is a blank after a `|`. A `|` first removes the blanks before it.
fn push_joined(text: &mut Vec<u8>, byte: u8) -> Result<(), AllocError>
    ensures items { OnOk result (text.new.items ≡ with_byte text.old.items byte) }
    ensures one_line { IsOneLine text.old.items → byte ≢ 10 → OnOk result (IsOneLine text.new.items) }
{
    if byte == b'|' {
        trim_blanks(text);
    } else if is_blank(byte) && ends_joined(text.as_slice()) {
        return Ok(());
    }
    text.push(byte)?;
    Ok(())
}

/// Returns a text without the blanks around each `|`.
fn without_blanks(alloc: Global, text: &[u8]) -> Result<Vec<u8>, AllocError>
    ensures items { IfOk result (λ v. v.items ≡ closed_up text.now) }
    ensures one_line { IsOneLine text.now → IfOk result (λ v. IsOneLine v.items) }
{
    let mut all = Vec::new(alloc);
    for byte in text {
        push_joined(&mut all, *byte)?;
    }
    Ok(all)
}

/// Returns true if a byte can be part of names outside braces.
fn is_in_names(byte: u8) -> bool
    ensures { result ≡ is_in_names_of byte }
{
    byte.is_ascii_uppercase() || byte.is_ascii_digit() || matches!(byte, b'_' | b'|' | b'+')
}

/// Returns how many bytes at the start of a text can be part of names outside braces.
fn names_len(text: &[u8]) -> usize
    ensures len { result ≡ position_or_len (λ b. not (is_in_names_of b)) text.now }
    ensures within { result ≤ length text.now }
{
    text.iter()
        .position(|b| !is_in_names(*b))
        .unwrap_or(text.len())
}

/// Returns the index of the `}` that ends a set.
fn end_of_set(text: &[u8]) -> Option<usize>
    ensures end { result ≡ position (λ b. b == 125) text.now }
    ensures within { IfSome result (λ end. end < length text.now) }
{
    text.iter().position(|b| *b == b'}')
}

/// Returns true if nothing, or a separator of words, follows the names.
fn is_ended(behind: &[u8]) -> bool
    ensures { result ≡ are_ended behind.now }
{
    match behind {
        [byte, ..] => is_separator(*byte),
        [] => true,
    }
}

/// Returns the number of the names. Fails if a name is rejected, or if another byte than a separator follows the names.
fn number_before<'a>(form: Form, names: &'a [u8], behind: &'a [u8]) -> Result<i64, Fault<'a>>
    ensures { MatchResult result (λ number. number_of_names form names.entry.now behind.entry.now ≡ Some number) (λ fault. number_of_names form names.entry.now behind.entry.now ≡ None) }
{
    if !is_ended(behind) {
        let (more, _) = behind.split_at(word_len(behind));
        return Err(Fault::NoName(names, more));
    }
    match form {
        Form::Joined => number_of(form, names),
        Form::Set => number_of(form, inside(names)),
    }
}

/// Returns the names between braces.
fn inside(names: &[u8]) -> &[u8]
    ensures { result.now ≡ within Set names.now }
{
    match names {
        [_, signals @ .., _] => signals,
        _ => &[],
    }
}

/// The parts of a line that stay: the part before the names, and the comment.
#[derive(Clone, Copy)]
struct Around<'a> {
    before: &'a [u8],
    comment: &'a [u8],
}

impl Around<'_> {
    /// Returns the line with a number in place of the names, before the part between the names and the comment.
    fn with_number(self, alloc: Global, number: i64, behind: &[u8]) -> Result<Vec<u8>, AllocError>
        ensures items { IfOk result (λ v. v.items ≡ self.entry.before.now ++ (signed_decimal number ++ (behind.now ++ self.entry.comment.now))) }
        ensures one_line { IsOneLine self.entry.before.now → IsOneLine self.entry.comment.now → IsOneLine behind.now → IfOk result (λ v. IsOneLine v.items) }
    {
        let mut buffer = Buffer::new();
        let digits = buffer.format(number).as_bytes();
        joined(alloc, &[self.before, digits, behind, self.comment])
    }

    /// Returns what replaces the line: the line with the number of its names, unless a name is rejected.
    fn with_names(
        self,
        alloc: Global,
        line: u64,
        form: Form,
        operand: &[u8],
        len: usize,
        told: &mut Prose,
    ) -> Result<Outcome, AllocError>
        requires { len ≤ length operand.now }
        ensures is { IfOk result (λ o. (line : List ℕ) → said line o ≡ renamed_as line (number_put self.entry.before.now self.entry.comment.now form operand.now len)) }
        ensures told { IfOk result (λ o. IsTold o told.old told.new) }
        ensures one_line { IsOneLine self.entry.before.now → IsOneLine self.entry.comment.now → IsOneLine operand.now → IfOk result IsOneLineOutcome }
    {
        let (names, behind) = operand.split_at(len);
        match number_before(form, names, behind) {
            Ok(number) => Ok(Outcome::Named(self.with_number(alloc, number, behind)?)),
            Err(fault) => {
                fault.tell(line, told);
                Ok(Outcome::Refused)
            }
        }
    }
}

/// Returns what replaces a line `set`, the `number`-th of its text: the line with a number in place of its names.
#[tactic(auto, unfolding(crate::specs::Sets::set_named))]
pub fn set_line(
    alloc: Global,
    number: u64,
    line: &[u8],
    told: &mut Prose,
) -> Result<Outcome, AllocError>
    ensures is { IfOk result (λ o. said line.now o ≡ set_named line.now) }
    ensures told { IfOk result (λ o. IsTold o told.old told.new) }
    ensures one_line { IsOneLine line.now → IfOk result IsOneLineOutcome }
{
    let (code, comment) = split_comment(line);
    let operand = skip_separators(behind_second(code));
    let (before, _) = code.split_at(code.len() - operand.len());
    let around = Around { before, comment };
    match form_of(operand) {
        Some(Form::Set) => set_in_braces(alloc, number, around, operand, told),
        Some(Form::Joined) => set_of_names(alloc, number, around, operand, told),
        None => Ok(Outcome::Same),
    }
}

/// Returns the form of names, by their first byte; `None` if no names begin with that byte.
fn form_of(operand: &[u8]) -> Option<Form>
    ensures { result ≡ form_by operand.now }
{
    match operand {
        [b'{', ..] => Some(Form::Set),
        [b'A'..=b'Z', ..] => Some(Form::Joined),
        _ => None,
    }
}

/// Returns what replaces the line of a set in braces.
fn set_in_braces(
    alloc: Global,
    number: u64,
    around: Around<'_>,
    operand: &[u8],
    told: &mut Prose,
) -> Result<Outcome, AllocError>
    ensures is { IfOk result (λ o. (line : List ℕ) → said line o ≡ renamed_as line (in_braces around.entry.before.now around.entry.comment.now operand.now)) }
    ensures told { IfOk result (λ o. IsTold o told.old told.new) }
    ensures one_line { IsOneLine around.entry.before.now → IsOneLine around.entry.comment.now → IsOneLine operand.now → IfOk result IsOneLineOutcome }
{
    match end_of_set(operand) {
        Some(end) => around.with_names(alloc, number, Form::Set, operand, end + 1, told),
        None => {
            Fault::OpenSet.tell(number, told);
            Ok(Outcome::Refused)
        }
    }
}

/// Returns what replaces the line of one name, or of several that are joined.
fn set_of_names(
    alloc: Global,
    number: u64,
    around: Around<'_>,
    operand: &[u8],
    told: &mut Prose,
) -> Result<Outcome, AllocError>
    ensures is { IfOk result (λ o. (line : List ℕ) → said line o ≡ renamed_as line (of_names around.entry.before.now around.entry.comment.now operand.now)) }
    ensures told { IfOk result (λ o. IsTold o told.old told.new) }
    ensures one_line { IsOneLine around.entry.before.now → IsOneLine around.entry.comment.now → IsOneLine operand.now → IfOk result IsOneLineOutcome }
{
    let close = without_blanks(alloc, operand)?;
    let names = close.as_slice();
    let len = names_len(names);
    around.with_names(alloc, number, Form::Joined, names, len, told)
}

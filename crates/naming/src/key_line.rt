//! Lines `key C ^Z ..`.

ghost use Rattle.std.specs.Prelude.{◌≡◌, ◌<◌, ◌++◌, IfOk, OnOk, true};
ghost use Rattle.std.specs.Fmt.{digit_glyph};
ghost use Rattle.text.specs.Numbers.{two_digits};
ghost use Rattle.naming.specs.Keys.{control as control_of, is_no_key, key_named, keys_named};
ghost use Rattle.naming.specs.Lines.{IsOneLine, IsToldIf};

use crate::fault::Fault;
use crate::line::behind_second;
use std::alloc::{AllocError, Global};
use text::{next_word, split_comment};
use wording::Prose;

/// Returns the byte of a key pressed with Ctrl, such as `^C`; `None` if the word is no such key.
fn control(key: &[u8]) -> Option<u8>
    ensures { result ≡ control_of key.now }
{
    let [b'^', byte] = key else {
        return None;
    };
    match byte.to_ascii_uppercase() {
        b'?' => Some(0x7F),
        capital @ b'@'..=b'_' => Some(capital - b'@'),
        _ => None,
    }
}

/// Returns the hexadecimal digit of a number below 16.
fn digit(number: u8) -> u8
    requires { number < 16 }
    ensures { result ≡ digit_glyph true number }
{
    if number < 10 {
        b'0' + number
    } else {
        b'A' + (number - 10)
    }
}

/// Adds a byte as two hexadecimal digits.
pub fn push_byte(text: &mut Vec<u8>, byte: u8) -> Result<(), AllocError>
    ensures { OnOk result (text.new.items ≡ text.old.items ++ two_digits byte) }
{
    text.push(digit(byte / 16))?;
    text.push(digit(byte % 16))?;
    Ok(())
}

/// Adds a word, or its byte if the word is a key. Reports a word that begins with `^` but is not a key.
#[tactic(auto, unfolding(crate::specs::Keys::is_no_key, crate::specs::Keys::key_named))]
fn push_word(
    text: &mut Vec<u8>,
    number: u64,
    word: &[u8],
    told: &mut Prose,
) -> Result<(), AllocError>
    ensures items { OnOk result (text.new.items ≡ text.old.items ++ key_named word.now) }
    ensures one_line { IsOneLine text.old.items → IsOneLine word.now → OnOk result (IsOneLine text.new.items) }
    ensures told { IsToldIf (is_no_key word.now) told.old told.new }
{
    match control(word) {
        Some(byte) => push_byte(text, byte),
        None => {
            if let [b'^', ..] = word {
                Fault::NoKey(word).tell(number, told);
            }
            text.extend_from_slice(word)
        }
    }
}

/// Returns what replaces a line `key`, the `number`-th of its text: the line with a byte in place of each key. A word
/// that begins with `^` but is not a key stays, and is reported.
pub fn key_line(
    alloc: Global,
    number: u64,
    line: &[u8],
    told: &mut Prose,
) -> Result<Vec<u8>, AllocError>
    ensures items { IfOk result (λ v. v.items ≡ (keys_named line.now).text) }
    ensures one_line { IsOneLine line.now → IfOk result (λ v. IsOneLine v.items) }
    ensures told { OnOk result (IsToldIf (keys_named line.now).is_refused told.old told.new) }
{
    let (code, comment) = split_comment(line);
    let keys = behind_second(code);
    let (front, _) = code.split_at(code.len() - keys.len());
    let mut text = Vec::new(alloc);
    text.extend_from_slice(front)?;
    let mut rest = keys;
    while let Some((separators, word, more)) = next_word(rest) {
        text.extend_from_slice(separators)?;
        push_word(&mut text, number, word, told)?;
        rest = more;
    }
    text.extend_from_slice(rest)?;
    text.extend_from_slice(comment)?;
    Ok(text)
}

//! Words of a line, and their values if they were printed. For any other word, the value is only a guess.

ghost use Rattle.std.specs.Prelude.{◌≡◌, ◌==◌};
ghost use Rattle.std.specs.List.{position};
ghost use Rattle.trace.specs.Words.{behind as behind_of, bytes_in as bytes_in_of, integer as integer_of, pid_in as pid_in_of, sig_in as sig_in_of, status_in as status_in_of, word};

use hex::decode_to_slice;
use posix::{Bytes, Pid, Sig, Status, decimal_value};

/// Returns the index of the first space, if any.
fn first_space(text: &[u8]) -> Option<usize>
    ensures { result ≡ position (λ b. b == 32) text.now }
{
    text.iter().position(|b| *b == b' ')
}

/// Returns the first word, and what follows the space after it.
#[tactic(auto, using(crate::proofs::WordLemmas::space_rules))]
pub fn split_word(text: &[u8]) -> (&[u8], &[u8])
    ensures first { result.0.now ≡ word text.now }
    ensures rest { result.1.now ≡ behind_of text.now }
{
    match first_space(text) {
        Some(at) => (&text[..at], &text[at + 1..]),
        None => (text, &[]),
    }
}

/// Returns the number that decimal digits denote, negated after a `-`; `None` if it is not an i64.
#[tactic(auto, unfolding(crate::specs::Words::integer))]
pub fn integer(word: &[u8]) -> Option<i64>
    ensures { result ≡ integer_of word.now }
{
    match word {
        [b'-', digits @ ..] => i64::try_from(-i128::from(decimal_value(digits))).ok(),
        _ => i64::try_from(decimal_value(word)).ok(),
    }
}

/// Returns a process ID, or 0; `None` if the number is too large.
#[tactic(auto, unfolding(crate::specs::Words::pid_in))]
pub fn pid_in(word: &[u8]) -> Option<Pid>
    ensures { result ≡ pid_in_of word.now }
{
    Pid::new(u32::try_from(decimal_value(word)).ok()?)
}

/// Returns the signal with a number; `None` if no signal has it.
#[tactic(auto, unfolding(crate::specs::Words::sig_in))]
pub fn sig_in(word: &[u8]) -> Option<Sig>
    ensures { result ≡ sig_in_of word.now }
{
    Sig::new(u8::try_from(decimal_value(word)).ok()?)
}

/// Returns the wait status with a number; `None` above 65,535.
#[tactic(auto, unfolding(crate::specs::Words::status_in))]
pub fn status_in(word: &[u8]) -> Option<Status>
    ensures { result ≡ status_in_of word.now }
{
    Some(Status::from_word(u16::try_from(decimal_value(word)).ok()?))
}

/// Returns the bytes of hexadecimal digits, two per byte and at most 16 bytes; `None` for any other word.
#[tactic(auto, unfolding(crate::specs::Words::bytes_in))]
pub fn bytes_in(word: &[u8]) -> Option<Bytes>
    ensures { result ≡ bytes_in_of word.now }
{
    let mut room = [0; 16];
    let bytes = room.get_mut(..word.len() / 2)?;
    decode_to_slice(word, bytes).ok()?;
    Some(Bytes::new(bytes))
}

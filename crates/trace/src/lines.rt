//! The lines of a text.

ghost use Rattle.std.specs.Prelude.{◌≡◌, ◌<◌, length, true, MatchOption, IfSome};
ghost use Rattle.trace.specs.Lines.{IsCut, is_one_line};

use memchr::memchr;

/// Returns the first line of a text, without its line feed, and what follows that; `None` if there is no line feed.
pub fn next_line(text: &[u8]) -> Option<(&[u8], &[u8])>
    ensures cut { MatchOption result (is_one_line text.now ≡ true) (λ f. IsCut text.now f.0.now f.1.now) }
    ensures less { IfSome result (λ f. length f.1.now < length text.now) }
{
    let end = memchr(b'\n', text)?;
    Some((&text[..end], &text[end + 1..]))
}

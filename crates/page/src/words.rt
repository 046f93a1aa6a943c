//! The arguments of a command line, in the form in which the page passes them.

ghost use Rattle.std.specs.Prelude.{◌≡◌, ◌≢◌, ◌<◌, [], IfErr, IfOk, MatchResult, OnErr, Some, length, map};
ghost use Rattle.page.specs.Words.{IsNoText, with_word, words_of};

use inputs::WordsFault;
use memchr::memchr;
use std::alloc::Global;

/// Returns the first word of a text, and what follows its zero byte. Fails if there is no zero byte, or the word is not
/// UTF-8.
fn first_word(text: &[u8]) -> Result<(&str, &[u8]), WordsFault>
    ensures ok { IfOk result (λ cut. words_of text.now ≡ with_word cut.0.now (words_of cut.1.now)) }
    ensures less { IfOk result (λ cut. length cut.1.now < length text.now) }
    ensures err { OnErr result (text.now ≢ [] → IsNoText text.now) }
    ensures fault { IfErr result (λ fault. fault ≡ WordsFault.NotText) }
{
    let Some(end) = memchr(0, text) else {
        return Err(WordsFault::NotText);
    };
    match str::from_utf8(&text[..end]) {
        Ok(word) => Ok((word, &text[end + 1..])),
        Err(_) => Err(WordsFault::NotText),
    }
}

/// Returns the words of a text. Fails if a word has no zero byte or is not UTF-8, or if there is no memory for the
/// list.
pub fn words_in(alloc: Global, text: &[u8]) -> Result<Vec<&str>, WordsFault>
    ensures { MatchResult result (λ words. words_of text.now ≡ Some (map (λ w. w.now) words.items)) (λ fault. fault ≡ WordsFault.NotText → IsNoText text.now) }
{
    let mut words = Vec::new(alloc);
    let mut rest = text;
    while !rest.is_empty() {
        let (word, more) = first_word(rest)?;
        words.push(word).map_err(|_| WordsFault::Memory)?;
        rest = more;
    }
    Ok(words)
}

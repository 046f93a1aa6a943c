//! Reading a line of a trace, by a guess that is printed and compared.

ghost use Rattle.std.specs.Prelude.{◌≡◌, ◌↔◌, ◌++◌, ◌∷◌, [], true, IfSome, IfNone};
ghost use Rattle.posix.specs.Common.{Line, line, printed};
ghost use Rattle.laws.specs.TraceLines.{Says};

use crate::forms::is_line;
use crate::guesses::guess;
use crate::print_entry;
use posix::Entry;

/// The maximum number of bytes of a line, without its line feed.
const MAX_LEN: usize = 127;

/// Returns true if a text is a line as it is printed, without its line feed.
#[tactic(auto, using(crate::proofs::ReadingLemmas::compared))]
fn is_printed(text: &[u8], event: u64, entry: &Entry) -> bool
    ensures { (result ≡ true) ↔ (text.now ++ 10 ∷ [] ≡ printed event entry.now) }
{
    let line = print_entry(event, entry);
    match line.as_slice() {
        [printed @ .., b'\n'] => printed == text,
        _ => false,
    }
}

/// Returns the event number, 1 to 1,000,000,000,000, and the entry of a trace line, without its line feed. Returns
/// `None` if the text is not a line of one of the forms, exactly as it is printed. A text of more than 127 bytes is
/// not a line, and is not scanned.
pub fn read_line(text: &[u8]) -> Option<(u64, Entry)>
    ensures some { IfSome result (λ l. Says text.now (line l.0 l.1)) }
    ensures none { IfNone result ((l : Line) → Says text.now l → ⊥) }
{
    if text.len() > MAX_LEN {
        return None;
    }
    let (event, entry) = guess(text)?;
    if is_line(event, entry) && is_printed(text, event, &entry) {
        Some((event, entry))
    } else {
        None
    }
}

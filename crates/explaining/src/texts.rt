//! Explains the lines of a trace: the meaning of their numbers.

ghost use Rattle.showing.specs.Explanations.{Explains};

use crate::known::Known;
use crate::meaning::put_meaning;
use inputs::FileFailure;
use showing::{Explain, explain_text};
use std::alloc::{AllocError, Global};
use trace::{Sink, read_line};
use wording::Prose;

impl Explain for Known {
    fn explain(&mut self, line: &[u8], words: &mut Prose) -> Result<(), AllocError> {
        match read_line(line) {
            Some((_, entry)) => put_meaning(words, self, &entry),
            None => Ok(()),
        }
    }
}

/// Puts a trace. After each line it puts the meaning of the line's numbers, if it is more than the line shows. A line
/// that is not a trace line is put unchanged.
///
/// On failure, only a beginning of such a text was put.
pub fn explain_trace<'a, O: Sink>(
    alloc: Global,
    trace: &[u8],
    out: &mut O,
) -> Result<(), FileFailure<'a>>
    ensures { Explains (O.seen out.old) (O.seen out.new) trace.now result }
{
    let mut known = Known::new(alloc)?;
    explain_text(alloc, &mut known, trace, out)
}

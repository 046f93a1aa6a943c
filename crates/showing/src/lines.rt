//! Puts a trace, with an explanation after each line that has one.

ghost use Rattle.std.specs.Prelude.{◌≡◌, ℕ, ◌++◌, List, [], true, IfErr, OnErr, OnOk};
ghost use Rattle.trace.specs.Sinks.{BreaksOff, Gathers};
ghost use Rattle.trace.specs.Lines.{is_one_line};
ghost use Rattle.showing.specs.Explanations.{Explains, Stops, behind, told_line};

use inputs::{FileFailure, put_both};
use std::alloc::{AllocError, Global};
use trace::{Sink, SinkFault, next_line, put_all};
use wording::Prose;

/// An explainer of the lines of a trace. It gets each line once, in the order of the trace.
pub trait Explain {
    /// Writes the explanation of a line. `words` is empty before the call, and stays empty if there is no explanation.
    fn explain(&mut self, line: &[u8], words: &mut Prose) -> Result<(), AllocError>;
}

/// The lowest number of bytes that are put at once, except at the end. A put may be a system call, which costs more
/// than formatting a line.
pub const PIECE: usize = 8192;

/// Appends an explanation to the buffer, after three spaces. Appends nothing if there are no words.
fn write_words(waiting: &mut Vec<u8>, words: &[u8]) -> Result<(), AllocError>
    ensures { OnOk result (waiting.new.items ≡ waiting.old.items ++ behind words.now) }
{
    if words.is_empty() {
        return Ok(());
    }
    waiting.extend_from_slice(b"   ")?;
    waiting.extend_from_slice(words)
}

/// Appends a line and its explanation to the buffer.
fn write_line(waiting: &mut Vec<u8>, line: &[u8], words: &[u8]) -> Result<(), AllocError>
    ensures { OnOk result (waiting.new.items ≡ waiting.old.items ++ told_line line.now words.now) }
{
    waiting.extend_from_slice(line)?;
    write_words(waiting, words)?;
    waiting.extend_from_slice(b"\n")
}

/// Puts and clears the buffer if it holds 8 KiB or more.
fn put_if_full<O: Sink>(waiting: &mut Vec<u8>, out: &mut O) -> Result<(), SinkFault>
    ensures ok { OnOk result (Gathers (O.seen out.old) waiting.old.items (O.seen out.new) waiting.new.items []) }
    ensures err { OnErr result (BreaksOff (O.seen out.old) (O.seen out.new) waiting.old.items) }
{
    if waiting.len() < PIECE {
        return Ok(());
    }
    put_all(out, waiting.as_slice())?;
    waiting.clear();
    Ok(())
}

/// Appends a line and its explanation to the buffer. Then puts and clears the buffer if it holds 8 KiB or more.
fn tell_line<'a, O: Sink>(
    waiting: &mut Vec<u8>,
    line: &[u8],
    words: &[u8],
    out: &mut O,
) -> Result<(), FileFailure<'a>>
    ensures ok { OnOk result (Gathers (O.seen out.old) waiting.old.items (O.seen out.new) waiting.new.items (told_line line.now words.now)) }
    ensures err { IfErr result (λ why. Stops why out.old out.new (O.seen out.old) (O.seen out.new) (waiting.old.items ++ told_line line.now words.now)) }
{
    write_line(waiting, line, words)?;
    put_if_full(waiting, out)?;
    Ok(())
}

/// Returns the words, or no words if they contain a line feed: an explanation must not add a line to the trace.
fn one_line(words: &[u8]) -> &[u8]
    ensures { is_one_line result.now ≡ true }
{
    match next_line(words) {
        Some(_) => &[],
        None => words,
    }
}

/// Explains a line, and appends both to the buffer, which is put and cleared if it holds 8 KiB or more.
fn explain_line<'a, X: Explain, O: Sink>(
    explainer: &mut X,
    words: &mut Prose,
    waiting: &mut Vec<u8>,
    line: &[u8],
    out: &mut O,
) -> Result<(), FileFailure<'a>>
    ensures ok { OnOk result ((said : List ℕ) × (is_one_line said ≡ true) × Gathers (O.seen out.old) waiting.old.items (O.seen out.new) waiting.new.items (told_line line.now said)) }
    ensures err { IfErr result (λ why. (said : List ℕ) × (is_one_line said ≡ true) × Stops why out.old out.new (O.seen out.old) (O.seen out.new) (waiting.old.items ++ told_line line.now said)) }
{
    words.clear();
    explainer.explain(line, words)?;
    let said = words.as_bytes()?;
    tell_line(waiting, line, one_line(said), out)
}

/// Puts a trace. The explanation of a line follows the line after three spaces. A line without an explanation is put
/// unchanged. What follows the last line feed is also put unchanged, because it may be the beginning of a longer line.
///
/// On failure, only a beginning of such a text was put.
pub fn explain_text<'a, X: Explain, O: Sink>(
    alloc: Global,
    explainer: &mut X,
    trace: &[u8],
    out: &mut O,
) -> Result<(), FileFailure<'a>>
    ensures { Explains (O.seen out.old) (O.seen out.new) trace.now result }
{
    let mut words = Prose::new(alloc);
    let mut waiting = Vec::new(alloc);
    let mut rest = trace;
    while let Some((line, more)) = next_line(rest) {
        explain_line(explainer, &mut words, &mut waiting, line, out)?;
        rest = more;
    }
    put_both(out, waiting.as_slice(), rest)?;
    Ok(())
}

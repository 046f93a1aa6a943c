//! The commands `explain` and `lanes`: their output and exit statuses.

ghost use Rattle.std.specs.Prelude.{◌≡◌, ◌≤◌, IfOk, IfErr, Some, map};
ghost use Rattle.explaining.specs.Drawings.{Draws, FileIsTraceUpTo, IsCutOff, MeansOfDrawing, drawing_asked, status_of_drawing};
ghost use Rattle.explaining.specs.Serving.{Means, answer_of};
ghost use Rattle.explaining.specs.Words.{OfTrace, asked_in_words, said};

use crate::drawing::draw_trace;
use crate::texts::explain_trace;
use crate::words::{Asked, request, requested};
use inputs::{FileFailure, ReadFiles, tell};
use showing::serve_beside;
use std::alloc::Global;
use trace::Sink;

/// Explains the trace in a file.
fn explain_file<'a, F: ReadFiles, O: Sink>(
    alloc: Global,
    files: &F,
    name: &'a str,
    out: &mut O,
) -> Result<(), FileFailure<'a>>
    ensures { Means (F.contents files.now) (Some (OfTrace name.entry.now)) out.old out.new (O.seen out.old) (O.seen out.new) (answer_of result) }
{
    let trace = files.read_file(name).map_err(FileFailure::Unread)?;
    explain_trace(alloc, trace.as_slice(), out)
}

/// Returns the exit status, and reports a failure.
fn told<E: Sink>(done: Result<(), FileFailure<'_>>, err: &mut E) -> u8
    ensures most { result ≤ 3 }
    ensures is { result ≡ answer_of done.entry }
{
    match done {
        Ok(()) => 0,
        Err(failure) => failure.end(b"usage: jobk explain TRACE [WORLD EVENTS]\n", err),
    }
}

/// Serves a request, and returns the exit status.
fn serve_asked<'a, F: ReadFiles, O: Sink, E: Sink>(
    alloc: Global,
    asked: Asked<'a>,
    files: &F,
    out: &mut O,
    err: &mut E,
) -> u8
    ensures most { result ≤ 3 }
    ensures meaning { Means (F.contents files.now) (Some (said asked.entry)) out.old out.new (O.seen out.old) (O.seen out.new) result }
{
    match asked {
        Asked::Trace(name) => told(explain_file(alloc, files, name, out), err),
        Asked::Beside(named) => serve_beside(alloc, named, files, out, err),
    }
}

/// Runs `explain` with these arguments, without the program's name. Explains a trace, or compares it with a run of a
/// world as [`serve_beside`] does.
///
/// Returns the exit status: 0 on success, 1 if the traces differ or an input is rejected, 2 for a usage error, 3 if a
/// file cannot be read, `out` fails or memory runs out. A failure of `err` does not change the status.
pub fn serve_explain<'a, F: ReadFiles, O: Sink, E: Sink>(
    alloc: Global,
    words: &'a [&'a str],
    files: &F,
    out: &mut O,
    err: &mut E,
) -> u8
    ensures most { result ≤ 3 }
    ensures meaning { Means (F.contents files.now) (asked_in_words (map (λ w. w.now) words.entry.now)) out.old out.new (O.seen out.old) (O.seen out.new) result }
{
    match request(alloc, words) {
        Ok(asked) => serve_asked(alloc, asked, files, out, err),
        Err(why) => told(Err(why.into()), err),
    }
}

/// Draws the trace in a file.
fn draw_file<'a, F: ReadFiles, O: Sink>(
    alloc: Global,
    files: &F,
    name: &'a str,
    is_svg: bool,
    out: &mut O,
) -> Result<Option<u64>, FileFailure<'a>>
    ensures ok { IfOk result (λ other. FileIsTraceUpTo (F.contents files.now) other (name.entry.now, is_svg)) }
    ensures err { IfErr result IsCutOff }
{
    let text = files.read_file(name).map_err(FileFailure::Unread)?;
    draw_trace(alloc, text.as_slice(), is_svg, out)
}

/// Parses the arguments, and draws the trace that they name.
fn draw_words<'a, F: ReadFiles, O: Sink>(
    alloc: Global,
    words: &'a [&'a str],
    files: &F,
    out: &mut O,
) -> Result<Option<u64>, FileFailure<'a>>
    ensures { Draws (F.contents files.now) (drawing_asked (map (λ w. w.now) words.entry.now)) out.old out.new result }
{
    let (name, is_svg) = requested(alloc, words)?;
    draw_file(alloc, files, name, is_svg, out)
}

/// Returns the exit status. Reports a failure, or the first line that is not a trace line.
fn drawn<E: Sink>(done: Result<Option<u64>, FileFailure<'_>>, err: &mut E) -> u8
    ensures most { result ≤ 3 }
    ensures is { result ≡ status_of_drawing done.entry }
{
    match done {
        Ok(None) => 0,
        Ok(Some(number)) => {
            tell(format_args!("jobk: line {number}: not a trace line"), err);
            1
        }
        Err(failure) => failure.end(b"usage: jobk lanes TRACE [--svg]\n", err),
    }
}

/// Runs `lanes` with these arguments, without the command's name. Draws a trace as [`draw_trace`] does, and reports the
/// first line that is not a trace line.
///
/// Returns the exit status: 0 if all lines are drawn, 1 if the picture ends before a line that is not a trace line, 2
/// for a usage error, 3 if the file cannot be read, `out` fails or memory runs out. A failure of `err` does not change
/// the status.
pub fn serve_lanes<'a, F: ReadFiles, O: Sink, E: Sink>(
    alloc: Global,
    words: &'a [&'a str],
    files: &F,
    out: &mut O,
    err: &mut E,
) -> u8
    ensures most { result ≤ 3 }
    ensures meaning { MeansOfDrawing (F.contents files.now) (drawing_asked (map (λ w. w.now) words.entry.now)) out.old out.new result }
{
    drawn(draw_words(alloc, words, files, out), err)
}

//! The command `names`: prints a text with numbers in place of its names.

ghost use Rattle.std.specs.Prelude.{◌≡◌, ◌≤◌, map};
ghost use Rattle.naming.specs.Serving.{Ends, EndsText, Means, answer_of, text_in_words};

use crate::texts::{Named, name_text};
use inputs::{FileFailure, ReadFiles, named_file};
use std::alloc::Global;
use trace::{Sink, put_all};

/// Writes a text with numbers in place of its names. Returns the messages about rejected names.
fn serve_text<'a, O: Sink>(
    alloc: Global,
    text: &[u8],
    out: &mut O,
) -> Result<Vec<u8>, FileFailure<'a>>
    ensures { EndsText text.now out.old out.new (O.seen out.old) (O.seen out.new) result }
{
    let Named { text, told } = name_text(alloc, text)?;
    put_all(out, text.as_slice())?;
    Ok(told)
}

/// Writes the text of the file that the arguments name, with numbers in place of its names. Returns the messages about
/// rejected names.
fn serve_words<'a, F: ReadFiles, O: Sink>(
    alloc: Global,
    words: &'a [&'a str],
    files: &F,
    out: &mut O,
) -> Result<Vec<u8>, FileFailure<'a>>
    ensures { Ends (F.contents files.now) (text_in_words (map (λ w. w.now) words.entry.now)) out.old out.new (O.seen out.old) (O.seen out.new) result }
{
    let name = named_file(alloc, "names", "text", words)?;
    let text = files.read_file(name).map_err(FileFailure::Unread)?;
    serve_text(alloc, text.as_slice(), out)
}

/// Returns the exit status. Writes the messages about rejected names, or about the failure.
fn ended<E: Sink>(done: Result<Vec<u8>, FileFailure<'_>>, err: &mut E) -> u8
    ensures status { result ≡ answer_of done.entry }
    ensures silent { result ≡ 0 → err.new ≡ err.old }
{
    match done {
        Ok(told) => {
            if told.is_empty() {
                return 0;
            }
            let _ = put_all(err, told.as_slice());
            1
        }
        Err(failure) => failure.end(b"usage: jobk names TEXT\n", err),
    }
}

/// Prints the text of the file that the arguments after `names` name, with numbers in place of its names. A rejected
/// name, key or text stays as it is. The messages about rejected names go to `err`, after the text.
///
/// Returns the exit status: 0 on success, 1 if a name is rejected, 2 for a usage error, 3 if the file cannot be read,
/// the text cannot be written, or there is no memory. A failing `err` changes no status.
pub fn serve<'a, F: ReadFiles, O: Sink, E: Sink>(
    alloc: Global,
    words: &'a [&'a str],
    files: &F,
    out: &mut O,
    err: &mut E,
) -> u8
    ensures status { result ≤ 3 }
    ensures meaning { Means (F.contents files.now) (text_in_words (map (λ w. w.now) words.entry.now)) out.old out.new (O.seen out.old) (O.seen out.new) result }
    ensures silent { result ≡ 0 → err.new ≡ err.old }
{
    ended(serve_words(alloc, words, files, out), err)
}

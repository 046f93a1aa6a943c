//! The printed form of a report.

ghost use Rattle.std.specs.Prelude.{◌≡◌, ◌++◌, IfOk, OnOk};
ghost use Rattle.refusing.specs.Marks.{shown};
ghost use Rattle.refusing.specs.Printing.{behind_marks, file_line, first_lines, mark_line, note_line, place_line, printed as printed_of, sentence_line, text_line};

use crate::marks::{write_blanks, write_marks, write_shown};
use crate::sight::Sight;
use crate::telling::{Shown, Told};
use itoa::Buffer;
use std::alloc::{AllocError, Global};

/// Adds the line with the name of the file.
fn write_file(out: &mut Vec<u8>, name: &str) -> Result<(), AllocError>
    ensures { OnOk result (out.new.items ≡ out.old.items ++ file_line name.now) }
{
    out.extend_from_slice(b" --> ")?;
    out.extend_from_slice(name.as_bytes())?;
    out.extend_from_slice(b"\n")
}

/// Adds the line with the name of the file and the number of a line in it.
fn write_place(out: &mut Vec<u8>, name: &str, number: u64) -> Result<(), AllocError>
    ensures { OnOk result (out.new.items ≡ out.old.items ++ place_line name.now number) }
{
    out.extend_from_slice(b" --> ")?;
    out.extend_from_slice(name.as_bytes())?;
    out.extend_from_slice(b":")?;
    out.extend_from_slice(Buffer::new().format(number).as_bytes())?;
    out.extend_from_slice(b"\n")
}

/// Adds a sentence on a line of its own.
fn write_sentence(out: &mut Vec<u8>, sentence: &[u8]) -> Result<(), AllocError>
    ensures { OnOk result (out.new.items ≡ out.old.items ++ sentence_line sentence.now) }
{
    out.extend_from_slice(b"  ")?;
    write_shown(out, sentence)?;
    out.extend_from_slice(b"\n")
}

/// Adds a line of the text with its number.
fn write_line(out: &mut Vec<u8>, number: u64, line: &[u8]) -> Result<(), AllocError>
    ensures { OnOk result (out.new.items ≡ out.old.items ++ text_line number line.now) }
{
    out.extend_from_slice(b"  ")?;
    out.extend_from_slice(Buffer::new().format(number).as_bytes())?;
    out.extend_from_slice(b" | ")?;
    write_shown(out, line)?;
    out.extend_from_slice(b"\n")
}

/// Returns a text in a form that is safe to show on a terminal.
fn shown_text(alloc: Global, text: &[u8]) -> Result<Vec<u8>, AllocError>
    ensures { IfOk result (λ v. v.items ≡ shown text.now) }
{
    let mut all = Vec::new(alloc);
    write_shown(&mut all, text)?;
    Ok(all)
}

/// Adds the message after the marks, if it is not empty.
fn write_behind_marks(out: &mut Vec<u8>, why: &[u8]) -> Result<(), AllocError>
    ensures { OnOk result (out.new.items ≡ out.old.items ++ behind_marks why.now) }
{
    if why.is_empty() {
        return Ok(());
    }
    out.extend_from_slice(b" ")?;
    write_shown(out, why)
}

/// Adds the marks below a line, each in the column of what it marks, and the message.
fn write_mark_line(
    alloc: Global,
    out: &mut Vec<u8>,
    number: u64,
    sight: &Sight<'_>,
    why: &[u8],
) -> Result<(), AllocError>
    ensures { OnOk result (out.new.items ≡ out.old.items ++ mark_line number sight.now.before.now sight.now.marked.now why.now) }
{
    let before = shown_text(alloc, sight.before)?;
    let marked = shown_text(alloc, sight.marked)?;
    out.extend_from_slice(b"  ")?;
    write_blanks(out, Buffer::new().format(number).as_bytes())?;
    out.extend_from_slice(b" | ")?;
    write_blanks(out, before.as_slice())?;
    write_marks(out, marked.as_slice())?;
    write_behind_marks(out, why)?;
    out.extend_from_slice(b"\n")
}

/// Adds the note about another line, if it is not empty.
fn write_note(out: &mut Vec<u8>, note: &[u8]) -> Result<(), AllocError>
    ensures { OnOk result (out.new.items ≡ out.old.items ++ note_line note.now) }
{
    if note.is_empty() {
        return Ok(());
    }
    write_sentence(out, note)
}

/// Adds the first lines: the name of the file, the shown line and the message.
fn write_first(
    alloc: Global,
    out: &mut Vec<u8>,
    name: &str,
    why: &[u8],
    shown: &Shown<'_>,
) -> Result<(), AllocError>
    ensures { OnOk result (out.new.items ≡ out.old.items ++ first_lines name.now why.now shown.now) }
{
    match shown {
        Shown::File => {
            write_file(out, name)?;
            write_sentence(out, why)
        }
        Shown::FirstLine => {
            write_place(out, name, 1)?;
            write_sentence(out, why)
        }
        Shown::Line(number, sight) => {
            write_place(out, name, *number)?;
            write_line(out, *number, sight.line)?;
            write_mark_line(alloc, out, *number, sight, why)
        }
    }
}

/// Returns what is printed of a rejected text, in a file with this name.
pub fn printed(alloc: Global, name: &str, told: &Told<'_>) -> Result<Vec<u8>, AllocError>
    ensures { IfOk result (λ v. v.items ≡ printed_of name.now told.now) }
{
    let mut out = Vec::new(alloc);
    write_first(alloc, &mut out, name, told.why.as_slice(), &told.shown)?;
    write_note(&mut out, told.note.as_slice())?;
    out.extend_from_slice(told.section.line().as_bytes())?;
    Ok(out)
}

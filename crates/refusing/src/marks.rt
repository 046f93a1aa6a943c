//! Text in a form that is safe to show on a terminal, and marks below it.

ghost use Rattle.std.specs.Prelude.{◌≡◌, ◌∷◌, ◌++◌, IfOk, OnOk};
ghost use Rattle.std.specs.List.{list_all};
ghost use Rattle.refusing.specs.Marks.{blanks, bytes_behind as bytes_behind_of, column, columns, continues as continues_of, go_on as go_on_of, is_control as is_control_of, is_shown as is_shown_of, marks, more_of as more_of_letter, piece, shown, shown_from};

use naming::push_byte;
use std::alloc::AllocError;

/// Returns true if a byte is a continuation byte of UTF-8.
fn continues(byte: u8) -> bool
    ensures { result ≡ continues_of byte }
{
    matches!(byte, 0x80..=0xBF)
}

/// Returns how many continuation bytes follow the first byte of a character. Returns 0 if the byte begins no character
/// of several bytes.
fn bytes_behind(byte: u8) -> usize
    ensures { result ≡ bytes_behind_of byte }
{
    match byte {
        0xC2..=0xDF => 1,
        0xE0..=0xEF => 2,
        0xF0..=0xF4 => 3,
        _ => 0,
    }
}

/// Returns true if all bytes are continuation bytes.
fn all_continue(bytes: &[u8]) -> bool
    ensures { result ≡ list_all continues_of bytes.now }
{
    bytes.iter().all(|b| continues(*b))
}

/// Returns true if at least `count` bytes follow, and the first `count` of them are continuation bytes.
fn go_on(count: usize, behind: &[u8]) -> bool
    ensures { result ≡ go_on_of count behind.now }
{
    if count > behind.len() {
        return false;
    }
    let (front, _) = behind.split_at(count);
    all_continue(front)
}

/// Returns true if the character of these bytes controls a terminal: one of U+0080 to U+009F.
fn is_control(byte: u8, behind: &[u8]) -> bool
    ensures { result ≡ is_control_of byte behind.now }
{
    byte == 0xC2 && behind.iter().take(1).any(|b| *b < 0xA0)
}

/// Returns how many of the following bytes belong to the character that this byte begins. Returns 0 if it begins no
/// character of several bytes that is safe to show.
fn more_of(byte: u8, behind: &[u8]) -> usize
    ensures { result ≡ more_of_letter byte behind.now }
{
    let count = bytes_behind(byte);
    if go_on(count, behind) && !is_control(byte, behind) {
        count
    } else {
        0
    }
}

/// Returns true if a byte is shown as it is: printable ASCII, a space or a tab.
fn is_shown(byte: u8) -> bool
    ensures { result ≡ is_shown_of byte }
{
    matches!(byte, b'\t' | b' '..=b'~')
}

/// Adds a byte as it is, if it is safe to show or begins a character with `more` other bytes. Otherwise adds its
/// number, as `\x1B`.
fn write_piece(out: &mut Vec<u8>, byte: u8, more: usize) -> Result<(), AllocError>
    ensures { OnOk result (out.new.items ≡ out.old.items ++ piece byte more) }
{
    if is_shown(byte) || more > 0 {
        out.push(byte)?;
        return Ok(());
    }
    out.extend_from_slice(b"\\x")?;
    push_byte(out, byte)
}

/// Adds a byte. `more` bytes are left of a character that has begun. Returns how many are left after this one.
fn write_byte(out: &mut Vec<u8>, more: usize, byte: u8, behind: &[u8]) -> Result<usize, AllocError>
    ensures { IfOk result (λ next. out.new.items ++ shown_from next behind.now ≡ out.old.items ++ shown_from more (byte ∷ behind.now)) }
{
    if more > 0 {
        out.push(byte)?;
        return Ok(more - 1);
    }
    let next = more_of(byte, behind);
    write_piece(out, byte, next)?;
    Ok(next)
}

/// Adds a text in a form that is safe to show. A byte that is not part of a character, or that would control the
/// terminal, is shown by its number.
pub fn write_shown(out: &mut Vec<u8>, text: &[u8]) -> Result<(), AllocError>
    ensures { OnOk result (out.new.items ≡ out.old.items ++ shown text.now) }
{
    let mut rest = text;
    let mut more = 0;
    while let [byte, behind @ ..] = rest {
        more = write_byte(out, more, *byte, behind)?;
        rest = behind;
    }
    Ok(())
}

/// Adds `mark` below a byte of a shown text, or `tab` if the byte is a tab; nothing if it is a continuation byte.
fn write_column(out: &mut Vec<u8>, mark: u8, tab: u8, byte: u8) -> Result<(), AllocError>
    ensures { OnOk result (out.new.items ≡ out.old.items ++ column mark tab byte) }
{
    if byte == b'\t' {
        out.push(tab)?;
    } else if !continues(byte) {
        out.push(mark)?;
    }
    Ok(())
}

/// Adds the marks below a shown text.
fn write_columns(out: &mut Vec<u8>, mark: u8, tab: u8, shown: &[u8]) -> Result<(), AllocError>
    ensures { OnOk result (out.new.items ≡ out.old.items ++ columns mark tab shown.now) }
{
    for byte in shown {
        write_column(out, mark, tab, *byte)?;
    }
    Ok(())
}

/// Adds spaces and tabs, as wide as a shown text.
pub fn write_blanks(out: &mut Vec<u8>, shown: &[u8]) -> Result<(), AllocError>
    ensures { OnOk result (out.new.items ≡ out.old.items ++ blanks shown.now) }
{
    write_columns(out, b' ', b'\t', shown)
}

/// Adds marks below a shown text; one mark if it is empty.
pub fn write_marks(out: &mut Vec<u8>, shown: &[u8]) -> Result<(), AllocError>
    ensures { OnOk result (out.new.items ≡ out.old.items ++ marks shown.now) }
{
    if shown.is_empty() {
        out.push(b'^')?;
        return Ok(());
    }
    write_columns(out, b'^', b'^', shown)
}

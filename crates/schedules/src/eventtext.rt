//! Writes lists of events as texts, with comments.

ghost use Rattle.std.specs.Prelude.{◌≡◌, ◌+◌, ◌<◌, ◌≤◌, [], ◌∷◌, ◌++◌, length, map, replicate, OnOk};
ghost use Rattle.std.specs.String.{string_bytes};
ghost use Rattle.arrayvec.specs.ArrayVec.{array_vec_len};
ghost use Rattle.posix.specs.declared.event.Event.{Event as AnEvent};
ghost use Rattle.posix.specs.declared.event.Event.TheVariants.{Key, Hangup};
ghost use Rattle.text.specs.EventTexts.{most_events};
ghost use Rattle.text.specs.Numbers.{two_digits};
ghost use Rattle.schedules.specs.EventLines.{AddsFirst, AddsLines, AddsText, IsWordOf};

use arrayvec::{ArrayString, ArrayVec};
use posix::Event;
use std::alloc::AllocError;
use std::fmt::Write;
use text::{EventList, EventRun};

/// The most events of a line `step N` or `tick N`.
const MOST_COUNTED: u64 = 1_000_000;

/// The most bytes of a line `key C B ..`: so it stays short.
const MOST_KEYS: usize = 16;

/// The most bytes that the keys of a line take as they are typed.
const MOST_TYPED: usize = 4 * MOST_KEYS;

/// The most bytes of a comment that fits in a line.
const MOST_COMMENT: usize = 194;

/// A comment on an event of a list.
#[derive(Drop)]
pub struct Remark {
    /// The place of the event, counted from 0.
    pub place: u64,
    /// At most 194 bytes, without a line feed; any other text is omitted.
    pub text: String,
}

/// Keys of one console that are not yet written.
#[derive(Drop)]
struct Keys {
    console: u8,
    bytes: ArrayVec<u8, MOST_KEYS>,
}

/// Writes `count` steps or ticks.
fn write_counted(text: &mut String, word: &str, count: u64) -> Result<(), AllocError>
    ensures { (event : AnEvent) → IsWordOf event word.now → OnOk result (AddsLines (string_bytes text.old) (replicate count event) (string_bytes text.new)) }
{
    let mut left = count;
    while left > 0 {
        let here = left.min(MOST_COUNTED);
        writeln!(text, "    {word} {here}")?;
        left -= here;
    }
    Ok(())
}

/// Writes `count` hangups.
fn write_hangups(text: &mut String, console: u8, count: u64) -> Result<(), AllocError>
    ensures { OnOk result (AddsLines (string_bytes text.old) (replicate count (Hangup console)) (string_bytes text.new)) }
{
    for _i in 0..count {
        writeln!(text, "    hangup {console}")?;
    }
    Ok(())
}

/// Writes a byte as a space and two hexadecimal digits.
fn write_byte(text: &mut String, byte: u8) -> Result<(), AllocError>
    ensures { OnOk result (string_bytes text.new ≡ string_bytes text.old ++ 32 ∷ two_digits byte) }
{
    write!(text, " {byte:02X}")
}

/// Adds a key as it is typed: a control character as ^C, and a byte from 80 hex as M- and the key to press with Meta.
fn push_typed(typed: &mut ArrayString<MOST_TYPED>, byte: u8) {
    let meta = if byte < 0x80 { "" } else { "M-" };
    let key = byte & 0x7f;
    let (control, shown) = match key {
        0x20..=0x7e => ("", key),
        _ => ("^", key ^ 0x40),
    };
    let _ = write!(typed, "{meta}{control}{}", char::from(shown));
}

/// Writes a comment with keys as they are typed.
fn write_typed(text: &mut String, bytes: &[u8]) -> Result<(), AllocError>
    ensures { OnOk result (AddsLines (string_bytes text.old) [] (string_bytes text.new)) }
{
    let mut typed = ArrayString::<MOST_TYPED>::new();
    for byte in bytes {
        push_typed(&mut typed, *byte);
    }
    write_comment(text, typed.as_str())
}

/// Writes a line of keys.
fn write_key_line(text: &mut String, console: u8, bytes: &[u8]) -> Result<(), AllocError>
    requires some { 0 < length bytes.now }
    requires few { length bytes.now ≤ 16 }
    ensures { OnOk result (AddsLines (string_bytes text.old) (map (Key console) bytes.now) (string_bytes text.new)) }
{
    write!(text, "    key {console}")?;
    for byte in bytes {
        write_byte(text, *byte)?;
    }
    text.push_str("\n")?;
    Ok(())
}

/// Writes a line of keys, after a comment that shows them as they are typed. Writes nothing if there are no keys.
fn write_keys(text: &mut String, console: u8, bytes: &[u8]) -> Result<(), AllocError>
    requires { length bytes.now ≤ 16 }
    ensures { OnOk result (AddsLines (string_bytes text.old) (map (Key console) bytes.now) (string_bytes text.new)) }
{
    if bytes.is_empty() {
        return Ok(());
    }
    write_typed(text, bytes)?;
    write_key_line(text, console, bytes)?;
    Ok(())
}

/// Writes the keys that are not yet written, if there are any.
fn end_keys(text: &mut String, keys: &mut Keys) -> Result<(), AllocError>
    ensures adds { OnOk result (AddsFirst (string_bytes text.old) (map (Key keys.old.console) keys.old.bytes.items) [] (string_bytes text.new) (map (Key keys.new.console) keys.new.bytes.items)) }
    ensures none { OnOk result (keys.new.bytes.items ≡ []) }
    ensures len { OnOk result (array_vec_len keys.new.bytes ≡ 0) }
{
    write_keys(text, keys.console, keys.bytes.as_slice())?;
    keys.bytes.clear();
    Ok(())
}

/// Makes room for a key of this console. Writes the keys so far if the line is full, or if they are of another console.
fn make_room(text: &mut String, keys: &mut Keys, console: u8) -> Result<(), AllocError>
    ensures adds { OnOk result (AddsFirst (string_bytes text.old) (map (Key keys.old.console) keys.old.bytes.items) [] (string_bytes text.new) (map (Key keys.new.console) keys.new.bytes.items)) }
    ensures console { OnOk result (keys.new.console ≡ console) }
    ensures room { OnOk result (array_vec_len keys.new.bytes < 16) }
{
    if keys.console == console && !keys.bytes.is_full() {
        return Ok(());
    }
    end_keys(text, keys)?;
    keys.console = console;
    Ok(())
}

/// Adds a key `count` times.
fn put_keys(
    text: &mut String,
    keys: &mut Keys,
    console: u8,
    byte: u8,
    count: u64,
) -> Result<(), AllocError>
    ensures { OnOk result (AddsFirst (string_bytes text.old) (map (Key keys.old.console) keys.old.bytes.items) (replicate count (Key console byte)) (string_bytes text.new) (map (Key keys.new.console) keys.new.bytes.items)) }
{
    for _i in 0..count {
        make_room(text, keys, console)?;
        keys.bytes.push(byte);
    }
    Ok(())
}

/// Adds an event `count` times.
fn put_many(text: &mut String, keys: &mut Keys, event: Event, count: u64) -> Result<(), AllocError>
    ensures { OnOk result (AddsFirst (string_bytes text.old) (map (Key keys.old.console) keys.old.bytes.items) (replicate count event) (string_bytes text.new) (map (Key keys.new.console) keys.new.bytes.items)) }
{
    match event {
        Event::Step => {
            end_keys(text, keys)?;
            write_counted(text, "step", count)
        }
        Event::Tick => {
            end_keys(text, keys)?;
            write_counted(text, "tick", count)
        }
        Event::Key { console, byte } => put_keys(text, keys, console, byte, count),
        Event::Hangup { console } => {
            end_keys(text, keys)?;
            write_hangups(text, console, count)
        }
    }
}

/// Writes a comment in its own line. Writes nothing if the comment is too long or has a line feed.
fn write_comment(text: &mut String, comment: &str) -> Result<(), AllocError>
    ensures { OnOk result (AddsLines (string_bytes text.old) [] (string_bytes text.new)) }
{
    if comment.len() > MOST_COMMENT || comment.as_bytes().contains(&b'\n') {
        return Ok(());
    }
    writeln!(text, "    # {comment}")?;
    Ok(())
}

/// Adds an event `count` times, and once more after a comment.
fn put_remarked(
    text: &mut String,
    keys: &mut Keys,
    event: Event,
    count: u64,
    comment: &str,
) -> Result<(), AllocError>
    ensures { OnOk result (AddsFirst (string_bytes text.old) (map (Key keys.old.console) keys.old.bytes.items) (replicate (count + 1) event) (string_bytes text.new) (map (Key keys.new.console) keys.new.bytes.items)) }
{
    put_many(text, keys, event, count)?;
    end_keys(text, keys)?;
    write_comment(text, comment)?;
    put_many(text, keys, event, 1)?;
    Ok(())
}

/// Adds a run of one event, the first of which has place `start`, with the remarks on its events.
fn put_run(
    text: &mut String,
    keys: &mut Keys,
    start: u64,
    run: EventRun,
    remarks: &[Remark],
) -> Result<(), AllocError>
    requires { start + run.count ≤ most_events }
    ensures { OnOk result (AddsFirst (string_bytes text.old) (map (Key keys.old.console) keys.old.bytes.items) (replicate run.count run.event) (string_bytes text.new) (map (Key keys.new.console) keys.new.bytes.items)) }
{
    let end = start + run.count();
    let mut next = start;
    for remark in remarks {
        let place = remark.place;
        if place < next || end <= place {
            continue;
        }
        put_remarked(text, keys, run.event(), place - next, remark.text.as_str())?;
        next = place + 1;
    }
    put_many(text, keys, run.event(), end - next)?;
    Ok(())
}

/// Writes a list of events as a text from which they are read again. Each line is indented by four spaces.
///
/// A comment before each line of keys shows them as they are typed, such as ^C. An event with a remark has its own
/// line, after the remark as a comment. The places of the remarks must rise strictly; a remark out of order is omitted.
/// Keys and remarks are only in comments, so the text can be read with and without `--names`. If memory runs out, a
/// part of the text may have been added.
pub fn write_events(
    text: &mut String,
    events: &EventList,
    remarks: &[Remark],
) -> Result<(), AllocError>
    requires { length events.now ≤ most_events }
    ensures { OnOk result (AddsText (string_bytes text.old) events.now (string_bytes text.new)) }
{
    let mut keys = Keys {
        console: 0,
        bytes: ArrayVec::new(),
    };
    let mut start = 0;
    for run in events.runs() {
        put_run(text, &mut keys, start, *run, remarks)?;
        start += run.count();
    }
    end_keys(text, &mut keys)?;
    Ok(())
}

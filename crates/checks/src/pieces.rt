//! Event texts that are read in pieces.

ghost use Rattle.std.specs.Prelude.{◌≤◌};

use posix::Event;
use std::alloc::Global;
use std::process::Abort;
use std::test::Fail;
use text::{EventList, EventReader, EventRun, TextFault, read_events};

/// Returns a run of equal keys on a console.
fn keys(console: u8, byte: u8, count: u32) -> EventRun {
    EventRun::new(Event::Key { console, byte }, u64::from(count))
}

#[test]
fn an_event_text_comes_in_pieces(rt: HostRuntime) -> Result<(), Fail> {
    let mut reader = EventReader::new(rt.alloc(), 2);
    for piece in [
        b"step 10000".as_slice(),
        b"00\nke",
        b"y 2 6",
        b"8,fF Ff # two of one",
        b"\nkey 1 ff",
    ] {
        reader.feed(piece)?;
    }
    let events = reader.finish()?;
    let runs = [
        EventRun::new(Event::Step, 1_000_000),
        keys(2, 0x68, 1),
        keys(2, 0xff, 2),
        keys(1, 0xff, 1),
    ];
    assert!(rt; events.len() == 1_000_004 && events.runs() == runs.as_slice());
    Ok(())
}

/// Returns the events of a text for two consoles, read in pieces of `size` bytes.
fn in_pieces(alloc: Global, text: &[u8], size: usize) -> Result<EventList, TextFault>
    requires { 1 ≤ size }
{
    let mut reader = EventReader::new(alloc, 2);
    for piece in text.chunks(size) {
        // `finish` returns the fault again.
        let _ = reader.feed(piece);
    }
    reader.finish()
}

/// Returns true if two texts were read with the same result.
fn are_alike(one: &Result<EventList, TextFault>, other: &Result<EventList, TextFault>) -> bool {
    match (one, other) {
        (Ok(one), Ok(other)) => one.len() == other.len() && one.runs() == other.runs(),
        (Err(one), Err(other)) => one == other,
        _ => false,
    }
}

/// Returns true if each beginning of an event text has the same result in pieces of `size` bytes as in one piece.
fn beginnings_are_alike(alloc: Global, text: &[u8], size: usize) -> bool
    requires { 1 ≤ size }
{
    let mut well = true;
    for end in 0..=text.len() {
        let whole = read_events(alloc, 2, &text[..end]);
        well = well && are_alike(&in_pieces(alloc, &text[..end], size), &whole);
    }
    well
}

#[test]
fn event_texts_are_read_in_pieces_as_whole(rt: HostRuntime) -> Result<(), Fail> {
    let keys_and_steps =
        b"step 1000000\n# a line\nkey 2 68,fF Ff # two of one\n\ntick 3\nkey 1 0d\nstep 2";
    let faulty = b"tick 2\nstep 20\nkey 1 61 6\nstep 0\nkey 3 61\nstop 1\n";
    let mut well = true;
    for size in [1, 2, 3, 7] {
        well = well
            && beginnings_are_alike(rt.alloc(), keys_and_steps, size)
            && beginnings_are_alike(rt.alloc(), faulty, size);
    }
    assert!(rt; well);
    Ok(())
}

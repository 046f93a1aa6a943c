//! Lines of a trace, kept as values.

ghost use Rattle.std.specs.Prelude.{◌≡◌};
ghost use Rattle.posix.specs.Common.{line};
ghost use Rattle.counting.specs.Patterns.{shown as shown_of};
ghost use Rattle.counting.specs.Courses.{denies_memory as denies};

use posix::{Entry, Pid};
use std::marker::Model;
use trace::write_entry;

/// A trace line: what an event shows, with the number of the event.
#[derive(Clone, Copy)]
pub struct Line {
    event: u64,
    entry: Entry,
}

impl Model for Line {
    ghost use Rattle.posix.specs.Entries.{Line, line};

    ghost Value = { Line };

    ghost view = { λ l. line l.event l.entry };

    ghost inverse = { λ l. record { event = l.event; entry = l.entry } };
}

impl Line {
    /// Returns the line of an event.
    pub fn new(event: u64, entry: Entry) -> Line
        ensures { result ≡ line event entry }
    {
        Line { event, entry }
    }

    /// Returns the number of the event.
    pub fn event(&self) -> u64
        ensures { result ≡ self.now.event }
    {
        self.event
    }

    /// Returns what the event shows.
    pub fn entry(&self) -> &Entry
        ensures { result.now ≡ self.now.entry }
    {
        &self.entry
    }
}

/// Returns the ID of the process that a line belongs to; 0 for a halt.
pub fn process_number(line: &Line) -> u32 {
    line.entry().process().map_or(0, Pid::number)
}

/// Returns true if an entry says that the host had no memory for a call.
pub fn denies_memory(entry: &Entry) -> bool
    ensures { result ≡ denies entry.now }
{
    matches!(entry, Entry::NoMemory { .. })
}

/// Room for a printed line.
pub type Room = [u8; 128];

/// Prints what an event shows as a trace line does, without the event number, the space after it and the line feed.
pub fn shown<'a>(entry: &Entry, room: &'a mut Room) -> &'a [u8]
    ensures { result.now ≡ shown_of entry.now }
{
    let end = write_entry(room, 0, 0, entry);
    &room[2..end - 1]
}

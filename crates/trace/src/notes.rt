//! Lines of notes, printed from words that are prepared once.
//!
//! Most lines of a trace are notes, and many notes of one process follow each other.

ghost use Rattle.std.specs.Prelude.{◌≡◌, ◌+◌, ◌≤◌, ◌++◌, length, take, codes, decimal};
ghost use Rattle.posix.specs.Common.{printed};

use crate::print::{put, put_number, put_signed};
use posix::{Entry, Pid};
use std::marker::Model;

/// The words of the notes of one process up to the value: ` note `, the process ID, and a space. They are 8 to 17 of
/// the 32 bytes.
/// Made once for all notes of a burst.
#[derive(Drop)]
pub struct NoteWords {
    bytes: [u8; 32],
    len: usize,
    pid: Pid,
}

impl Model for NoteWords {
    ghost use Rattle.std.specs.Prelude.{ℕ, ◌≡◌, ◌≤◌, ◌++◌, take, codes, decimal};

    ghost Value = { ℕ };

    ghost view = { λ w. w.pid };

    // 27, because `put_number` ensures at most 20 digits, and the rest is 7 bytes
    ghost invariant = { λ w. (w.len ≤ 27) × (take w.len w.bytes ≡ codes " note " ++ decimal w.pid ++ codes " ") };
}

impl NoteWords {
    /// Prepares the words of the notes of a process.
    pub fn new(pid: Pid) -> NoteWords
        ensures { result ≡ pid }
    {
        let mut bytes = [0; 32];
        let at = put(&mut bytes, 0, b" note ");
        let at = put_number(&mut bytes, at, u64::from(pid.number()));
        let len = put(&mut bytes, at, b" ");
        NoteWords { bytes, len, pid }
    }

    /// Writes the words. Always copies 32 bytes; those after the words are overwritten by what follows.
    #[inline]
    fn put(&self, room: &mut [u8], at: usize) -> usize
        requires { at + 32 ≤ length room.old }
        ensures text { take result room.new ≡ take at room.old ++ (codes " note " ++ decimal self.now ++ codes " ") }
        ensures end { result ≤ at + 27 }
    {
        room[at..at + 32].copy_from_slice(&self.bytes);
        at + self.len
    }
}

/// Writes the line of a note, with its line feed, from an index on, as [`write_entry`] does: the event number, the
/// words and the value. Needs room for 128 bytes. Returns the index after the line.
///
/// [`write_entry`]: crate::print::write_entry
#[inline]
pub fn write_note(room: &mut [u8], at: usize, event: u64, words: &NoteWords, value: i64) -> usize
    requires { at + 128 ≤ length room.old }
    ensures text { take result room.new ≡ take at room.old ++ printed event (Entry.Noted words.now value) }
    ensures end { result ≤ at + 128 }
{
    let at = put_number(room, at, event);
    let at = words.put(room, at);
    let at = put_signed(room, at, value);
    put(room, at, b"\n")
}

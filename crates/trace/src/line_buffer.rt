//! A buffer for the lines of a trace.

ghost use Rattle.std.specs.Prelude.{◌≡◌, ◌<◌, ◌≤◌, ◌++◌, [], take, OnOk, OnErr};
ghost use Rattle.posix.specs.Common.{printed};
ghost use Rattle.trace.specs.Sinks.{TakesAll, BreaksOff, Gathers};

use crate::sinks::{Sink, SinkFault, put_all};
use crate::{NoteWords, write_entry, write_note};
use posix::Entry;
use std::marker::Model;

/// The minimum number of bytes of a put, except the last one: a put may be a system call, which costs more than a line.
const PIECE: usize = 8192;

/// Puts the first `len` bytes if they are 8 KiB or more. After that, the buffer is empty, even if the put failed.
#[inline(always)]
fn put_if_full<S: Sink>(bytes: &[u8; 8320], len: &mut usize, out: &mut S) -> Result<(), SinkFault>
    requires { len.old ≤ 8320 }
    ensures ok { OnOk result (Gathers (S.seen out.old) (take len.old bytes.now) (S.seen out.new) (take len.new bytes.now) []) }
    ensures err { OnErr result (BreaksOff (S.seen out.old) (S.seen out.new) (take len.old bytes.now)) }
    ensures empty { OnErr result (len.new ≡ 0) }
    ensures left { len.new < 8192 }
{
    if *len < PIECE {
        return Ok(());
    }
    let put = put_all(out, &bytes[..*len]);
    *len = 0;
    put
}

/// Less than 8 KiB of printed lines to be put, and room for another line after them.
#[derive(Drop)]
pub struct LineBuffer {
    bytes: [u8; 8320],
    len: usize,
}

impl Model for LineBuffer {
    ghost use Rattle.std.specs.Prelude.{List, ℕ, ◌<◌, take};

    ghost Value = { List ℕ };

    ghost view = { λ p. take p.len p.bytes };

    ghost invariant = { λ p. p.len < 8192 };
}

impl LineBuffer {
    /// Creates an empty buffer.
    pub fn new() -> Self
        ensures { result ≡ [] }
    {
        LineBuffer {
            bytes: [0; 8320],
            len: 0,
        }
    }

    /// Adds the line of an entry, which is written directly into the buffer. The buffer is put once it has 8 KiB or
    /// more; after a failure, it is empty.
    #[inline(never)]
    pub fn add<S: Sink>(&mut self, event: u64, entry: &Entry, out: &mut S) -> Result<(), SinkFault>
        ensures ok { OnOk result (Gathers (S.seen out.old) self.old (S.seen out.new) self.new (printed event entry.now)) }
        ensures err { OnErr result (BreaksOff (S.seen out.old) (S.seen out.new) (self.old ++ printed event entry.now)) }
        ensures empty { OnErr result (self.new ≡ []) }
    {
        self.len = write_entry(&mut self.bytes, self.len, event, entry);
        put_if_full(&self.bytes, &mut self.len, out)
    }

    /// Adds the line of a note, as [`LineBuffer::add`] does, from the prepared words of the process's notes.
    #[inline]
    pub fn add_note<S: Sink>(
        &mut self,
        event: u64,
        words: &NoteWords,
        value: i64,
        out: &mut S,
    ) -> Result<(), SinkFault>
        ensures ok { OnOk result (Gathers (S.seen out.old) self.old (S.seen out.new) self.new (printed event (Entry.Noted words.now value))) }
        ensures err { OnErr result (BreaksOff (S.seen out.old) (S.seen out.new) (self.old ++ printed event (Entry.Noted words.now value))) }
        ensures empty { OnErr result (self.new ≡ []) }
    {
        self.len = write_note(&mut self.bytes, self.len, event, words, value);
        put_if_full(&self.bytes, &mut self.len, out)
    }

    /// Puts all buffered bytes. After that, the buffer is empty, even if the put failed.
    pub fn flush<S: Sink>(&mut self, out: &mut S) -> Result<(), SinkFault>
        ensures ok { OnOk result (TakesAll (S.seen out.old) (S.seen out.new) self.old) }
        ensures err { OnErr result (BreaksOff (S.seen out.old) (S.seen out.new) self.old) }
        ensures empty { self.new ≡ [] }
    {
        let put = put_all(out, &self.bytes[..self.len]);
        self.len = 0;
        put
    }
}

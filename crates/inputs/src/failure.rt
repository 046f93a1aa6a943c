//! Failures of a program that is given one file, and their messages.

ghost use Rattle.std.specs.Prelude.{◌≡◌, ◌++◌, OnErr, OnOk};
ghost use Rattle.trace.specs.Sinks.{BreaksOff, TakesAll};
ghost use Rattle.inputs.specs.Failures.{Tells, message_of, status_of};

use crate::ReadFault;
use crate::words::NoRequest;
use arrayvec::ArrayString;
use std::alloc::AllocError;
use std::fmt::{Display, Write};
use trace::{Sink, SinkFault, put_all};

/// Why a program that is given one file fails.
#[derive(Clone, Copy)]
pub enum FileFailure<'a> {
    /// A usage error: the arguments ask for no file.
    Usage,
    /// The file cannot be read.
    Unread(ReadFault<'a>),
    /// There was no memory.
    Memory,
    /// The output cannot be written.
    Write,
}

impl From<AllocError> for FileFailure<'_> {
    ghost use Rattle.inputs.specs.declared.failure.FileFailure.TheVariants.{Memory};

    ghost from_gives = { λ _ failure. failure ≡ Memory };

    fn from(_: AllocError) -> Self {
        FileFailure::Memory
    }
}

impl From<SinkFault> for FileFailure<'_> {
    ghost use Rattle.inputs.specs.declared.failure.FileFailure.TheVariants.{Write};

    ghost from_gives = { λ _ failure. failure ≡ Write };

    fn from(_: SinkFault) -> Self {
        FileFailure::Write
    }
}

impl From<NoRequest> for FileFailure<'_> {
    ghost use Rattle.inputs.specs.Failures.{failure_of_words};

    ghost from_gives = { λ why failure. failure ≡ failure_of_words why };

    fn from(why: NoRequest) -> Self {
        match why {
            NoRequest::Usage => FileFailure::Usage,
            NoRequest::Memory => FileFailure::Memory,
        }
    }
}

impl FileFailure<'_> {
    /// Writes the message: the usage line for a usage error. If it fails, a put failed, and a prefix of the message was
    /// written. Allocates no memory.
    pub fn tell<E: Sink>(self, usage: &[u8], err: &mut E) -> Result<(), SinkFault>
        ensures ok { OnOk result (TakesAll (E.seen err.old) (E.seen err.new) (message_of usage.now self.entry)) }
        ensures err { OnErr result (BreaksOff (E.seen err.old) (E.seen err.new) (message_of usage.now self.entry)) }
    {
        match self {
            FileFailure::Usage => put_all(err, usage),
            FileFailure::Unread(why) => why.tell(err),
            FileFailure::Memory => put_all(err, b"jobk: out of memory\n"),
            FileFailure::Write => put_all(err, b"jobk: cannot write\n"),
        }
    }

    /// Writes the message, as far as the error output takes it. Returns the exit status: 2 for a usage error, 3 for an
    /// I/O error or if there is no memory.
    pub fn end<E: Sink>(self, usage: &[u8], err: &mut E) -> u8
        ensures status { result ≡ status_of self.entry }
        ensures told { Tells (E.seen err.old) (E.seen err.new) (message_of usage.now self.entry) }
    {
        let _ = self.tell(usage, err);
        match self {
            FileFailure::Usage => 2,
            FileFailure::Unread(_) | FileFailure::Memory | FileFailure::Write => 3,
        }
    }
}

/// Writes two texts, one after the other. If it fails, a put failed, and a prefix of both together was written.
pub fn put_both<O: Sink>(out: &mut O, first: &[u8], second: &[u8]) -> Result<(), SinkFault>
    ensures ok { OnOk result (TakesAll (O.seen out.old) (O.seen out.new) (first.now ++ second.now)) }
    ensures err { OnErr result (BreaksOff (O.seen out.old) (O.seen out.new) (first.now ++ second.now)) }
{
    put_all(out, first)?;
    put_all(out, second)
}

/// Writes a value as a line, as far as the error output takes it. A line of more than 256 bytes is cut off; the longest
/// that is written has fewer than 200. Allocates no memory.
pub fn tell<D: Display + Drop, E: Sink>(what: D, err: &mut E) {
    let mut line = ArrayString::<256>::new();
    let _ = writeln!(line, "{what}");
    let _ = put_all(err, line.as_str().as_bytes());
}

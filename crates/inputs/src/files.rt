//! Files of the host.

ghost use Rattle.std.specs.Prelude.{◌≡◌, ◌≢◌, ℕ, List, Option, IfErr, IfOk, IfSome, OnErr, OnOk};
ghost use Rattle.std.specs.IoError.{error_kind};
ghost use Rattle.trace.specs.Sinks.{BreaksOff, TakesAll};
ghost use Rattle.inputs.specs.Failures.{IsReadFault, message_unread};

use crate::failure::put_both;
use std::fs;
use std::io::{self, ErrorKind};
use std::rt::Files;
use thiserror::Error;
use trace::{Sink, SinkFault, put_all};

/// Why a file cannot be read.
#[derive(Clone, Copy, Debug, Error)]
pub enum ReadFault<'a> {
    /// The host cannot read the file with this name.
    #[error("cannot read {0}")]
    CannotRead(&'a str),
    /// There was no memory for its bytes.
    #[error("out of memory")]
    Memory,
}

impl<'a> ReadFault<'a> {
    /// Returns why the host cannot read the file with this name.
    pub fn of(error: &io::Error, name: &'a str) -> Self
        ensures memory { error_kind error.now ≡ ErrorKind.OutOfMemory → result ≡ ReadFault.Memory }
        ensures other { error_kind error.now ≢ ErrorKind.OutOfMemory → result ≡ ReadFault.CannotRead name.entry }
        ensures named { IsReadFault name.entry result }
    {
        if error.kind() == ErrorKind::OutOfMemory {
            ReadFault::Memory
        } else {
            ReadFault::CannotRead(name)
        }
    }

    /// Writes the message. If it fails, a put failed, and a prefix of the message was written. Allocates no memory.
    pub fn tell<E: Sink>(self, err: &mut E) -> Result<(), SinkFault>
        ensures ok { OnOk result (TakesAll (E.seen err.old) (E.seen err.new) (message_unread self.entry)) }
        ensures err { OnErr result (BreaksOff (E.seen err.old) (E.seen err.new) (message_unread self.entry)) }
    {
        match self {
            ReadFault::CannotRead(name) => {
                put_all(err, b"jobk: cannot read ")?;
                put_both(err, name.as_bytes(), b"\n")
            }
            ReadFault::Memory => put_all(err, b"jobk: out of memory\n"),
        }
    }
}

/// Reads files by their names.
pub trait ReadFiles {
    // The bytes of the file with each name, if they are known.
    ghost contents: { Self → List ℕ → Option (List ℕ) };

    /// Returns the bytes of a file, or why it cannot be read.
    fn read_file<'a>(&self, name: &'a str) -> Result<Vec<u8>, ReadFault<'a>>
        ensures ok { IfOk result (λ read. IfSome (contents self.now name.entry.now) (λ known. read.items ≡ known)) }
        ensures err { IfErr result (IsReadFault name.entry) };
}

/// The files of the host.
#[derive(Drop)]
pub struct HostFiles<'a, R: Files + AllocGlobal> {
    pub rt: &'a R,
}

impl<R: Files + AllocGlobal> ReadFiles for HostFiles<'_, R> {
    ghost use Rattle.std.specs.Prelude.{None};

    ghost contents = { λ files name. None };

    fn read_file<'a>(&self, name: &'a str) -> Result<Vec<u8>, ReadFault<'a>> {
        fs::read(self.rt, name).map_err(|e| ReadFault::of(&e, name))
    }
}

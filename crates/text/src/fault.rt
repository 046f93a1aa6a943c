//! The faults of texts.

ghost use Rattle.std.specs.Prelude.{◌≡◌};
ghost use Rattle.text.specs.declared.fault.Reason.TheVariants.{Memory};
ghost use Rattle.text.specs.Reading.{unless_memory};

use std::alloc::AllocError;
use thiserror::Error;

/// Why a line is rejected. If several reasons apply to a line, `LineTooLong` is reported first, then the reason of the
/// first rejected word, and `NameUnknown` last.
#[derive(Clone, Copy, Debug, PartialEq, Eq, Error)]
pub enum Reason {
    /// An unexpected or missing word, or a malformed name or register.
    #[error("unknown word")]
    UnknownWord,
    /// A word that should be a number or a byte, and is not.
    #[error("bad number")]
    BadNumber,
    /// A number outside its range, more programs than a world may have, more instructions than a program
    /// may have, or more events than a text may have.
    #[error("out of range")]
    OutOfRange,
    /// A label or a program that is used and never defined.
    #[error("name unknown")]
    NameUnknown,
    /// A label or a program that was defined before.
    #[error("name twice")]
    NameTwice,
    /// More than 200 bytes without the line feed.
    #[error("line too long")]
    LineTooLong,
    /// The text ends before its header is complete, or within a program.
    #[error("end missing")]
    EndMissing,
    /// The text ends after its header, without a program.
    #[error("no program")]
    NoProgram,
    /// There was no memory. This can replace any other result.
    #[error("memory")]
    Memory,
}

impl From<AllocError> for Reason {
    ghost from_gives = { λ _ reason. reason ≡ Memory };

    fn from(_: AllocError) -> Reason {
        Reason::Memory
    }
}

/// The first faulty line of a text.
#[derive(Clone, Copy, Debug, PartialEq, Eq, Error)]
#[error("line {line}: {reason}")]
pub struct TextFault {
    /// Its number, from 1. A fault at the end of the text has the number of lines plus one.
    pub line: u64,
    pub reason: Reason,
}

impl TextFault {
    /// Returns `why`; or `memory` if there was no memory, because that is no fault of the text.
    pub fn unless_memory<E: Drop>(self, why: E, memory: E) -> E
        ensures { result ≡ unless_memory self.reason why memory }
    {
        match self.reason {
            Reason::Memory => memory,
            _ => why,
        }
    }
}

/// Returns the fault `Memory` at a line.
pub(crate) fn no_memory(line: u64) -> TextFault
    ensures { result ≡ record { line = line; reason = Memory } }
{
    TextFault {
        line,
        reason: Reason::Memory,
    }
}

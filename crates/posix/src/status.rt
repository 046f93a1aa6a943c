//! Wait statuses.

ghost use Rattle.std.specs.Prelude.{◌≡◌, ◌<◌, ◌^◌};
ghost use Rattle.posix.specs.Statuses.{exited as exited_word, killed as killed_word, stopped as stopped_word, continued as continued_word, tells_end as word_tells_end, is_end_word, is_stopped_word, is_continued_word};

use crate::sig::Sig;
use std::marker::Model;

/// A wait status, as in waitpid(2): 0 to 65,535.
#[derive(Clone, Copy, PartialEq, Eq)]
pub struct Status {
    word: u16,
}

impl Model for Status {
    ghost use Rattle.std.specs.Prelude.{ℕ, ◌<◌, ◌^◌};

    ghost Value = { ℕ };

    ghost view = { λ s. s.word };

    ghost invariant = { λ s. s.word < 2 ^ 16 };

    ghost inverse = { λ n. record { word = n } };
}

impl Status {
    /// Returns the wait status with this number.
    pub fn from_word(word: u16) -> Status
        ensures { result ≡ word }
    {
        Status { word }
    }

    /// Returns the wait status of an exit; only the low eight bits of the exit code count (XSH _exit).
    pub fn exited(code: i64) -> Status
        ensures { result ≡ exited_word code }
    {
        Status {
            word: (code.cast_unsigned() % 256) as u16 * 256,
        }
    }

    /// Returns the wait status of a process that was killed by a signal.
    pub fn killed(sig: Sig) -> Status
        ensures { result ≡ killed_word sig }
    {
        Status {
            word: u16::from(sig.number()),
        }
    }

    /// Returns the wait status of a process that was stopped by a signal.
    pub fn stopped(sig: Sig) -> Status
        ensures { result ≡ stopped_word sig }
    {
        Status {
            word: u16::from(sig.number()) * 256 + 0x7f,
        }
    }

    /// Returns the wait status of a process that was continued.
    pub fn continued() -> Status
        ensures { result ≡ continued_word }
    {
        Status { word: 0xffff }
    }

    /// Returns true if the status reports a termination, not a stop (low byte 127) or a continue (255): WIFEXITED or
    /// WIFSIGNALED of waitpid(2).
    pub fn tells_end(self) -> bool
        ensures { result ≡ word_tells_end self }
    {
        self.word % 256 < 127
    }

    /// Returns true if it is the wait status of an exit, or of a termination by a signal.
    pub fn is_end(self) -> bool
        ensures { result ≡ is_end_word self }
    {
        if self.word % 256 == 0 {
            return true;
        }
        match u8::try_from(self.word) {
            Ok(number) => Sig::new(number).is_some(),
            Err(_) => false,
        }
    }

    /// Returns true if it is the wait status of a stop, by one of the four stop signals.
    pub fn is_stop(self) -> bool
        ensures { result ≡ is_stopped_word self }
    {
        self.word % 256 == 127 && matches!(self.word / 256, 19..=22)
    }

    /// Returns true if it is the wait status of a continue.
    pub fn is_continuation(self) -> bool
        ensures { result ≡ is_continued_word self }
    {
        self == Status::continued()
    }

    /// Returns the wait status as a number.
    pub fn word(self) -> u16
        ensures value { result ≡ self }
        ensures range { result < 2 ^ 16 }
    {
        self.word
    }
}

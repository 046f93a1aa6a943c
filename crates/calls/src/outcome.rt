//! The outcome of an attempt of a system call.

use posix::Blocked;

/// The outcome of an attempt of a call by a process.
#[derive(Clone, Copy)]
pub enum Attempt {
    /// The call has completed, and has added what it shows.
    Done,
    /// The call restarts, and shows nothing: the process stays at it (XBD 11.1.4).
    Again,
    /// The process has to wait, blocked in this call. Nothing has changed.
    Block(Blocked),
}

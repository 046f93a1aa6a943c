//! What is known of a register.

use posix::Sig;

/// What is known of the contents of a register.
#[derive(Clone, Copy)]
pub enum Held {
    /// Nothing is known.
    Unknown,
    Constant(i64),
    /// The handler that a signal had before the last sigaction set another one.
    OldHandler(Sig),
}

//! The entries of one event.

use arrayvec::ArrayVec;
use posix::Entry;

/// What one event shows: at most an interrupted call, a termination and a halt.
pub type Entries = ArrayVec<Entry, 4>;

//! The finished lines of a console, which wait to be read.

ghost use Rattle.std.specs.Prelude.{◌≡◌, ◌+◌, ◌≤◌, ◌==◌, ◌&&◌, nat_lt, nat_le, [], ◌∷◌, ◌++◌, length, true, if◌then◌else◌, IfOk};
ghost use Rattle.posix.specs.Common.{has_room, lines_left, waiting, most_lines, most_waiting};
ghost use Rattle.tty.specs.Limits.{AreFew};
ghost use Rattle.tty.specs.Lines.{Takes};

use circular_buffer::HeapCircularBuffer;
use std::alloc::{AllocError, Global};
use std::marker::Model;

/// At most 64 lines with 1,024 bytes together, next line to be read first. A line has at most 256 bytes. Allocates only
/// in [`LineQueue::new`].
#[derive(Drop)]
pub struct LineQueue {
    /// The bytes of all lines.
    bytes: HeapCircularBuffer<u8>,
    /// The length of each line.
    lengths: HeapCircularBuffer<u16>,
}

impl Model for LineQueue {
    ghost use Rattle.std.specs.Prelude.{List, ℕ};
    ghost use Rattle.tty.specs.Lines.{cut, AreLines};

    ghost Value = { List (List ℕ) };

    ghost view = { λ q. cut q.lengths.items q.bytes.items };

    ghost invariant = { λ q. AreLines q.lengths q.bytes };
}

impl LineQueue {
    /// The largest number of lines.
    pub const MOST_LINES: usize = 64;

    /// The largest number of bytes in all lines together.
    pub const MOST_BYTES: usize = 1024;

    /// Creates an empty queue. Fails if the host has no memory for it.
    pub fn new(alloc: Global) -> Result<LineQueue, AllocError>
        ensures { IfOk result (λ q. q ≡ []) }
    {
        let bytes = HeapCircularBuffer::with_capacity(alloc, LineQueue::MOST_BYTES)?;
        let lengths = HeapCircularBuffer::with_capacity(alloc, LineQueue::MOST_LINES)?;
        Ok(LineQueue { bytes, lengths })
    }

    /// Returns true if there are no lines.
    #[tactic(auto, using(crate::proofs::LineLemmas::cut_length, crate::proofs::LineLemmas::cut_few))]
    pub fn is_empty(&self) -> bool
        ensures is { result ≡ (length self.now == 0) }
        ensures limits { AreFew self.now }
    {
        self.lengths.is_empty()
    }

    /// Returns the number of lines.
    #[tactic(auto, using(crate::proofs::LineLemmas::cut_length))]
    pub fn len(&self) -> usize
        ensures { result ≡ length self.now }
    {
        self.lengths.len()
    }

    /// Returns true if another queue has the same lines in the same order.
    pub fn is_same(&self, other: &LineQueue) -> bool
        ensures { result ≡ true → self.now ≡ other.now }
    {
        self.lengths.iter().eq(other.lengths.iter()) && self.bytes.iter().eq(other.bytes.iter())
    }

    /// Drops all lines.
    pub fn clear(&mut self)
        ensures { self.new ≡ [] }
    {
        self.bytes.clear();
        self.lengths.clear();
    }

    /// Returns true if there is room for a line of `len` bytes.
    #[tactic(auto, using(crate::proofs::LineLemmas::cut_length, crate::proofs::LineLemmas::cut_waiting))]
    fn has_room(&self, len: usize) -> bool
        requires { len ≤ 256 }
        ensures { result ≡ (nat_lt (length self.now) most_lines && nat_le (waiting self.now + len) most_waiting) }
    {
        self.lengths.len() < LineQueue::MOST_LINES
            && self.bytes.len() + len <= LineQueue::MOST_BYTES
    }

    /// Appends a line of these bytes and an end. Without room, nothing changes.
    #[tactic(auto, using(crate::proofs::LineLemmas::room_of, crate::proofs::LineLemmas::cut_few))]
    pub fn push(&mut self, line: &[u8], end: &[u8])
        requires { length line.now + length end.now ≤ 256 }
        ensures lines { self.new ≡ (if has_room (line.now ++ end.now) self.old then self.old ++ (line.now ++ end.now) ∷ [] else self.old) }
        ensures limits { AreFew self.new }
    {
        let len = line.len() + end.len();
        if !self.has_room(len) {
            return;
        }
        self.bytes.fill_from_slice(line);
        self.bytes.fill_from_slice(end);
        let _ = self.lengths.push_back(len as u16);
    }

    /// Moves bytes of the first line to the front of `out`, as many as fit, and returns their number. Returns `None`
    /// and changes nothing if there are no lines. Removes the line if nothing of it is left; otherwise the rest stays.
    pub fn take(&mut self, out: &mut [u8]) -> Option<usize>
        ensures taken { Takes self.old out.old out.new result }
        ensures lines { self.new ≡ lines_left (length out.old) self.old }
    {
        let len = usize::from(self.lengths.pop_front()?);
        let count = len.min(out.len());
        self.bytes.read_into(&mut out[..count]);
        if count < len {
            let _ = self.lengths.push_front((len - count) as u16);
        }
        Some(count)
    }
}

//! Comparisons of the queues and frames of two processes.

ghost use Rattle.std.specs.Prelude.{◌≡◌, true};

use posix::{Frame, PendingSignal};
use umach::memory::are_equal;

/// Returns true if two queues have the same signals in the same order.
pub fn are_same_queues(mine: &[PendingSignal], others: &[PendingSignal]) -> bool
    ensures { result ≡ true → mine.now ≡ others.now }
{
    if mine.len() != others.len() {
        return false;
    }
    for place in 0..mine.len() {
        if mine[place] != others[place] {
            return false;
        }
    }
    true
}

/// Returns true if two frames restore the same state.
fn are_same_frames(mine: &Frame, other: &Frame) -> bool
    ensures { result ≡ true → mine.now ≡ other.now }
{
    mine.pc == other.pc && are_equal(&mine.registers, &other.registers) && mine.mask == other.mask
}

/// Returns true if both lists have the same frames in the same order.
pub fn are_all_same_frames(mine: &[Frame], others: &[Frame]) -> bool
    ensures { result ≡ true → mine.now ≡ others.now }
{
    if mine.len() != others.len() {
        return false;
    }
    for place in 0..mine.len() {
        if !are_same_frames(&mine[place], &others[place]) {
            return false;
        }
    }
    true
}

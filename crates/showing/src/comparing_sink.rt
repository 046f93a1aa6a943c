//! A sink that compares what is put with a text.

ghost use Rattle.std.specs.Prelude.{◌≡◌, ◌≢◌, ◌≤◌, ◌<◌, ◌++◌, ℕ, List, true, length, slice_get, take, None, Some};
ghost use Rattle.showing.specs.Comparisons.{Compares, held, line_at as line_of_place, taken_beside};

use trace::{Sink, SinkFault};

/// Returns the length of the common beginning of two slices.
fn count_same(one: &[u8], other: &[u8]) -> usize
    ensures of_one { result ≤ length one.now }
    ensures of_other { result ≤ length other.now }
    ensures same { take result one.now ≡ take result other.now }
    ensures differ { result < length other.now → slice_get one.now result ≢ slice_get other.now result }
{
    let mut count = 0;
    while count < one.len() && count < other.len() && one[count] == other[count] {
        count += 1;
    }
    count
}

/// Returns the number of the line that contains a position of a text. The first line is 1.
fn line_at(text: &[u8], place: usize) -> u64
    requires { place ≤ length text.now }
    ensures { result ≡ line_of_place text.now place }
{
    let mut number = 1;
    for byte in &text[..place] {
        if *byte == b'\n' {
            number += 1;
        }
    }
    number
}

/// A sink that compares what is put with a text, without keeping it. It takes bytes while they equal those of the text,
/// and the first byte that differs or goes beyond its end. After that byte, each put of at least one byte fails.
#[derive(Drop)]
pub struct ComparingSink<'t> {
    text: &'t [u8],
    /// The number of bytes of the text that were put.
    same: usize,
    /// The first byte that differs from the text or goes beyond its end, if one was put.
    other: Option<u8>,
    failures: u64,
    last_failed: bool,
    ghost within: { same ≤ length text.now },
    ghost differs: { (b : ℕ) → other ≡ Some b → slice_get text.now same ≢ Some b },
    ghost failed: { last_failed ≡ true → other ≢ None },
}

impl<'t> ComparingSink<'t> {
    /// Returns a sink into which nothing has been put.
    pub fn new(text: &'t [u8]) -> Self
        ensures text { result.text.now ≡ text.now }
        ensures same { result.same ≡ 0 }
        ensures other { result.other ≡ None }
    {
        ComparingSink {
            text,
            same: 0,
            other: None,
            failures: 0,
            last_failed: false,
        }
    }

    /// Returns the number of the first line in which the text differs from what was put, or `None` if they are the
    /// same.
    pub fn difference(&self) -> Option<u64>
        ensures whole { Compares self.now.text.now (taken_beside self.now.text.now self.now.same self.now.other) result }
        ensures cut_short { self.now.last_failed ≡ true → (rest : List ℕ) → Compares self.now.text.now (taken_beside self.now.text.now self.now.same self.now.other ++ rest) result }
    {
        if self.other.is_none() && self.same == self.text.len() {
            return None;
        }
        Some(line_at(self.text, self.same))
    }
}

impl Sink for ComparingSink<'_> {
    // `seen` includes the text and its length, so that a caller's proof knows that puts don't change the text.
    ghost seen = { λ b. record { taken = Some (held b.text.now b.same b.other); failures = b.failures; last_failed = b.last_failed } };

    fn put(&mut self, bytes: &[u8]) -> Result<usize, SinkFault> {
        if bytes.is_empty() {
            self.last_failed = false;
            return Ok(0);
        }
        self.last_failed = self.other.is_some();
        if self.last_failed {
            self.failures = self.failures.wrapping_add(1);
            return Err(SinkFault);
        }
        let same = count_same(&self.text[self.same..], bytes);
        self.same += same;
        match bytes.get(same) {
            Some(byte) => {
                self.other = Some(*byte);
                Ok(same + 1)
            }
            None => Ok(same),
        }
    }
}

//! An index of processes by key. A process may have no key.

ghost use Rattle.std.specs.Prelude.{◌≡◌, ◌≢◌, ◌+◌, ◌<◌, ◌≤◌, ◌^◌, ◌==◌, ◌&&◌, ◌||◌, ℕ, not, false, true, [], length, Option, OnOk};
ghost use Rattle.pidset.specs.Indexes.{ArePairs, has_within as has_within_keys, IsNextPair, CanReplace, IsReplaced, IsRekeyed, is_pair_in, pair_number};

use crate::gap_vec::GapVec;
use crate::numbered::{Numbered, next_above, search};
use posix::Pid;
use std::alloc::{AllocError, Global};
use std::marker::Model;

/// A process ID with its key. A pair has 16 bytes, because the key of an alarm is a tick.
#[derive(Clone, Copy)]
pub struct Pair {
    /// The key.
    pub key: u64,
    /// The process ID.
    pub pid: Pid,
}

impl Numbered for Pair {
    ghost number = { pair_number };

    fn number(&self) -> u128 {
        u128::from(u64::MAX - self.key) * 4_294_967_296 + u128::from(self.pid.number())
    }
}

/// Returns the pair of a key and a process ID.
fn keyed(key: u64, pid: Pid) -> Pair
    ensures is { result ≡ record { key = key; pid = pid } }
    ensures range { (pid < 4294967296) × (key ≤ 18446744073709551615) }
{
    Pair { key, pid }
}

/// Pairs of a key and a process ID, each once, by falling keys and then by rising IDs.
///
/// The lowest key is last, where insertions and removals move little; for alarms, that is the next one due. Removing
/// the first pair, which has the largest key, moves nothing. Allocates only in [`Index::reserve`].
#[derive(Drop)]
pub struct Index {
    pairs: GapVec<Pair>,
}

impl Model for Index {
    ghost use Rattle.pidset.specs.Indexes.{ArePairs, IndexView};

    ghost Value = { IndexView };

    ghost view = { λ s. record { pairs = s.pairs.items; room = s.pairs.room } };

    ghost invariant = { λ s. ArePairs s.pairs.items };
}

impl Index {
    /// Creates an empty index. Allocates nothing.
    #[tactic(auto, unfolding(crate::specs::Numbers::Rises))]
    pub fn new(alloc: Global) -> Index
        ensures pairs { result.pairs ≡ [] }
        ensures rising { ArePairs result.pairs }
    {
        Index {
            pairs: GapVec::new(alloc),
        }
    }

    /// Makes room for `capacity` pairs, including those present. The pairs are unchanged and the room never shrinks,
    /// even if this fails for lack of memory.
    pub fn reserve(&mut self, capacity: usize) -> Result<(), AllocError>
        requires { capacity < 2 ^ 63 }
        ensures room { OnOk result (capacity ≤ self.new.room) }
        ensures pairs { self.new.pairs ≡ self.old.pairs }
        ensures grows { self.old.room ≤ self.new.room }
    {
        self.pairs.reserve(capacity)
    }

    /// Returns the lowest process ID above `after` with this key.
    #[inline]
    pub fn next(&self, key: u64, after: Pid) -> Option<Pid>
        ensures next { IsNextPair key after self.now.pairs result }
        ensures rising { ArePairs self.now.pairs }
    {
        // Usually the index is empty.
        self.pairs.as_slice().first()?;
        let from = keyed(key, after);
        match next_above(self.pairs.as_slice(), &from) {
            Some(pair) if pair.key == key => Some(pair.pid),
            _ => None,
        }
    }

    /// Returns true if some process has a key from `low` to `high`, inclusive.
    #[inline]
    pub fn has_within(&self, low: u64, high: u64) -> bool
        ensures { result ≡ has_within_keys low high self.now.pairs }
    {
        match next_above(self.pairs.as_slice(), &keyed(high, Pid::NONE)) {
            Some(pair) => low <= pair.key,
            None => false,
        }
    }

    /// Adds a pair of a key and a process, if it is not present.
    pub fn insert(&mut self, key: u64, pid: Pid)
        requires room { is_pair_in key pid self.old.pairs ≡ false → length self.old.pairs < self.old.room }
        requires pid { 1 ≤ pid }
        ensures pairs { (k p : ℕ) → is_pair_in k p self.new.pairs ≡ (k == key && p == pid || is_pair_in k p self.old.pairs) }
        ensures room { self.new.room ≡ self.old.room }
        ensures rising { ArePairs self.new.pairs }
    {
        let pair = keyed(key, pid);
        if let Err(at) = search(self.pairs.as_slice(), &pair) {
            self.pairs.insert(at, pair);
        }
    }

    /// Removes a pair of a key and a process, if present.
    pub fn remove(&mut self, key: u64, pid: Pid)
        ensures pairs { (k p : ℕ) → is_pair_in k p self.new.pairs ≡ (not (k == key && p == pid) && is_pair_in k p self.old.pairs) }
        ensures room { self.new.room ≡ self.old.room }
        ensures left { is_pair_in key pid self.old.pairs ≡ true → length self.new.pairs < self.new.room }
        ensures rising { ArePairs self.new.pairs }
    {
        let pair = keyed(key, pid);
        self.pairs.take_out(&pair);
    }

    /// Changes the key of a process from `old` to `new`. `None` is no key.
    #[inline(always)]
    pub fn replace(&mut self, pid: Pid, old: Option<u64>, new: Option<u64>)
        requires can { CanReplace pid old self.old }
        requires pid { 1 ≤ pid }
        ensures { IsReplaced pid new self.old self.new }
    {
        let _ = &self.pairs;
        if old == new {
            return;
        }
        if let Some(key) = old {
            self.remove(key, pid);
        }
        if let Some(key) = new {
            self.insert(key, pid);
        }
    }

    /// Returns true if there are no pairs.
    #[inline]
    pub fn is_empty(&self) -> bool
        ensures { result ≡ (length self.now.pairs == 0) }
    {
        self.pairs.as_slice().is_empty()
    }

    /// Changes the key of all processes that have key `from` to `to`.
    pub fn rekey(&mut self, from: u64, to: u64)
        requires { from ≢ to }
        ensures { IsRekeyed from to self.old self.new }
    {
        let mut next = self.next(from, Pid::NONE);
        while let Some(pid) = next {
            self.remove(from, pid);
            self.insert(to, pid);
            next = self.next(from, pid);
        }
    }
}

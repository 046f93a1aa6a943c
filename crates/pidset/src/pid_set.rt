//! Sets of process IDs.

ghost use Rattle.std.specs.Prelude.{◌≡◌, ◌<◌, ◌^◌, false, [], length, max, slice_get, OnOk, OnErr, IfOk, IfErr};
ghost use Rattle.posix.specs.Common.{is_in, without};
ghost use Rattle.pidset.specs.Numbers.{Rises, with_number, numbers_above, IsNumberAt, IsInsertionPoint};

use crate::gap_vec::GapVec;
use crate::numbered::{next_above, search};
use posix::Pid;
use std::alloc::{AllocError, Global};
use std::marker::Model;

/// A set of process IDs, in rising order. Removing the lowest ID moves nothing; insertions and other removals move the
/// higher IDs. Allocates only in [`PidSet::reserve`].
#[derive(Drop)]
pub struct PidSet {
    pids: GapVec<Pid>,
}

impl Model for PidSet {
    ghost use Rattle.pidset.specs.Numbers.{PidSetView, Rises};

    ghost Value = { PidSetView };

    ghost view = { λ s. record { pids = s.pids.items; room = s.pids.room } };

    ghost invariant = { λ s. Rises s.pids.items };
}

impl PidSet {
    /// Creates an empty set. Allocates nothing.
    #[tactic(auto, unfolding(crate::specs::Numbers::Rises))]
    pub fn new(alloc: Global) -> PidSet
        ensures { result ≡ record { pids = []; room = 0 } }
    {
        PidSet {
            pids: GapVec::new(alloc),
        }
    }

    /// Makes room for `capacity` IDs, including those present. If it grows, it has room for exactly that many. The IDs
    /// are unchanged. If this fails for lack of memory, nothing changes.
    pub fn reserve(&mut self, capacity: usize) -> Result<(), AllocError>
        requires { capacity < 2 ^ 63 }
        ensures room { OnOk result (self.new.room ≡ max self.old.room capacity) }
        ensures pids { self.new.pids ≡ self.old.pids }
        ensures err { OnErr result (self.new ≡ self.old) }
    {
        self.pids.reserve_exact(capacity)
    }

    /// Returns how many IDs there is room for, including those present.
    pub fn room(&self) -> usize
        ensures { result ≡ self.now.room }
    {
        self.pids.room()
    }

    /// Returns the index of an ID, or the index where it would be inserted.
    fn search(&self, pid: Pid) -> Result<usize, usize>
        ensures found { IfOk result (IsNumberAt self.now.pids pid) }
        ensures absent { IfErr result (IsInsertionPoint self.now.pids pid) }
        ensures rising { Rises self.now.pids }
    {
        search(self.pids.as_slice(), &pid)
    }

    /// Returns the lowest ID.
    pub fn first(&self) -> Option<Pid>
        ensures is { result ≡ slice_get self.now.pids 0 }
        ensures rising { Rises self.now.pids }
    {
        self.pids.as_slice().first().copied()
    }

    /// Returns the lowest ID above `after`.
    pub fn next_above(&self, after: Pid) -> Option<Pid>
        ensures is { result ≡ slice_get (numbers_above after self.now.pids) 0 }
        ensures rising { Rises self.now.pids }
    {
        next_above(self.pids.as_slice(), &after).copied()
    }

    /// Adds an ID, if it is not present.
    pub fn insert(&mut self, pid: Pid)
        requires room { is_in pid self.old.pids ≡ false → length self.old.pids < self.old.room }
        ensures pids { self.new.pids ≡ with_number pid self.old.pids }
        ensures room { self.new.room ≡ self.old.room }
    {
        if let Err(at) = self.search(pid) {
            self.pids.insert(at, pid);
        }
    }

    /// Removes an ID, if present.
    #[tactic(auto, using(crate::proofs::NumberLemmas::rises_filter), unfolding(posix::specs::States::without))]
    pub fn remove(&mut self, pid: Pid)
        ensures pids { self.new.pids ≡ without pid self.old.pids }
        ensures room { self.new.room ≡ self.old.room }
    {
        self.pids.take_out(&pid);
    }

    /// Removes all IDs.
    #[tactic(auto, unfolding(crate::specs::Numbers::Rises))]
    pub fn clear(&mut self)
        ensures pids { self.new.pids ≡ [] }
        ensures room { self.new.room ≡ self.old.room }
    {
        self.pids.clear();
    }
}

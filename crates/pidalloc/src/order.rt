//! The run queue.

ghost use Rattle.std.specs.Prelude.{ℕ, ◌≡◌, ◌+◌, ◌≤◌, ◌==◌, cond, true, false, [], ◌∷◌, ◌++◌, length, slice_get, OnOk};
ghost use Rattle.posix.specs.Common.{is_in, without, IsDistinct};
ghost use Rattle.pidset.specs.Rows.{Grows, HasRoom, HasRow, IsOnAnotherPage, sizes_without};
ghost use Rattle.pidalloc.specs.Places.{next_behind};
ghost use Rattle.pidalloc.specs.Rings.{IsJoined};

use pidset::Rows;
use posix::Pid;
use std::alloc::{AllocError, Global};
use std::marker::Model;

/// The processes before and after a process in the run queue. The first comes after the last.
#[derive(Clone, Copy)]
struct Node {
    prev: Pid,
    next: Pid,
}

impl Node {
    /// The node of a process that isn't in the run queue.
    const NOWHERE: Node = Node {
        prev: Pid::NONE,
        next: Pid::NONE,
    };
}

/// The run queue: process IDs in order. The first is the current process (own).
///
/// The nodes are a ring, so the last process is found from the first. Allocates only in [`Order::reserve`].
#[derive(Drop)]
pub struct Order {
    nodes: Rows<Node>,
    /// The current process; 0 for none.
    first: Pid,
    len: usize,
}

impl Model for Order {
    ghost use Rattle.pidset.specs.Rows.{sizes_of};
    ghost use Rattle.pidalloc.specs.Places.{Places};
    ghost use Rattle.pidalloc.specs.Rings.{IsKept, read_off};

    ghost Value = { Places };

    ghost view = { λ o. record { pids = read_off o.len o.nodes o.first; sizes = sizes_of o.nodes } };

    ghost invariant = { λ o. IsKept o.nodes o.first (read_off o.len o.nodes o.first) };
}

impl Order {
    /// Creates an empty run queue. Allocates nothing.
    #[tactic(auto, using(crate::proofs::RingLemmas::kept_new), unfolding(crate::specs::Rings::read_off))]
    pub fn new(alloc: Global) -> Order
        ensures { result ≡ record { pids = []; sizes = [] } }
    {
        Order {
            nodes: Rows::new(alloc),
            first: Pid::NONE,
            len: 0,
        }
    }

    /// Makes room for the process with an ID. The run queue is unchanged and all room stays, even if this fails for
    /// lack of memory.
    #[inline]
    pub fn reserve(&mut self, pid: Pid) -> Result<(), AllocError>
        ensures room { OnOk result (HasRoom self.new.sizes pid) }
        ensures grows { Grows self.old.sizes self.new.sizes }
        ensures pids { self.new.pids ≡ self.old.pids }
    {
        self.nodes.reserve(pid, Node::NOWHERE)
    }

    /// Frees the room for an ID and for all others on its page of 1,024 IDs. None of them may be in the run queue.
    pub fn give_up_page(&mut self, pid: Pid)
        requires { (p : ℕ) → is_in p self.old.pids ≡ true → IsOnAnotherPage p pid }
        ensures { self.new ≡ record { pids = self.old.pids; sizes = sizes_without self.old.sizes pid } }
    {
        self.nodes.give_up_page(pid);
    }

    /// Returns the number of processes in the run queue. Each is in it once.
    #[tactic(auto, using(crate::proofs::LinkLemmas::read_length))]
    pub fn len(&self) -> usize
        ensures value { result ≡ length self.now.pids }
        ensures distinct { IsDistinct self.now.pids }
    {
        self.len
    }

    /// Returns the current process, the first in the run queue.
    #[inline]
    pub fn current(&self) -> Option<Pid>
        ensures { result ≡ slice_get self.now.pids 0 }
    {
        if self.first == Pid::NONE {
            None
        } else {
            Some(self.first)
        }
    }

    /// Returns the process after another; `None` after the last one, or if the other isn't in the run queue.
    pub fn behind(&self, pid: Pid) -> Option<Pid>
        ensures { result ≡ next_behind pid self.now.pids }
    {
        if !self.has(pid) {
            return None;
        }
        let next = self.nodes.get(pid).next;
        if next == self.first { None } else { Some(next) }
    }

    /// Returns true if both run queues have the same processes in the same order.
    pub fn is_same(&self, other: &Order) -> bool
        ensures { result ≡ true → self.now.pids ≡ other.now.pids }
    {
        let len = self.len();
        if other.len() != len {
            return false;
        }
        let mut here = self.current();
        let mut there = other.current();
        for index in 0..len {
            let (Some(mine), Some(theirs)) = (here, there) else {
                return false;
            };
            if mine != theirs {
                return false;
            }
            here = self.behind(mine);
            there = other.behind(theirs);
        }
        true
    }

    /// Returns true if a process is in the run queue.
    #[inline]
    pub fn has(&self, pid: Pid) -> bool
        ensures { result ≡ is_in pid self.now.pids }
    {
        self.nodes.has(pid) && self.nodes.get(pid).next != Pid::NONE
    }

    /// Adds a process to the end of the run queue.
    #[inline]
    pub fn place(&mut self, pid: Pid)
        requires some { 1 ≤ pid }
        requires room { HasRoom self.old.sizes pid }
        requires none { is_in pid self.old.pids ≡ false }
        ensures pids { self.new.pids ≡ self.old.pids ++ pid ∷ [] }
        ensures sizes { self.new.sizes ≡ self.old.sizes }
    {
        self.len += 1;
        if self.first == Pid::NONE {
            self.first = pid;
            join(&mut self.nodes, pid, pid);
        } else {
            let last = self.nodes.get(self.first).prev;
            join(&mut self.nodes, last, pid);
            join(&mut self.nodes, pid, self.first);
        }
    }

    /// Removes a process from the run queue, if present.
    #[inline]
    pub fn drop_place(&mut self, pid: Pid)
        ensures pids { self.new.pids ≡ without pid self.old.pids }
        ensures sizes { self.new.sizes ≡ self.old.sizes }
    {
        if !self.has(pid) {
            return;
        }
        let Node { prev, next } = self.nodes.get(pid);
        join(&mut self.nodes, prev, next);
        self.nodes.set(pid, Node::NOWHERE);
        self.len -= 1;
        self.first = first_without(self.first, pid, next);
    }

    /// Moves a process to the end of the run queue. If it is the current process, the next process becomes the first of
    /// the ring, and no node changes.
    #[inline]
    pub fn go_last(&mut self, pid: Pid)
        requires { is_in pid self.old.pids ≡ true }
        ensures pids { self.new.pids ≡ without pid self.old.pids ++ pid ∷ [] }
        ensures sizes { self.new.sizes ≡ self.old.sizes }
    {
        if pid == self.first {
            self.first = self.nodes.get(pid).next;
        } else {
            self.drop_place(pid);
            self.place(pid);
        }
    }
}

/// Returns the first process after `pid` has left the run queue. `next` came after `pid`.
#[inline]
fn first_without(first: Pid, pid: Pid, next: Pid) -> Pid
    ensures { result ≡ cond (pid == first) (cond (next == pid) 0 next) first }
{
    if pid != first {
        first
    } else if next == pid {
        Pid::NONE
    } else {
        next
    }
}

/// Makes `next` the process after `prev`.
#[inline]
fn join(nodes: &mut Rows<Node>, prev: Pid, next: Pid)
    requires prev_inside { HasRow nodes.old prev }
    requires next_inside { HasRow nodes.old next }
    ensures { IsJoined nodes.old nodes.new prev next }
{
    let mut node = nodes.get(prev);
    node.next = next;
    nodes.set(prev, node);
    let mut node = nodes.get(next);
    node.prev = prev;
    nodes.set(next, node);
}

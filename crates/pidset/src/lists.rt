//! Doubly linked lists of processes, such as the members of process groups. Each list has an ID, and nodes are found by
//! ID.

ghost use Rattle.std.specs.Prelude.{◌≡◌, ◌≢◌, ◌<◌, ◌≤◌, ◌==◌, ℕ, [], IfSome, OnOk, cond};
ghost use Rattle.pidset.specs.Indexes.{ArePairsRekeyed, IsNextPair, IsMoved, IsAt};
ghost use Rattle.pidset.specs.Rows.{Grows, HasRoom, HasRow, sizes_of};
ghost use Rattle.pidset.specs.Lists.{AreLinked, IsPageUnused, without_page_of, IsAbove, IsListed, IsPlaceFor, IsFrom, node_of, list_of, behind_of, before_of, with_place, with_behind, with_before};

use crate::rows::Rows;
use posix::Pid;
use std::alloc::{AllocError, Global};
use std::marker::Model;

/// The node of an ID: the position of the process with this ID, and the ends of the list with this ID.
#[derive(Clone, Copy)]
struct Node {
    /// The list that contains the process; 0 if none does.
    list: Pid,
    /// The previous process in that list; 0 if there is none.
    before: Pid,
    /// The next process in that list; 0 if there is none.
    behind: Pid,
    /// The first process in the list with this ID; 0 if it is empty.
    first: Pid,
    /// The last process in the list with this ID; 0 if it is empty.
    last: Pid,
}

impl Node {
    /// The node of a process in no list, and of an empty list.
    const NOWHERE: Node = Node {
        list: Pid::NONE,
        before: Pid::NONE,
        behind: Pid::NONE,
        first: Pid::NONE,
        last: Pid::NONE,
    };
}

/// Lists of processes: each process is in at most one, and each list is in rising order. Each ID of a process or a list
/// needs a node. Allocates only in [`Lists::reserve`].
#[derive(Drop)]
pub struct Lists {
    nodes: Rows<Node>,
}

impl Model for Lists {
    ghost use Rattle.pidset.specs.Lists.{AreLinked, ListsView, pairs_in};
    ghost use Rattle.pidset.specs.Rows.{sizes_of};

    ghost Value = { ListsView };

    ghost view = { λ s. record { pairs = pairs_in s.nodes; sizes = sizes_of s.nodes } };

    ghost invariant = { λ s. AreLinked s.nodes };
}

impl Lists {
    /// Creates lists without processes. Allocates nothing.
    #[tactic(auto, unfolding(crate::specs::Lists::pairs_in, crate::specs::Lists::node_of, crate::specs::Lists::list_of, crate::specs::Lists::behind_of, crate::specs::Lists::before_of))]
    pub fn new(alloc: Global) -> Lists
        ensures { result ≡ record { pairs = []; sizes = [] } }
    {
        Lists {
            nodes: Rows::new(alloc),
        }
    }

    /// Makes room for the node of an ID. The lists are unchanged and all room stays, even if this fails for lack of
    /// memory.
    #[inline]
    pub fn reserve(&mut self, pid: Pid) -> Result<(), AllocError>
        ensures room { OnOk result (HasRoom self.new.sizes pid) }
        ensures grows { Grows self.old.sizes self.new.sizes }
        ensures pairs { self.new.pairs ≡ self.old.pairs }
    {
        self.nodes.reserve(pid, Node::NOWHERE)
    }

    /// Frees the room for an ID and for all others on its page of 1,024 IDs. None of them may be in a list, or be the
    /// ID of a list that contains a process.
    pub fn give_up_page(&mut self, pid: Pid)
        requires { IsPageUnused pid self.old.pairs }
        ensures { self.new ≡ without_page_of pid self.old }
    {
        self.nodes.give_up_page(pid);
    }

    /// Returns the lowest process ID above `after` in a list.
    #[inline]
    pub fn next(&self, list: Pid, after: Pid) -> Option<Pid>
        ensures { IsNextPair list after self.now.pairs result }
    {
        if list == Pid::NONE || !self.nodes.has(list) {
            return None;
        }
        let mut next = next_near(&self.nodes, list, after);
        while next != Pid::NONE && next <= after {
            next = behind(&self.nodes, list, next);
        }
        if next == Pid::NONE { None } else { Some(next) }
    }

    /// Returns the list that contains a process.
    #[inline]
    pub fn list(&self, pid: Pid) -> Option<Pid>
        ensures { IsAt pid result self.now.pairs }
    {
        if !self.nodes.has(pid) {
            return None;
        }
        let list = list_at(&self.nodes, pid);
        if list == Pid::NONE { None } else { Some(list) }
    }

    /// Moves a process to a list, or to none.
    #[inline]
    pub fn put(&mut self, pid: Pid, list: Option<Pid>)
        requires pid { (1 ≤ pid) × HasRoom self.old.sizes pid }
        requires list { IfSome list (λ k. (1 ≤ k) × HasRoom self.old.sizes k) }
        ensures moved { IsMoved pid list self.old.pairs self.new.pairs }
        ensures sizes { self.new.sizes ≡ self.old.sizes }
    {
        let new = list.unwrap_or(Pid::NONE);
        if list_at(&self.nodes, pid) == new {
            return;
        }
        take_out(&mut self.nodes, pid);
        if new != Pid::NONE {
            put_in(&mut self.nodes, new, pid, Pid::NONE);
        }
    }

    /// Moves all processes in one list to another. The cost is that of walking both lists once.
    #[inline]
    pub fn rekey(&mut self, from: Pid, to: Pid)
        requires apart { from ≢ to }
        requires from { (1 ≤ from) × HasRoom self.old.sizes from }
        requires to { (1 ≤ to) × HasRoom self.old.sizes to }
        ensures pairs { ArePairsRekeyed from to self.old.pairs self.new.pairs }
        ensures sizes { self.new.sizes ≡ self.old.sizes }
    {
        move_all(&mut self.nodes, from, to);
    }
}

/// Returns the node of an ID.
#[inline(always)]
#[tactic(auto, unfolding(crate::specs::Lists::node_of))]
fn node_at(nodes: &Rows<Node>, pid: Pid) -> Node
    requires { HasRow nodes.now pid }
    ensures { result ≡ node_of nodes.now pid }
{
    nodes.get(pid)
}

/// Returns the list that contains a process; 0 if none does.
#[inline]
#[tactic(auto, unfolding(crate::specs::Lists::list_of))]
fn list_at(nodes: &Rows<Node>, pid: Pid) -> Pid
    requires { HasRow nodes.now pid }
    ensures { result ≡ list_of nodes.now pid }
{
    node_at(nodes, pid).list
}

/// Returns the process after `at` in a list, or the first if `at` is 0; 0 if there is none.
#[inline]
#[tactic(auto, unfolding(crate::specs::Lists::behind_of))]
fn behind(nodes: &Rows<Node>, list: Pid, at: Pid) -> Pid
    requires list_inside { HasRow nodes.now list }
    requires at_inside { at ≢ 0 → HasRow nodes.now at }
    ensures { result ≡ behind_of nodes.now list at }
{
    if at == Pid::NONE {
        node_at(nodes, list).first
    } else {
        node_at(nodes, at).behind
    }
}

/// Returns the process before `at` in a list, or the last if `at` is 0; 0 if there is none.
#[inline]
#[tactic(auto, unfolding(crate::specs::Lists::before_of))]
fn before(nodes: &Rows<Node>, list: Pid, at: Pid) -> Pid
    requires list_inside { HasRow nodes.now list }
    requires at_inside { at ≢ 0 → HasRow nodes.now at }
    ensures { result ≡ before_of nodes.now list at }
{
    if at == Pid::NONE {
        node_at(nodes, list).last
    } else {
        node_at(nodes, at).before
    }
}

/// Sets the list of a process, and the processes before and after it there.
#[inline]
#[tactic(auto, unfolding(crate::specs::Lists::with_place))]
fn set_place(nodes: &mut Rows<Node>, pid: Pid, list: Pid, before: Pid, behind: Pid)
    requires { HasRow nodes.old pid }
    ensures { nodes.new ≡ with_place nodes.old pid list before behind }
{
    let node = Node {
        list,
        before,
        behind,
        ..node_at(nodes, pid)
    };
    nodes.set(pid, node);
}

/// Makes `to` the process after `at` in a list, or the first if `at` is 0.
#[inline]
#[tactic(auto, unfolding(crate::specs::Lists::with_behind))]
fn set_behind(nodes: &mut Rows<Node>, list: Pid, at: Pid, to: Pid)
    requires list_inside { HasRow nodes.old list }
    requires at_inside { at ≢ 0 → HasRow nodes.old at }
    ensures { nodes.new ≡ with_behind nodes.old list at to }
{
    if at == Pid::NONE {
        let mut node = node_at(nodes, list);
        node.first = to;
        nodes.set(list, node);
    } else {
        let mut node = node_at(nodes, at);
        node.behind = to;
        nodes.set(at, node);
    }
}

/// Makes `to` the process before `at` in a list, or the last if `at` is 0.
#[inline]
#[tactic(auto, unfolding(crate::specs::Lists::with_before))]
fn set_before(nodes: &mut Rows<Node>, list: Pid, at: Pid, to: Pid)
    requires list_inside { HasRow nodes.old list }
    requires at_inside { at ≢ 0 → HasRow nodes.old at }
    ensures { nodes.new ≡ with_before nodes.old list at to }
{
    if at == Pid::NONE {
        let mut node = node_at(nodes, list);
        node.last = to;
        nodes.set(list, node);
    } else {
        let mut node = node_at(nodes, at);
        node.before = to;
        nodes.set(at, node);
    }
}

/// Returns where to start looking for the lowest ID above `after` in a list: after `after` if it is in the list,
/// otherwise at the first.
#[inline]
fn next_near(nodes: &Rows<Node>, list: Pid, after: Pid) -> Pid
    requires linked { AreLinked nodes.now }
    requires list { (1 ≤ list) × HasRow nodes.now list }
    ensures { IsFrom nodes.now list after result }
{
    if nodes.has(after) && list_at(nodes, after) == list {
        behind(nodes, list, after)
    } else {
        behind(nodes, list, Pid::NONE)
    }
}

/// Returns the process after which `pid` belongs in a list; 0 if it belongs first. Searches backwards from `above`,
/// which is in the list and has a higher ID, or from the end if `above` is 0.
#[tactic(auto, using(crate::proofs::LinkLemmas::inside))]
fn place_for(nodes: &Rows<Node>, list: Pid, pid: Pid, above: Pid) -> Pid
    requires linked { AreLinked nodes.now }
    requires list { (1 ≤ list) × HasRow nodes.now list }
    requires pid { (1 ≤ pid) × HasRow nodes.now pid }
    requires apart { list_of nodes.now pid ≡ 0 }
    requires above { IsAbove nodes.now list pid above }
    ensures { IsPlaceFor nodes.now list pid result (behind_of nodes.now list result) }
{
    // Usually it belongs right before `above`.
    let mut at = before(nodes, list, above);
    while pid < at {
        at = before(nodes, list, at);
    }
    at
}

/// Removes a process from the list that contains it, if one does.
#[inline]
#[tactic(auto, using(crate::proofs::LinkLemmas::list_inside))]
fn take_out(nodes: &mut Rows<Node>, pid: Pid)
    requires linked { AreLinked nodes.old }
    requires pid { (1 ≤ pid) × HasRow nodes.old pid }
    ensures { IsListed nodes.old nodes.new pid 0 }
{
    let list = list_at(nodes, pid);
    if list == Pid::NONE {
        return;
    }
    let before = before(nodes, list, pid);
    let behind = behind(nodes, list, pid);
    set_behind(nodes, list, before, behind);
    set_before(nodes, list, behind, before);
    set_place(nodes, pid, Pid::NONE, before, behind);
}

/// Adds a process that is in no list to one. `above` is in that list and has a higher ID, or is 0.
#[inline]
fn put_in(nodes: &mut Rows<Node>, list: Pid, pid: Pid, above: Pid)
    requires linked { AreLinked nodes.old }
    requires list { (1 ≤ list) × HasRow nodes.old list }
    requires pid { (1 ≤ pid) × HasRow nodes.old pid }
    requires apart { list_of nodes.old pid ≡ 0 }
    requires above { IsAbove nodes.old list pid above }
    ensures { IsListed nodes.old nodes.new pid list }
{
    let before = place_for(nodes, list, pid, above);
    let behind = behind(nodes, list, before);
    set_behind(nodes, list, before, pid);
    set_before(nodes, list, behind, pid);
    set_place(nodes, pid, list, before, behind);
}

/// Moves all processes in one list to another.
#[tactic(auto, using(crate::proofs::LinkLemmas::inside))]
fn move_all(nodes: &mut Rows<Node>, from: Pid, to: Pid)
    requires linked { AreLinked nodes.old }
    requires apart { from ≢ to }
    requires from { (1 ≤ from) × HasRow nodes.old from }
    requires to { (1 ≤ to) × HasRow nodes.old to }
    ensures list { (i : ℕ) → list_of nodes.new i ≡ cond (list_of nodes.old i == from) to (list_of nodes.old i) }
    ensures linked { AreLinked nodes.new }
    ensures sizes { sizes_of nodes.new ≡ sizes_of nodes.old }
{
    // The last process moved has a higher ID, so the search for each place starts from it.
    let mut above = Pid::NONE;
    let mut next = before(nodes, from, Pid::NONE);
    while next != Pid::NONE {
        take_out(nodes, next);
        put_in(nodes, to, next, above);
        above = next;
        next = before(nodes, from, Pid::NONE);
    }
}

//! States, and the beginnings of schedules that lead to them.

ghost use Rattle.std.specs.Prelude.{◌≡◌, ◌+◌, ◌<◌, ◌≤◌, ◌^◌, ◌==◌, [], ℕ, Some, cond, length, map, true, IfOk, OnOk};
ghost use Rattle.posix.specs.Common.{boot, IsRegular, IsSettled};
ghost use Rattle.text.specs.EventTexts.{most_events};
ghost use Rattle.schedules.specs.Families.{kinds_of as all_kinds};
ghost use Rattle.counting.specs.Courses.{course_from};
ghost use Rattle.counting.specs.Texts.{unmarked};
ghost use Rattle.merging.specs.Merging.{AreAlike, AreOneState, IsFresh, IsSameNode, edge_at, kind_at, left_at, marks_after, point, seen, state_after};

use crate::begun::{Beginnings, Begun};
use crate::search::Search;
use arrayvec::ArrayVec;
use counting::{Line, mark, run_all, run_one};
use kernel::Kernel;
use posix::Event;
use schedules::MOST_LOOSE;
use std::alloc::{AllocError, Global};
use std::mem::replace;
use text::{EventList, World};

/// The kinds of loose events, from 1.
pub type Kinds = ArrayVec<u8, MOST_LOOSE>;

/// A state of a machine, and the beginnings of schedules that lead to it.
#[derive(Drop)]
pub struct Node {
    /// The machine, in this state.
    pub kernel: Kernel,
    /// The kinds of the loose events that the beginnings have not inserted.
    pub left: Kinds,
    /// For each text, whether a line has it.
    pub marks: Vec<bool>,
    /// The beginnings that can go on with insertions.
    pub begun: Beginnings,
    /// The beginnings that have made all their insertions before the next event.
    pub passed: Beginnings,
    /// For each insertion, the index of the node that it leads to, once that is known.
    pub edges: Vec<Option<usize>>,
}

/// Returns a kernel after these events, from the start of its world. Fails if memory runs out, also for a call of a
/// process.
fn kernel_after(
    alloc: Global,
    world: &World,
    events: &EventList,
    lines: &mut Vec<Line>,
) -> Result<Kernel, AllocError>
    requires { length events.now ≤ most_events }
    ensures state { IfOk result (λ kernel. kernel.state ≡ (course_from 1 (boot world.now) events.now).last) }
    ensures events { IfOk result (λ kernel. kernel.events ≤ length events.now) }
    ensures regular { IfOk result (λ kernel. IsRegular kernel.state) }
    ensures settled { IfOk result (λ kernel. IsSettled kernel.state) }
{
    lines.clear();
    let mut kernel = Kernel::boot(alloc, world)?;
    match run_all(&mut kernel, events, lines) {
        Ok(_) => Ok(kernel),
        Err(e) => {
            drop(kernel);
            Err(e)
        }
    }
}

/// Runs an event, and marks the texts that its lines have.
fn give(
    kernel: &mut Kernel,
    event: Event,
    texts: &[&str],
    marks: &mut [bool],
    lines: &mut Vec<Line>,
) -> Result<(), AllocError>
    requires few { kernel.old.events < most_events }
    ensures state { OnOk result (kernel.new.state ≡ state_after event kernel.old.state) }
    ensures events { OnOk result (kernel.new.events ≡ kernel.old.events + 1) }
    ensures marks { OnOk result (marks.new ≡ marks_after (map (λ t. t.now) texts.now) event kernel.old.state marks.old) }
    ensures regular { OnOk result (IsRegular kernel.new.state) }
    ensures settled { OnOk result (IsSettled kernel.new.state) }
{
    lines.clear();
    run_one(kernel, event, lines)?;
    mark(texts, lines.as_slice(), marks);
    Ok(())
}

/// Returns true if two machines were found to be in the same state of a world, or in states that differ only in time.
/// States in which the machine has halted are one, because nothing more happens in them.
fn are_one(kernel: &mut Kernel, other: &mut Kernel) -> bool
    requires world { kernel.old.state.world ≡ other.old.state.world }
    ensures one { result ≡ true → AreOneState kernel.old.state other.old.state }
    ensures same { (kernel.new.state ≡ kernel.old.state) × (kernel.new.events ≡ kernel.old.events) }
    ensures other { (other.new.state ≡ other.old.state) × (other.new.events ≡ other.old.events) }
{
    (kernel.is_halted() && other.is_halted()) || kernel.is_moved(other)
}

/// Returns the kinds of this many loose events.
fn kinds_of(loose: usize) -> Kinds
    requires { loose ≤ MOST_LOOSE }
    ensures { result.items ≡ all_kinds loose }
{
    let mut kinds = Kinds::new();
    for kind in 0..loose {
        kinds.push(kind as u8 + 1);
    }
    kinds
}

/// Returns the kinds that are left after an insertion: all of them after a tick, which is 0.
fn kinds_without(kinds: &[u8], which: usize) -> Kinds
    requires few { length kinds.now ≤ MOST_LOOSE }
    requires which { which ≤ length kinds.now }
    ensures { result.items ≡ left_at which kinds.now }
{
    let mut left = Kinds::new();
    let _ = left.try_extend_from_slice(kinds);
    if which > 0 {
        let _ = left.remove(which - 1);
    }
    left
}

impl Node {
    /// Returns the node at the start of a world, with this many loose events to insert. It has no beginnings.
    pub fn first(
        alloc: Global,
        world: &World,
        loose: usize,
        texts: &[&str],
    ) -> Result<Node, AllocError>
        requires { loose ≤ MOST_LOOSE }
        ensures state { IfOk result (λ n. n.kernel.state ≡ boot world.now) }
        ensures regular { IfOk result (λ n. IsRegular n.kernel.state) }
        ensures settled { IfOk result (λ n. IsSettled n.kernel.state) }
        ensures events { IfOk result (λ n. n.kernel.events ≡ 0) }
        ensures left { IfOk result (λ n. n.left.items ≡ all_kinds loose) }
        ensures marks { IfOk result (λ n. n.marks.items ≡ unmarked (map (λ t. t.now) texts.now)) }
        ensures fresh { IfOk result (λ n. IsFresh (seen n)) }
    {
        let marks = vec![in alloc; false; texts.len()]?;
        Ok(Node {
            kernel: Kernel::boot(alloc, world)?,
            left: kinds_of(loose),
            marks,
            begun: Beginnings::new(alloc),
            passed: Beginnings::new(alloc),
            edges: Vec::new(alloc),
        })
    }

    /// Returns the kind of an insertion: a tick, for 0, or one of the loose events that are left, by its index from 1.
    pub fn kind(&self, which: usize) -> u8
        requires { which ≤ length self.now.left.items }
        ensures { result ≡ kind_at which self.now.left.items }
    {
        if which == 0 {
            return 0;
        }
        self.left[which - 1]
    }

    /// Returns the node after an insertion, which is this event, without beginnings. Its kernel is booted, and runs the
    /// events of these beginnings again. Copying a kernel would fill as many tables.
    pub fn after(
        &self,
        begun: &Begun,
        which: usize,
        event: Event,
        search: &Search<'_, '_, '_>,
        lines: &mut Vec<Line>,
    ) -> Result<Node, AllocError>
        requires which { which ≤ length self.now.left.items }
        requires given { length begun.now.given < most_events }
        ensures fresh { IfOk result (λ n. IsFresh (seen n)) }
        ensures events { IfOk result (λ n. n.kernel.events ≤ length begun.now.given + 1) }
        ensures state { IfOk result (λ n. n.kernel.state ≡ state_after event (course_from 1 (boot search.now.family.now.world.now) begun.now.given).last) }
        ensures left { IfOk result (λ n. n.left.items ≡ left_at which self.now.left.items) }
        ensures marks { IfOk result (λ n. n.marks.items ≡ marks_after (map (λ t. t.now) search.now.texts.now) event (course_from 1 (boot search.now.family.now.world.now) begun.now.given).last self.now.marks.items) }
        ensures regular { IfOk result (λ n. IsRegular n.kernel.state) }
        ensures settled { IfOk result (λ n. IsSettled n.kernel.state) }
    {
        let alloc = search.alloc;
        let marks = Vec::from_slice(alloc, self.marks.as_slice())?;
        let kernel = kernel_after(alloc, search.family.world, &begun.given, lines)?;
        let mut node = Node {
            kernel,
            left: kinds_without(self.left.as_slice(), which),
            marks,
            begun: Beginnings::new(alloc),
            passed: Beginnings::new(alloc),
            edges: Vec::new(alloc),
        };
        match node.give(event, search.texts, lines) {
            Ok(()) => Ok(node),
            Err(e) => {
                drop(node);
                Err(e)
            }
        }
    }

    /// Runs one more event.
    pub fn give(
        &mut self,
        event: Event,
        texts: &[&str],
        lines: &mut Vec<Line>,
    ) -> Result<(), AllocError>
        requires few { self.old.kernel.events < most_events }
        ensures state { OnOk result (self.new.kernel.state ≡ state_after event self.old.kernel.state) }
        ensures regular { OnOk result (IsRegular self.new.kernel.state) }
        ensures settled { OnOk result (IsSettled self.new.kernel.state) }
        ensures events { OnOk result (self.new.kernel.events ≡ self.old.kernel.events + 1) }
        ensures marks { OnOk result (self.new.marks.items ≡ marks_after (map (λ t. t.now) texts.now) event self.old.kernel.state self.old.marks.items) }
        ensures left { self.new.left ≡ self.old.left }
        ensures begun { self.new.begun ≡ self.old.begun }
        ensures passed { self.new.passed ≡ self.old.passed }
        ensures edges { self.new.edges ≡ self.old.edges }
    {
        give(
            &mut self.kernel,
            event,
            texts,
            self.marks.as_mut_slice(),
            lines,
        )
    }

    /// Removes and returns the beginnings that have passed. The node has no beginnings then, and it is not known where it
    /// leads.
    pub fn take_passed(&mut self, alloc: Global) -> Beginnings
        ensures begun { result ≡ self.old.passed }
        ensures point { point self.new ≡ point self.old }
        ensures events { self.new.kernel.events ≡ self.old.kernel.events }
        ensures fresh { IsFresh (seen self.new) }
    {
        self.begun = Beginnings::new(alloc);
        self.edges = Vec::new(alloc);
        replace(&mut self.passed, Beginnings::new(alloc))
    }

    /// Returns true if two nodes were found to be one: the same state of a world, with the same loose events left and
    /// the same marks.
    pub fn is_one(&mut self, other: &mut Node) -> bool
        requires world { self.old.kernel.state.world ≡ other.old.kernel.state.world }
        ensures one { result ≡ true → AreAlike (point self.old) (point other.old) }
        ensures same { IsSameNode self.old self.new }
        ensures other { IsSameNode other.old other.new }
    {
        self.left.as_slice() == other.left.as_slice()
            && self.marks.as_slice() == other.marks.as_slice()
            && are_one(&mut self.kernel, &mut other.kernel)
    }

    /// Returns the index of the node that an insertion leads to, if that is known.
    pub fn edge(&self, which: usize) -> Option<usize>
        ensures { result ≡ edge_at self.now.edges.items which }
    {
        self.edges.get(which).copied().flatten()
    }

    /// Notes the index of the node that an insertion leads to.
    pub fn set_edge(&mut self, which: usize, index: usize) -> Result<(), AllocError>
        ensures edges { (w : ℕ) → OnOk result (edge_at self.new.edges.items w ≡ cond (w == which) (Some index) (edge_at self.old.edges.items w)) }
        ensures rest { OnOk result (seen self.new ≡ record (seen self.old) { edges = self.new.edges.items }) }
    {
        while self.edges.len() <= which {
            self.edges.push(None)?;
        }
        self.edges[which] = Some(index);
        Ok(())
    }
}

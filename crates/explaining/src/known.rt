//! What the lines of a trace have shown about the processes so far.

use posix::Pid;
use std::alloc::{AllocError, Global};
use std::collections::BTreeMap;
use wording::Prose;

/// What the lines so far have shown about a process ID.
#[derive(Clone, Copy, Default)]
struct Told {
    /// It forked or was forked, and has not terminated since.
    lives: bool,
    /// It has called `sigqueue` successfully.
    queues: bool,
    is_marked: bool,
    parent: Option<Pid>,
    /// The indexes of its first and last child in [`Known`].
    first: Option<usize>,
    last: Option<usize>,
}

/// An entry in the list of a process's children. The child may have terminated or been reparented since.
#[derive(Clone, Copy)]
struct Child {
    pid: Pid,
    next: Option<usize>,
}

/// What the lines so far have shown about each process ID.
#[derive(Drop)]
pub struct Known {
    told: BTreeMap<u32, Told>,
    /// The children of each process except 1, in the order in which it got them.
    children: Vec<Child>,
    /// True after the first `subreaper` line. Before it, there are no child subreapers to look for.
    may_be_marked: bool,
}

impl Known {
    /// Returns what is known before the first line: process 1 is alive.
    pub fn new(alloc: Global) -> Result<Known, AllocError> {
        let mut known = Known {
            told: BTreeMap::new(alloc),
            children: Vec::new(alloc),
            may_be_marked: false,
        };
        known.set(
            Pid::INIT,
            Told {
                lives: true,
                ..Told::default()
            },
        )?;
        Ok(known)
    }

    /// Returns what is known about a process ID.
    fn of(&self, pid: Pid) -> Told {
        match self.told.get(&pid.number()) {
            Some(told) => *told,
            None => Told::default(),
        }
    }

    /// Sets what is known about a process ID.
    fn set(&mut self, pid: Pid, told: Told) -> Result<(), AllocError> {
        self.told.insert(pid.number(), told)?;
        Ok(())
    }

    /// Returns true if a process has called `sigqueue` successfully.
    pub fn queues(&self, pid: Pid) -> bool {
        self.of(pid).queues
    }

    /// Records that a process has called `sigqueue` successfully.
    pub fn queue(&mut self, pid: Pid) -> Result<(), AllocError> {
        let mut told = self.of(pid);
        told.queues = true;
        self.set(pid, told)
    }

    /// Records that a process has become a child subreaper, or is no longer one.
    pub fn mark(&mut self, pid: Pid, mark: bool) -> Result<(), AllocError> {
        self.may_be_marked = true;
        let mut told = self.of(pid);
        told.is_marked = mark;
        self.set(pid, told)
    }

    /// Appends a child to the list of its parent.
    fn put(&mut self, parent: Pid, child: Pid) -> Result<(), AllocError> {
        let place = self.children.len();
        self.children.push(Child {
            pid: child,
            next: None,
        })?;
        let mut told = self.of(parent);
        match told.last {
            Some(last) => self.link(last, place),
            None => told.first = Some(place),
        }
        told.last = Some(place);
        self.set(parent, told)
    }

    /// Links a child to the next one in the list.
    fn link(&mut self, place: usize, next: usize) {
        if let Some(child) = self.children.get_mut(place) {
            child.next = Some(next);
        }
    }

    /// Sets the parent of a child; [`Pid::NONE`] means process 1 or no parent. The children of process 1 are not
    /// listed, because they are not reparented when it terminates.
    fn give(&mut self, parent: Pid, child: Pid) -> Result<(), AllocError> {
        let mut told = self.of(child);
        told.parent = Some(parent);
        self.set(child, told)?;
        if parent > Pid::INIT {
            self.put(parent, child)
        } else {
            Ok(())
        }
    }

    /// Records a fork. Sets the parent only if the child was not alive, and is not the forking process. So parents are
    /// older than their children in any trace, even in a faulty one.
    pub fn bear(&mut self, parent: Pid, child: Pid) -> Result<(), AllocError> {
        let mut told = self.of(child);
        let lives = told.lives;
        told.queues = false;
        told.lives = true;
        told.is_marked &= lives;
        self.set(child, told)?;
        if lives || child == parent {
            return Ok(());
        }
        let mut of_parent = self.of(parent);
        of_parent.lives = true;
        self.set(parent, of_parent)?;
        self.give(parent, child)
    }

    /// Returns the parent of a process, or [`Pid::NONE`] if it is not known.
    fn parent(&self, pid: Pid) -> Pid {
        let told = self.of(pid);
        told.parent.unwrap_or(Pid::NONE)
    }

    /// Returns the child subreaper that becomes the parent of a process's children, or [`Pid::NONE`] if there is none.
    fn heir(&self, pid: Pid) -> Pid {
        if !self.may_be_marked {
            return Pid::NONE;
        }
        let mut forebear = pid;
        for _ in 0..self.told.len() {
            forebear = self.parent(forebear);
            if forebear <= Pid::INIT {
                return Pid::NONE;
            }
            if self.of(forebear).is_marked {
                return forebear;
            }
        }
        Pid::NONE
    }

    /// Reparents the children of a process to `heir`, except those that have another parent by now. Writes them if
    /// `heir` is a subreaper.
    fn give_on(
        &mut self,
        pid: Pid,
        first: Option<usize>,
        heir: Pid,
        text: &mut Prose,
    ) -> Result<(), AllocError> {
        let mut next = first;
        let mut before = ", reparents ";
        for _ in 0..self.children.len() {
            let Some(child) = self.child_at(next) else {
                break;
            };
            next = child.next;
            if self.parent(child.pid) == pid {
                self.give(heir, child.pid)?;
                put_left(text, before, child.pid, heir);
                before = ", ";
            }
        }
        if before == ", " && heir != Pid::NONE {
            text.push_with(" to ", heir.number());
        }
        Ok(())
    }

    /// Returns the child at an index, if there is one.
    fn child_at(&self, place: Option<usize>) -> Option<Child> {
        self.children.get(place?).copied()
    }

    /// Records that a process terminates. Writes which of its children are reparented to a subreaper, if there is one.
    pub fn end(&mut self, pid: Pid, text: &mut Prose) -> Result<(), AllocError> {
        let heir = self.heir(pid);
        let mut told = self.of(pid);
        self.give_on(pid, told.first, heir, text)?;
        told.lives = false;
        told.parent = None;
        told.first = None;
        told.last = None;
        self.set(pid, told)
    }
}

/// Writes a child that is reparented, if `heir` is a subreaper.
fn put_left(text: &mut Prose, before: &str, child: Pid, heir: Pid) {
    if heir != Pid::NONE {
        text.push_with(before, child.number());
    }
}

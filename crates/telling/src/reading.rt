//! The processes before and after each event. Only those that the event may have changed are read again.

ghost use Rattle.std.specs.Prelude.{◌<◌, ◌≤◌, MatchResult, length};

use crate::sending::{Row, Sent};
use posix::{Life, Pid, Sig};
use proctable::{OwnPart, Snapshot};
use std::alloc::{AllocError, Global};

/// The state of some processes, read after an event, in the order of their numbers.
#[derive(Drop)]
pub struct Reading {
    /// All processes in the run queue, in the order of their numbers.
    acting: Vec<Pid>,
    /// Those that exist.
    pub(crate) rows: Vec<Row>,
    /// Those that no longer exist.
    pub gone: Vec<Pid>,
}

impl Reading {
    /// Returns a reading of no process. `turns` is the run queue.
    pub fn new(alloc: Global, turns: Vec<Pid>) -> Reading {
        let mut acting = turns;
        acting.sort_unstable();
        Reading {
            acting,
            rows: Vec::new(alloc),
            gone: Vec::new(alloc),
        }
    }

    /// Adds an existing process. `sent` is the signal that the last event sent, or `None` before an event.
    pub fn add(
        &mut self,
        snapshot: Snapshot,
        own: &OwnPart,
        sent: Option<&Sent>,
    ) -> Result<(), AllocError> {
        let can_act = has(self.acting.as_slice(), snapshot.pid);
        let row = Row::new(snapshot, own, can_act, sent);
        // The row is rebuilt with a field whose type is named, because the prover needs that type here.
        let last_queued: Option<Sig> = row.last_queued;
        self.rows.push(Row { last_queued, ..row })?;
        Ok(())
    }
}

/// Returns true if a number is in a sorted list.
fn has(pids: &[Pid], pid: Pid) -> bool {
    pids.binary_search(&pid).is_ok()
}

/// Appends the numbers of `these` that are not in `those`, which is sorted.
fn add_others(pids: &mut Vec<Pid>, these: &[Pid], those: &[Pid]) -> Result<(), AllocError> {
    for pid in these {
        if !has(those, *pid) {
            pids.push(*pid)?;
        }
    }
    Ok(())
}

/// Returns the index of a process in rows sorted by number. The error is the index at which to insert it.
fn place_of(rows: &[Row], pid: Pid) -> Result<usize, usize>
    ensures { MatchResult result (λ place. place < length rows.now) (λ place. place ≤ length rows.now) }
{
    rows.binary_search_by_key(&pid, |row| row.snapshot.pid)
}

/// Returns the row of a process, if there is one, in rows sorted by number.
pub fn row_of(rows: &[Row], pid: Pid) -> Option<Row> {
    rows.get(place_of(rows, pid).ok()?).copied()
}

/// The processes that an event may have changed, besides those that enter or leave the run queue.
#[derive(Drop)]
pub(crate) struct Concern {
    /// The process that acted; its parent, if it stopped or terminated; the process that its call forked, moved or
    /// reported; the target of its signal. 0 means none.
    pub(crate) few: [Pid; 4],
    /// The process that terminated, or 0: its children may have changed, and each process that may be their new parent.
    pub(crate) ended: Pid,
    /// The signal that the event sent, if it may have several targets.
    pub(crate) sent: Option<Sent>,
    /// True if any process may have changed: a stopped process may continue, so that its parent is sent SIGCHLD, or a
    /// terminal hangs up.
    pub(crate) all: bool,
}

impl Concern {
    /// Returns true if processes other than the few may have changed.
    fn is_wide(&self) -> bool {
        self.all || self.ended != Pid::NONE || self.sent.is_some()
    }

    /// Returns true if a process may have changed, other than as one of the few. `old` is its row before the event.
    fn has_other(&self, old: &Row) -> bool {
        let snapshot = &old.snapshot;
        let may_inherit = snapshot.pid == Pid::INIT || snapshot.is_subreaper;
        if self.ended != Pid::NONE && (snapshot.parent == self.ended || may_inherit) {
            return true;
        }
        self.all || self.sent.as_ref().is_some_and(|sent| sent.is_to(old))
    }
}

/// The rows of all processes after an event.
#[derive(Drop)]
pub struct Rows {
    /// Sorted by number.
    rows: Vec<Row>,
    /// The processes in the run queue, in the order of their numbers.
    acting: Vec<Pid>,
    /// The number of the last event, or `None` before the first reading.
    events: Option<u64>,
}

impl Rows {
    /// Returns rows before the first reading.
    pub(crate) fn new(alloc: Global) -> Rows {
        Rows {
            rows: Vec::new(alloc),
            acting: Vec::new(alloc),
            events: None,
        }
    }

    /// Returns true if the rows are those after this number of events.
    pub fn are_after(&self, events: u64) -> bool {
        self.events == Some(events)
    }

    /// Replaces all rows by those read after this number of events.
    pub fn set(&mut self, events: u64, all: Reading) {
        self.rows = all.rows;
        self.acting = all.acting;
        self.events = Some(events);
    }

    /// Returns the row of a process, if it exists.
    pub(crate) fn of(&self, pid: Pid) -> Option<Row> {
        row_of(self.rows.as_slice(), pid)
    }

    /// Returns true if any process is stopped.
    pub(crate) fn have_stopped(&self) -> bool {
        let mut rows = self.rows.iter();
        rows.any(|row| matches!(row.snapshot.life, Life::Stopped))
    }

    /// Appends the processes that an event may have changed, besides the few.
    fn add_wide(&self, pids: &mut Vec<Pid>, concern: &Concern) -> Result<(), AllocError> {
        for row in &self.rows {
            if concern.has_other(row) {
                pids.push(row.snapshot.pid)?;
            }
        }
        Ok(())
    }

    /// Returns the processes that an event may have changed, in the order of their numbers. `new` has the run queue
    /// after the event.
    pub(crate) fn concerned(
        &self,
        alloc: Global,
        concern: &Concern,
        new: &Reading,
    ) -> Result<Vec<Pid>, AllocError> {
        let mut pids = Vec::new(alloc);
        add_others(&mut pids, concern.few.as_slice(), &[Pid::NONE])?;
        add_others(&mut pids, new.acting.as_slice(), self.acting.as_slice())?;
        add_others(&mut pids, self.acting.as_slice(), new.acting.as_slice())?;
        if concern.is_wide() {
            self.add_wide(&mut pids, concern)?;
        }
        pids.sort_unstable();
        pids.dedup();
        Ok(pids)
    }

    /// Replaces or inserts the row of a process.
    fn put(&mut self, row: &Row) -> Result<(), AllocError> {
        match place_of(self.rows.as_slice(), row.snapshot.pid) {
            Ok(place) => self.rows[place] = *row,
            Err(place) => self.rows.insert(place, *row)?,
        }
        Ok(())
    }

    /// Removes the rows of these processes.
    fn remove_all(&mut self, gone: &[Pid]) {
        for pid in gone {
            if let Ok(place) = place_of(self.rows.as_slice(), *pid) {
                self.rows.remove(place);
            }
        }
    }

    /// Replaces the rows of the processes that were read after this number of events.
    pub fn keep(&mut self, events: u64, new: Reading) -> Result<(), AllocError> {
        for row in &new.rows {
            self.put(row)?;
        }
        self.remove_all(new.gone.as_slice());
        self.acting = new.acting;
        self.events = Some(events);
        Ok(())
    }
}

//! The record of the newest life of a process ID.

ghost use Rattle.std.specs.Prelude.{◌≡◌, ℕ, None};
ghost use Rattle.std.specs.Option.{option_map_or};
ghost use Rattle.audit.specs.Records.{newborn_state, is_living_state, kept_as, record_in, after as change_of, IsAfter, changed, Become};
ghost use Rattle.audit.specs.Children.{KeepLinks, linked};
ghost use Rattle.audit.specs.declared.records.State.TheVariants.{Living};

use posix::{Pid, Sig, Status};
use std::collections::HashMap;
use std::hash::RandomState;

/// What the lines so far say of a life that has not ended.
#[derive(Clone, Copy)]
pub(crate) struct Life {
    /// True if the process is a child subreaper.
    pub(crate) is_marked: bool,
    /// True if the process has stopped in this life.
    pub(crate) has_stopped: bool,
    /// The signal of the last stop, if no wait has consumed that stop or its continue.
    pub(crate) stop: Option<Sig>,
    /// True if the process has stopped, and no wait has consumed the continue after its last stop.
    pub(crate) may_continue: bool,
}

/// What the lines so far say of a life.
#[derive(Clone, Copy)]
pub(crate) enum State {
    /// The process lives.
    Living(Life),
    /// The process has terminated.
    Ended {
        status: Status,
        /// True if a wait has consumed the termination.
        reported: bool,
    },
}

/// The newest life of a process ID, and its place among its parent's children.
#[derive(Clone, Copy)]
pub(crate) struct Record {
    /// The parent, or 0.
    pub(crate) parent: Pid,
    /// The previous sibling, or 0.
    pub(crate) before: Pid,
    /// The next sibling, or 0.
    pub(crate) behind: Pid,
    /// The first child, or 0.
    pub(crate) first: Pid,
    pub(crate) state: State,
}

/// The records of all process IDs that a process ever had.
pub(crate) type Records = HashMap<u32, Record, RandomState>;

/// What a line says of a life that has already begun.
#[derive(Clone, Copy)]
pub(crate) enum Change {
    /// A signal stops the process.
    Stopped(Sig),
    /// The process becomes a child subreaper, or is no longer one.
    Marked(bool),
    /// A wait consumes a status change of the process, with this wait status.
    Reported(Status),
    /// The process terminates with a wait status.
    Ended(Status),
}

/// A change of the links of a record, or the beginning of a life. ID 0 means no process.
#[derive(Clone, Copy)]
pub(crate) enum Link {
    /// Sets the parent, but keeps the siblings.
    Parent(Pid),
    /// Sets the first child.
    First(Pid),
    /// Sets the previous sibling.
    Before(Pid),
    /// Sets the next sibling.
    Behind(Pid),
    /// Makes the process the first child of a parent, with this next sibling.
    Place { parent: Pid, behind: Pid },
    /// Begins a life, without a parent.
    Begins,
}

impl State {
    /// Returns the state of a new life.
    #[inline]
    pub(crate) fn newborn() -> State
        ensures { result ≡ newborn_state }
    {
        State::Living(Life {
            is_marked: false,
            has_stopped: false,
            stop: None,
            may_continue: false,
        })
    }

    /// Returns true if the process lives.
    #[inline]
    pub(crate) fn is_living(self) -> bool
        ensures { result ≡ is_living_state self }
    {
        matches!(self, State::Living(_))
    }

    /// Returns the state after a change.
    fn after(self, change: Change) -> State
        ensures { (parent : ℕ) → kept_as parent result ≡ change_of change (kept_as parent self) }
    {
        match self {
            State::Living(life) => life.after(change),
            State::Ended { status, reported } => match change {
                Change::Reported(word) => State::Ended {
                    status,
                    reported: reported || word.is_end(),
                },
                Change::Stopped(_) | Change::Marked(_) | Change::Ended(_) => {
                    State::Ended { status, reported }
                }
            },
        }
    }
}

impl Life {
    /// Returns the state after a change.
    fn after(self, change: Change) -> State
        ensures { (parent : ℕ) → kept_as parent result ≡ change_of change (kept_as parent (Living self)) }
    {
        match change {
            Change::Stopped(sig) => State::Living(Life {
                has_stopped: true,
                stop: Some(sig),
                may_continue: true,
                ..self
            }),
            Change::Marked(is_marked) => State::Living(Life { is_marked, ..self }),
            Change::Reported(word) => State::Living(Life {
                stop: if word.is_stop() || word.is_continuation() {
                    None
                } else {
                    self.stop
                },
                may_continue: self.may_continue && !word.is_continuation(),
                ..self
            }),
            Change::Ended(status) => State::Ended {
                status,
                reported: false,
            },
        }
    }
}

impl Record {
    /// Changes the links of the record.
    #[inline]
    fn relink(&mut self, link: Link)
        ensures { self.new ≡ linked link self.old }
    {
        match link {
            Link::Parent(parent) => self.parent = parent,
            Link::First(first) => self.first = first,
            Link::Before(before) => self.before = before,
            Link::Behind(behind) => self.behind = behind,
            Link::Place { parent, behind } => {
                self.parent = parent;
                self.before = Pid::NONE;
                self.behind = behind;
            }
            Link::Begins => {
                self.parent = Pid::NONE;
                self.state = State::newborn();
            }
        }
    }
}

/// Changes the life of a process ID, if it has a record. Returns the record before the change.
#[inline]
pub(crate) fn apply(records: &mut Records, pid: Pid, change: Change) -> Option<Record>
    ensures links { KeepLinks (record_in records.old.entries) (record_in records.new.entries) }
    ensures kept { IsAfter change pid records.old.entries records.new.entries }
    ensures was { result ≡ record_in records.old.entries pid }
{
    let Some(record) = records.get_mut(&pid.number()) else {
        return None;
    };
    let was = *record;
    record.state = was.state.after(change);
    Some(was)
}

/// Changes the links of a process ID, if it has a record. Returns the record before the change.
#[inline]
pub(crate) fn relink(records: &mut Records, pid: Pid, link: Link) -> Option<Record>
    ensures is { Become (changed pid (linked link)) records.old.entries records.new.entries }
    ensures was { result ≡ record_in records.old.entries pid }
    ensures none { result ≡ None → records.new.entries ≡ records.old.entries }
{
    let Some(record) = records.get_mut(&pid.number()) else {
        return None;
    };
    let was = *record;
    record.relink(link);
    Some(was)
}

/// Returns the first child in a record, or 0.
pub(crate) fn first_by(found: Option<Record>) -> Pid
    ensures { result ≡ option_map_or (λ r. r.first) found 0 }
{
    match found {
        Some(record) => record.first,
        None => Pid::NONE,
    }
}

/// Returns the next sibling in a record, or 0.
pub(crate) fn behind_by(found: Option<Record>) -> Pid
    ensures { result ≡ option_map_or (λ r. r.behind) found 0 }
{
    match found {
        Some(record) => record.behind,
        None => Pid::NONE,
    }
}

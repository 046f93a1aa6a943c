//! What the lines so far say of each process ID.

ghost use Rattle.std.specs.Prelude.{◌≡◌, ◌≢◌, ◌==◌, ◌≤◌, ℕ, true, false, if◌then◌else◌, OnOk, OnErr, IfOk, IfSome, IsSomeAnd, []};
ghost use Rattle.laws.specs.Keeping.{NeverBorn, kept_of, kept_after, lives_now, newborn, ended_with, given_on, heir_of};
ghost use Rattle.laws.specs.TraceLines.{is_entry};
ghost use Rattle.posix.specs.Common.{process_of as process_said};
ghost use Rattle.laws.specs.Lives.{born_by as birth_said};
ghost use Rattle.audit.specs.Records.{kept_record, kept_by, IsAfter};

use crate::children::{begin, give_on, put_in};
use crate::lines::born_by;
use crate::records::{Change, Record, Records, State, apply};
use posix::{Entry, Pid, Sig, Status};
use std::alloc::{AllocError, Global};
use std::collections::HashMap;
use std::hash::RandomState;
use std::marker::Model;

/// What is known of each process ID: a record of the newest life of each ID that a process ever had. Records are
/// found by a hash with random keys, so that no trace can choose IDs that are slow to find.
/// A `BTreeMap` took 1.7 times as long for forks and terminations; `Numbered` items would move all others for forks
/// in falling order of ID; with a fixed hash, 130,000 chosen IDs took 12 seconds.
#[derive(Drop)]
pub(crate) struct Known {
    records: Records,
    /// True if there may be child subreapers; none are searched for before the first mark is set.
    may_be_marked: bool,
}

impl Model for Known {
    ghost use Rattle.std.specs.Prelude.{ℕ, List};
    ghost use Rattle.audit.specs.declared.records.Record.{Record as OneRecord};
    ghost use Rattle.audit.specs.Children.{AreSound};

    ghost Value = { List (ℕ × OneRecord) };

    ghost view = { λ s. s.records.entries };

    ghost invariant = { λ s. AreSound s.may_be_marked s.records.entries };
}

impl Known {
    /// Returns what is known before the first line: process 1 lives, and has no parent. Fails if there is no memory.
    #[tactic(auto, unfolding(crate::specs::Records::kept_by, laws::specs::Keeping::kept_of, laws::specs::Lives::parents_from, laws::specs::Lives::newest_life))]
    pub(crate) fn new(alloc: Global, keys: RandomState) -> Result<Known, AllocError>
        ensures { IfOk result (λ known. (c : ℕ) → kept_by known c ≡ kept_of [] c) }
    {
        let mut records = HashMap::with_hasher(alloc, keys);
        begin(&mut records, Pid::INIT)?;
        Ok(Known {
            records,
            may_be_marked: false,
        })
    }

    /// Returns the record of the newest life of a process ID, if it ever had one.
    #[tactic(auto, unfolding(crate::specs::Records::kept_by))]
    pub(crate) fn newest(&self, pid: Pid) -> Option<Record>
        ensures { kept_record result ≡ kept_by self.now pid }
    {
        self.records.get(&pid.number()).copied()
    }

    /// Returns true if the process with this ID lives.
    #[tactic(auto, unfolding(crate::specs::Records::kept_by))]
    pub(crate) fn is_living(&self, pid: Pid) -> bool
        ensures { result ≡ lives_now (kept_by self.now pid) }
    {
        match self.records.get(&pid.number()) {
            Some(record) => record.state.is_living(),
            None => false,
        }
    }

    /// Takes in an entry that passes the tests of its place and of its fork. Fails if there is no memory, which
    /// changes nothing; then a fork returned a process ID that no process had before.
    #[tactic(auto, unfolding(laws::specs::Keeping::made_by))]
    pub(crate) fn take_in(&mut self, entry: &Entry) -> Result<(), AllocError>
        requires entry { is_entry entry.now ≡ true }
        requires process { IfSome (process_said entry.now) (λ p. lives_now (kept_by self.old p) ≡ true) }
        requires birth { IfSome (birth_said entry.now) (λ n. lives_now (kept_by self.old n) ≡ false) }
        ensures ok { OnOk result ((c : ℕ) → kept_by self.new c ≡ kept_after (kept_by self.old) entry.now c) }
        ensures err { OnErr result ((c : ℕ) → kept_by self.new c ≡ kept_by self.old c) }
        ensures new_number { OnErr result (IsSomeAnd (birth_said entry.now) (λ n. kept_by self.old n ≡ NeverBorn)) }
    {
        match *entry {
            Entry::Reported { child, status, .. } => self.change(child, Change::Reported(status)),
            Entry::Stopped { pid, sig } => self.change(pid, Change::Stopped(sig)),
            Entry::Marked { pid, mark } => self.change(pid, Change::Marked(mark)),
            Entry::Ended { pid, status } => self.end(pid, status),
            Entry::Called { pid, .. } => {
                if let Some(child) = born_by(entry) {
                    self.bear(child, pid)?;
                }
            }
            _ => {}
        }
        Ok(())
    }

    /// Creates a process, whose ID no living process has and whose parent lives. Fails if there is no memory, which
    /// changes nothing; then no process had the ID before.
    pub(crate) fn bear(&mut self, pid: Pid, parent: Pid) -> Result<(), AllocError>
        requires pid { 1 ≤ pid }
        requires ended { lives_now (kept_by self.old pid) ≡ false }
        requires parent { lives_now (kept_by self.old parent) ≡ true }
        ensures ok { OnOk result ((c : ℕ) → kept_by self.new c ≡ (if pid == c then newborn parent else kept_by self.old c)) }
        ensures err { OnErr result ((c : ℕ) → kept_by self.new c ≡ kept_by self.old c) }
        ensures new_number { OnErr result (kept_by self.old pid ≡ NeverBorn) }
    {
        begin(&mut self.records, pid)?;
        put_in(&mut self.records, pid, parent);
        Ok(())
    }

    /// Changes the life of a process.
    pub(crate) fn change(&mut self, pid: Pid, change: Change)
        ensures { IsAfter change pid self.old self.new }
    {
        if let Change::Marked(_) = change {
            self.may_be_marked = true;
        }
        apply(&mut self.records, pid, change);
    }

    /// Terminates a living process with a wait status, and reparents its children.
    pub(crate) fn end(&mut self, pid: Pid, status: Status)
        requires pid { 1 ≤ pid }
        requires living { lives_now (kept_by self.old pid) ≡ true }
        ensures { (c : ℕ) → kept_by self.new c ≡ (if pid == c then ended_with status (given_on pid (heir_of (kept_by self.old) pid) (kept_by self.old c)) else given_on pid (heir_of (kept_by self.old) pid) (kept_by self.old c)) }
    {
        let heir = self.heir(pid);
        if let Some(was) = apply(&mut self.records, pid, Change::Ended(status)) {
            give_on(&mut self.records, pid, was.first, heir);
        }
    }

    /// Returns the new parent of a terminating process's children.
    fn heir(&self, pid: Pid) -> Pid
        ensures { result ≡ heir_of (kept_by self.now) pid }
    {
        if !self.may_be_marked {
            return Pid::INIT;
        }
        if pid == Pid::INIT {
            return Pid::INIT;
        }
        nearest_marked(&self.records, pid)
    }
}

/// Returns the nearest ancestor of a process that is a child subreaper, or process 1. There are at most as many
/// ancestors as process IDs.
fn nearest_marked(records: &Records, pid: Pid) -> Pid
    requires { pid ≢ 1 }
    ensures { result ≡ heir_of (kept_by records.now.entries) pid }
{
    let mut forebear = pid;
    let mut left = Pid::MAX;
    while left != 0 {
        let Some(record) = records.get(&forebear.number()).copied() else {
            return Pid::INIT;
        };
        let Record { parent, state, .. } = record;
        let State::Living(life) = state else {
            return Pid::INIT;
        };
        if life.is_marked && forebear != pid {
            return forebear;
        }
        forebear = parent;
        left -= 1;
    }
    Pid::INIT
}

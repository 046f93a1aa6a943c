//! A change of one process, with what is kept beside the records: the recheck list, which IDs are in use, and whether a
//! foreground process group may have lost its members.

ghost use Rattle.std.specs.Prelude.{◌≡◌, ◌≢◌, ◌+◌, ◌*◌, ◌<◌, ◌&&◌, ◌||◌, not, IsSome, Some, length, if◌then◌else◌, false};
ghost use Rattle.posix.specs.Common.{Process, is_zombie, is_in, process, IsRising, changed, children_in, lookup, parent_of, child_signal as child_signal_of, noticed_of_change, told_of_change, IsPlaced};
ghost use Rattle.pidalloc.specs.Rows.{regrouped};
ghost use Rattle.pidset.specs.Numbers.{with_number};
ghost use Rattle.jobs.specs.Indexes.{seen_of};
ghost use Rattle.jobs.specs.IndexedTables.{ChangesSignals, Costs as JobCosts, IsRun, StaysGrouped, StaysPut, takes_signal as taking_signal};
ghost use Rattle.life.specs.Rechecks.{awaits as awaiting, rechecking, rechecking_told, rechecks_by_signals, rechecks_changed, with_parent};
ghost use Rattle.life.specs.Foregrounds.{also_in as also_in_by};
ghost use Rattle.life.specs.Changes.{StaysInSession, StaysRegular, CanMoveNumbers, has_moved, lives};
ghost use Rattle.life.specs.Machines.{Costs, Changes, IsThere, IfThere, with_processes};

use crate::consoles::{Unchecked, also_in};
use crate::ends::child_signal;
use crate::machine::Machine;
use crate::rechecks::recheck_later;
use crate::waits::awaits;
use jobs::{Change, IndexedFields, IndexedTable};
use pidalloc::{Order, PidTable};
use pidset::PidSet;
use posix::{Life, News, Pid, Status};
use proctable::{ProcessTable, Record};

impl<K: ProcessTable> Machine<K> {
    /// Changes the signals and the alarm of an existing process, and returns the closure's result. Puts the process on
    /// the recheck list if a signal is then chosen for it and it is not in the run queue. Without a chosen signal, the
    /// change cannot have made it runnable. All such changes go through this function, except a loan
    /// ([`Machine::own`]).
    #[inline(always)]
    pub(crate) fn change<T, F: FnOnce(&mut Record) -> T>(&mut self, pid: Pid, change: F) -> T
        requires there { IsThere pid self.old }
        requires callable { F.IsAlwaysCallable change }
        requires signals { ChangesSignals F.FnOnce change }
        requires regular { StaysRegular F.FnOnce change self.old.state pid }
        ensures run { IsRun F.FnOnce change self.old.state.processes self.new.state.processes pid result }
        ensures changes { Changes 1 self.old self.new (with_processes self.old.state self.new.state.processes) (rechecks_by_signals (process self.new.state pid) self.old) }
    {
        let (result, takes_signal) = self.table.change(pid, change);
        recheck_where(&mut self.to_recheck, &self.order, pid, takes_signal);
        result
    }

    /// Changes what the parent of an existing process sees, too. Puts the process on the recheck list, and also its
    /// parent if the parent is not in the run queue. Moves the use counts of its process group and session IDs. Returns
    /// the parent, or number 0 if there is none. Reads no slot of a child if the process stays in its group and session
    /// and isn't revived.
    pub(crate) fn change_seen<F: FnOnce(&mut Record)>(&mut self, pid: Pid, change: F) -> Pid
        requires there { IsThere pid self.old }
        requires callable { F.IsAlwaysCallable change }
        requires grouped { StaysGrouped F.FnOnce change self.old.state.processes pid }
        requires session { StaysInSession F.FnOnce change self.old.state.processes pid }
        requires regular { StaysRegular F.FnOnce change self.old.state pid }
        ensures run { IsRun F.FnOnce change self.old.state.processes self.new.state.processes pid tt }
        ensures rest { self.new.state ≡ with_processes self.old.state self.new.state.processes }
        ensures parent { result ≡ parent_of pid self.old.state.processes }
        ensures there { result ≢ 0 → IsThere result self.new }
        ensures to_recheck { IfThere pid self.old (λ me. self.new.to_recheck ≡ rechecks_changed me self.old) }
        ensures costs { Costs (3 + 2 * length (children_in pid self.old.state.processes)) self.old self.new }
        ensures put { StaysPut F.FnOnce change self.old.state.processes pid → Costs 1 self.old self.new × (self.new.foregrounds_unchecked ≡ self.old.foregrounds_unchecked) }
    {
        let Change {
            parent,
            before,
            after,
        } = self.table.change_seen(pid, change);
        recheck_with_parent(&mut self.to_recheck, &self.order, pid, parent);
        self.readers.put(pid, None);
        move_numbers(
            &mut self.pids,
            &mut self.foregrounds_unchecked,
            &before,
            &after,
        );
        parent
    }

    /// Gives a live process this state and this unreported status change, and notifies its parent with this status.
    /// Puts the process on the recheck list. Also puts its parent there if the parent is not in the run queue, and
    /// waits for this child or has a chosen signal. Otherwise the parent cannot have become runnable. All such changes
    /// go through this function.
    pub(crate) fn change_life(&mut self, pid: Pid, life: Life, news: News, status: Status)
        requires there { IsPlaced self.old.state.processes pid }
        requires living { is_zombie life ≡ false }
        ensures { IfThere pid self.old (λ me. Changes 2 self.old self.new (with_processes self.old.state (told_of_change status me (changed pid (lives life news) self.old.state.processes))) (rechecking_told (lives life news me) (process self.new.state me.parent) self.old.state.order self.old.to_recheck)) }
    {
        let Change { parent, after, .. } = self.table.change_seen(pid, |fields| {
            fields.life = life;
            fields.news = news;
        });
        self.to_recheck.insert(pid);
        if parent != Pid::NONE {
            let acts = notice(&mut self.table, parent, pid, &after, status);
            recheck_where(&mut self.to_recheck, &self.order, parent, acts);
        }
    }
}

/// Notifies a parent that a child has stopped or continued, with this status; `seen` is the new state of the child.
/// Returns true if that may have made the parent runnable: it waits for this child, or a signal is chosen for it.
fn notice<K: ProcessTable>(
    table: &mut IndexedTable<K>,
    parent: Pid,
    child: Pid,
    seen: &IndexedFields,
    status: Status,
) -> bool
    requires there { IsSome (lookup parent table.old.processes) }
    requires rising { IsRising table.old.processes }
    ensures processes { table.new.processes ≡ changed parent (noticed_of_change (child_signal_of child status)) table.old.processes }
    ensures acts { (me it : Process) → lookup parent table.new.processes ≡ Some me → it.pid ≡ child → seen.now ≡ seen_of it → result ≡ (awaiting me it || taking_signal me) }
    ensures costs { JobCosts 1 table.old table.new }
{
    let signal = child_signal(child, status);
    let (awaits, takes_signal) = table.change(parent, |fields| {
        fields.notice_of_change(parent, signal);
        awaits(fields, child, seen)
    });
    awaits || takes_signal
}

/// Returns true if an existing process is not in the run queue and waits for this child, whose state is `seen`. Reads
/// no slot if the process is in the run queue. Changes nothing.
pub(crate) fn is_awaited<K: ProcessTable>(
    table: &mut IndexedTable<K>,
    order: &Order,
    parent: Pid,
    child: Pid,
    seen: &IndexedFields,
) -> bool
    requires there { IsSome (lookup parent table.old.processes) }
    requires rising { IsRising table.old.processes }
    ensures value { (me it : Process) → lookup parent table.old.processes ≡ Some me → it.pid ≡ child → seen.now ≡ seen_of it → result ≡ (not (is_in parent order.now.pids) && awaiting me it) }
    ensures same { table.new.processes ≡ table.old.processes }
    ensures costs { JobCosts 1 table.old table.new }
{
    if order.has(parent) {
        return false;
    }
    awaits(table.look(parent), child, seen)
}

/// Puts a process on the recheck list if a change may have made it runnable and it is not in the run queue.
pub(crate) fn recheck_where(to_recheck: &mut PidSet, order: &Order, pid: Pid, acts: bool)
    requires { length to_recheck.old.pids < to_recheck.old.room }
    ensures { to_recheck.new ≡ record (to_recheck.old) { pids = if acts then rechecking pid order.now.pids to_recheck.old.pids else to_recheck.old.pids } }
{
    if acts {
        recheck_later(to_recheck, order, pid);
    }
}

/// Puts a process on the recheck list, and also its parent if the parent is not in the run queue. Number 0 is no
/// parent.
fn recheck_with_parent(to_recheck: &mut PidSet, order: &Order, pid: Pid, parent: Pid)
    requires few { length to_recheck.old.pids < to_recheck.old.room }
    requires fits { length (with_number pid to_recheck.old.pids) < to_recheck.old.room }
    ensures { to_recheck.new ≡ record (to_recheck.old) { pids = with_parent parent order.now.pids (with_number pid to_recheck.old.pids) } }
{
    to_recheck.insert(pid);
    if parent != Pid::NONE {
        recheck_later(to_recheck, order, parent);
    }
}

/// Updates the use counts of process group and session IDs if a process has moved. Its old session's foreground process
/// group may then have lost a member.
fn move_numbers(
    pids: &mut PidTable,
    foregrounds_unchecked: &mut Unchecked,
    before: &IndexedFields,
    after: &IndexedFields,
)
    requires { CanMoveNumbers pids.old before.now after.now }
    ensures pids { pids.new ≡ (if has_moved before.now after.now then regrouped pids.old before.now.group before.now.session after.now.group after.now.session else pids.old) }
    ensures last { pids.new.last ≡ pids.old.last }
    ensures foregrounds_unchecked { foregrounds_unchecked.new ≡ (if has_moved before.now after.now then also_in_by before.now.session foregrounds_unchecked.old else foregrounds_unchecked.old) }
{
    if before.group != after.group || before.session != after.session {
        pids.regroup(before.group, before.session, after.group, after.session);
        *foregrounds_unchecked = also_in(foregrounds_unchecked, before.session);
    }
}

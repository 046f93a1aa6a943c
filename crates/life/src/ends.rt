//! Process termination.

ghost use Rattle.std.specs.Prelude.{◌≡◌, ◌≢◌, ℕ, ◌≤◌, ◌+◌, ◌*◌, length, Some, option_map, true, if◌then◌else◌};
ghost use Rattle.posix.specs.declared.process.Life.TheVariants.{Zombie};
ghost use Rattle.posix.specs.Common.{Process, is_zombie, children_in, parent_of, CanInherit, process, leave_children_and_die as departing, halt as halting, end_with_heir, notice_of_end as noticing_end, drop_child as dropping_child, is_dropping, tell_of_all, zombies_of, noticed, child_signal as child_signal_of};
ghost use Rattle.pidset.specs.Numbers.{with_number};
ghost use Rattle.life.specs.Ends.{slots_of_orphans};
ghost use Rattle.life.specs.Rechecks.{rechecks_by_signals, without_gone};
ghost use Rattle.life.specs.Machines.{Costs, Finds, Changes, Removes, IsThere, IfThere};

use crate::changes::{is_awaited, recheck_where};
use crate::machine::Machine;
use bitflags::Flags;
use jobs::Change;
use posix::{Carried, Life, PendingSignal, Pid, Sig, Status, WaitidOptions};
use proctable::ProcessTable;

impl<K: ProcessTable> Machine<K> {
    /// Notifies the new parent of the process's children of each zombie among them, in rising order of process ID.
    /// Looks at no other child. Precedes the reparenting, after which these children are mixed with the new
    /// parent's others.
    fn tell_heir(&mut self, pid: Pid, heir: Pid)
        requires there { IsThere pid self.old }
        requires other { pid ≢ 1 }
        requires heir { CanInherit self.old.state.processes pid heir }
        ensures state { self.new.state ≡ tell_of_all self.old.state heir (zombies_of pid self.old.state.processes) }
        ensures mine { process self.new.state pid ≡ process self.old.state pid }
        ensures heir { CanInherit self.new.state.processes pid heir }
        ensures fewer { (q : ℕ) → length (children_in q self.new.state.processes) ≤ length (children_in q self.old.state.processes) }
        ensures costs { Costs (4 * length (zombies_of pid self.old.state.processes)) self.old self.new }
    {
        let mut next = self.next_wanted(pid, WaitidOptions::WEXITED, Pid::NONE);
        while let Some(child) = next {
            next = self.next_wanted(pid, WaitidOptions::WEXITED, child);
            let status = self.status(child);
            self.notice_of_end(heir, child, status);
        }
    }

    /// Makes a process a zombie, removes it from the run queue, and reparents its children to `heir`. Returns its
    /// parent.
    ///
    /// Puts the process on the recheck list. If they are not in the run queue, also puts there its parent if it waits
    /// for this child, and `heir` if a child has an unreported status change. Otherwise these cannot have become
    /// runnable.
    fn become_zombie(&mut self, pid: Pid, heir: Pid, status: Status) -> Pid
        requires there { IsThere pid self.old }
        requires other { pid ≢ 1 }
        requires heir { CanInherit self.old.state.processes pid heir }
        ensures state { self.new.state ≡ departing self.old.state pid heir status }
        ensures is { IfThere pid self.old (λ me. result ≡ me.parent) }
        ensures parent { IfThere pid self.old (λ me. IsThere me.parent self.new) }
        ensures zombie { (it : Process) × (process self.new.state pid ≡ Some it) × (is_zombie it.life ≡ true) }
        ensures costs { Costs (3 + length (children_in pid self.old.state.processes)) self.old self.new }
    {
        self.to_recheck.insert(pid);
        let Change { parent, after, .. } = self
            .table
            .change_seen(pid, |fields| fields.make_zombie(status));
        let awaited = is_awaited(&mut self.table, &self.order, parent, pid, &after);
        recheck_where(&mut self.to_recheck, &self.order, parent, awaited);
        let any_sort = WaitidOptions::SORTS;
        let told = self.table.next_wanted(pid, any_sort, Pid::NONE).is_some();
        recheck_where(&mut self.to_recheck, &self.order, heir, told);
        self.table.adopt(pid, heir);
        self.order.drop_place(pid);
        parent
    }

    /// Notifies the new parent of the zombies among a process's children. Then makes the process a zombie, removes it
    /// from the run queue, and reparents its children. Returns its parent.
    #[tactic(auto, using(crate::proofs::EndLemmas::tell_after, crate::proofs::NoticeWalkLemmas::few_zombies, posix::proofs::RegularLemmas::heir_other))]
    pub(crate) fn leave_children_and_die(&mut self, pid: Pid, heir: Pid, status: Status) -> Pid
        requires there { IsThere pid self.old }
        requires other { pid ≢ 1 }
        requires heir { CanInherit self.old.state.processes pid heir }
        ensures state { self.new.state ≡ tell_of_all (departing self.old.state pid heir status) heir (zombies_of pid self.old.state.processes) }
        ensures is { IfThere pid self.old (λ me. result ≡ me.parent) }
        ensures parent { IfThere pid self.old (λ me. IsThere me.parent self.new) }
        ensures zombie { (it : Process) × (process self.new.state pid ≡ Some it) × (is_zombie it.life ≡ true) }
        ensures costs { Costs (3 + 5 * length (children_in pid self.old.state.processes)) self.old self.new }
    {
        self.tell_heir(pid, heir);
        self.become_zombie(pid, heir, status)
    }

    /// Returns the status with which a zombie terminated.
    fn status(&mut self, pid: Pid) -> Status
        requires { (it : Process) × (process self.old.state pid ≡ Some it) × (is_zombie it.life ≡ true) }
        ensures { Finds 1 self.old self.new (IfThere pid self.old (λ it. it.life ≡ Zombie result)) }
    {
        let Some(snapshot) = self.snapshot(pid) else {
            unreachable!()
        };
        let life = snapshot.life;
        let Life::Zombie(status) = life else {
            unreachable!()
        };
        status
    }

    /// Makes process 1 a zombie, removes it from the run queue, and halts the machine.
    fn halt(&mut self, status: Status)
        ensures { Changes 1 self.old self.new (halting self.old.state status) (with_number 1 self.old.to_recheck) }
    {
        self.lose_place(Pid::INIT);
        self.change_seen(Pid::INIT, |fields| fields.end(status));
        self.halted = true;
    }

    /// Notifies a parent that a child, which is a zombie other than process 1, terminated with this status. Drops the
    /// child if the parent ignores SIGCHLD or has set SA_NOCLDWAIT (XSH _exit).
    fn notice_of_end(&mut self, parent: Pid, child: Pid, status: Status)
        requires parent { IsThere parent self.old }
        requires other { child ≢ 1 }
        requires zombie { (it : Process) × (process self.old.state child ≡ Some it) × (is_zombie it.life ≡ true) }
        ensures { Removes 3 self.old self.new (noticing_end self.old.state parent child status) (if is_dropping parent self.old.state.processes then without_gone child (parent_of child self.old.state.processes) self.old.state.order (rechecks_by_signals (option_map (noticed (child_signal_of child status)) (process self.old.state parent)) self.old) else rechecks_by_signals (option_map (noticed (child_signal_of child status)) (process self.old.state parent)) self.old) }
    {
        let signal = child_signal(child, status);
        let drops = self.change(parent, |fields| {
            let drops = fields.own.signals.drops_children();
            fields.notice(parent, signal);
            drops
        });
        if drops {
            self.drop_child(child);
        }
    }

    /// Drops a zombie other than process 1: removes its record without a report, and counts it.
    fn drop_child(&mut self, child: Pid)
        requires other { child ≢ 1 }
        requires zombie { (it : Process) × (process self.old.state child ≡ Some it) × (is_zombie it.life ≡ true) }
        ensures { Removes 2 self.old self.new (dropping_child self.old.state child) (without_gone child (parent_of child self.old.state.processes) self.old.state.order self.old.to_recheck) }
    {
        self.reap(child);
        self.dropped += 1;
    }

    /// Terminates an existing process with this status. If it is process 1, the machine halts. Any other process
    /// becomes a zombie and leaves the run queue. Its children are reparented to `heir`, which is notified of the
    /// zombies among them. Each process group that this orphans, and that has a stopped member, gets SIGHUP and
    /// SIGCONT. The parent is notified of the termination, and may drop the zombie (XSH _exit, Consequences of Process
    /// Termination).
    ///
    /// Reads the members of only those groups that become orphaned and have a stopped member.
    #[tactic(auto, using(crate::proofs::EndLemmas::end_is, posix::proofs::NoticeLemmas::end_first, posix::proofs::TableLemmas::pid_looked))]
    pub fn end(&mut self, pid: Pid, heir: Pid, status: Status)
        requires there { IsThere pid self.old }
        requires heir { pid ≢ 1 → CanInherit self.old.state.processes pid heir }
        ensures state { IfThere pid self.old (λ me. self.new.state ≡ (end_with_heir self.old.state me heir status).state) }
        ensures to_recheck { pid ≡ 1 → self.new.to_recheck ≡ with_number 1 self.old.to_recheck }
        ensures visits { self.new.visits ≤ self.old.visits + 6 + 5 * length (children_in pid self.old.state.processes) + slots_of_orphans self.old.state (tell_of_all (departing self.old.state pid heir status) heir (zombies_of pid self.old.state.processes)) }
        ensures no_fewer { self.old.visits ≤ self.new.visits }
    {
        if pid == Pid::INIT {
            self.halt(status);
        } else {
            let parent = self.die_and_hup_orphans(pid, heir, status);
            self.notice_of_end(parent, pid, status);
        }
    }
}

/// Returns the SIGCHLD that notifies a parent that a child terminated, stopped or continued (XSH _exit, sigaction).
pub(crate) fn child_signal(child: Pid, status: Status) -> PendingSignal
    ensures { result ≡ child_signal_of child status }
{
    PendingSignal {
        sig: Sig::CHLD,
        carried: Carried {
            value: i64::from(status.word()),
            sender: child,
        },
    }
}

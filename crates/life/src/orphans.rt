//! Process groups that a termination orphans (XSH _exit, Consequences of Process Termination).

ghost use Rattle.std.specs.Prelude.{◌≡◌, ◌≢◌, ◌+◌, ◌*◌, ◌≤◌, ◌&&◌, ℕ, Some, true, if◌then◌else◌, filter, length};
ghost use Rattle.posix.specs.Common.{Process, is_zombie, with_number, process, is_in, without, children_in, is_anchor as is_anchor_of, is_orphaned as is_orphaned_of, has_stopped as has_stopped_of, loses_anchor, hup_and_cont as hup_and_cont_of, hup_and_cont_all as hup_and_cont_all_of, hup_and_cont_orphans, leave_children_and_die as departing, tell_of_all, zombies_of, IsRegular, CanInherit};
ghost use Rattle.pidset.specs.Numbers.{Rises};
ghost use Rattle.life.specs.Ends.{slots_of_hup_and_cont, slots_of_hups, slots_of_orphans};
ghost use Rattle.life.specs.Machines.{Notes, IsThere, IfThere, with_processes};

use crate::machine::Machine;
use posix::{Pid, Sig, Status};
use proctable::ProcessTable;

impl<K: ProcessTable> Machine<K> {
    // ---- before the termination

    /// Notes the process group that an existing process keeps from being orphaned, if there is one. Reads no slot.
    fn note_anchor(&mut self, pid: Pid)
        requires { length self.old.groups_at_risk ≤ length self.old.state.processes }
        ensures notes { Notes self.old self.new }
        ensures groups_at_risk { IfThere pid self.old (λ it. self.new.groups_at_risk ≡ (if is_anchor_of self.old.state.processes it then with_number it.group self.old.groups_at_risk else self.old.groups_at_risk)) }
    {
        if let Some(group) = self.table.group_kept(pid) {
            self.groups_at_risk.insert(group);
        }
    }

    /// Notes the process groups that an existing process and its children keep from being orphaned. Its termination can
    /// orphan no others. Reads no slot.
    #[tactic(auto, using(crate::proofs::ChildLemmas::child_there, crate::proofs::ChildLemmas::child_less))]
    fn note_groups_at_risk(&mut self, pid: Pid)
        requires { IsThere pid self.old }
        ensures groups_at_risk { (g : ℕ) → is_in g self.new.groups_at_risk ≡ loses_anchor pid self.old.state.processes g }
        ensures notes { Notes self.old self.new }
    {
        self.groups_at_risk.clear();
        self.note_anchor(pid);
        let mut next = self.next_child(pid, Pid::NONE);
        while let Some(child) = next {
            self.note_anchor(child);
            next = self.next_child(pid, child);
        }
    }

    // ---- after it

    /// Drops a group from those noted unless it is orphaned and has a stopped member.
    fn keep_orphan_with_stopped(&mut self, group: Pid)
        ensures groups_at_risk { self.new.groups_at_risk ≡ (if is_orphaned_of group self.old.state.processes && has_stopped_of group self.old.state.processes then self.old.groups_at_risk else without group self.old.groups_at_risk) }
        ensures same { self.new.state ≡ self.old.state }
        ensures visits { self.new.visits ≡ self.old.visits }
    {
        if !(self.is_orphaned(group) && self.has_stopped(group)) {
            self.groups_at_risk.remove(group);
        }
    }

    /// Keeps only those noted groups that are orphaned and have a stopped member.
    fn keep_orphans_with_stopped(&mut self)
        ensures groups_at_risk { self.new.groups_at_risk ≡ filter (λ g. is_orphaned_of g self.old.state.processes && has_stopped_of g self.old.state.processes) self.old.groups_at_risk }
        ensures rising { Rises self.old.groups_at_risk }
        ensures same { self.new.state ≡ self.old.state }
        ensures visits { self.new.visits ≡ self.old.visits }
    {
        let mut next = self.groups_at_risk.first();
        while let Some(group) = next {
            self.keep_orphan_with_stopped(group);
            next = self.groups_at_risk.next_above(group);
        }
    }

    /// Generates SIGHUP for each member of a process group, and then SIGCONT for each.
    fn hup_and_cont(&mut self, group: Pid)
        ensures state { self.new.state ≡ with_processes self.old.state (hup_and_cont_of group self.old.state.processes) }
        ensures groups_at_risk { self.new.groups_at_risk ≡ self.old.groups_at_risk }
        ensures visits { self.new.visits ≤ self.old.visits + slots_of_hup_and_cont group self.old.state.processes }
        ensures no_fewer { self.old.visits ≤ self.new.visits }
    {
        self.signal_members(group, Sig::HUP);
        self.signal_members(group, Sig::CONT);
    }

    /// Generates SIGHUP and then SIGCONT for the members of each noted group.
    fn hup_and_cont_all(&mut self)
        ensures state { self.new.state ≡ with_processes self.old.state (hup_and_cont_all_of self.old.groups_at_risk self.old.state.processes) }
        ensures visits { self.new.visits ≤ self.old.visits + slots_of_hups self.old.groups_at_risk self.old.state.processes }
        ensures no_fewer { self.old.visits ≤ self.new.visits }
        ensures regular { IsRegular self.old.state }
    {
        let mut next = self.groups_at_risk.first();
        while let Some(group) = next {
            self.hup_and_cont(group);
            next = self.groups_at_risk.next_above(group);
        }
    }

    // ---- the termination

    /// Makes a process a zombie, as [`Machine::leave_children_and_die`] does. Then generates SIGHUP, and then SIGCONT,
    /// for each member of the process groups that this orphaned and that have a stopped member, one group after another
    /// in rising order. Returns the parent of the process.
    #[tactic(auto, using(posix::proofs::QuietLemmas::none_hup_and_cont), unfolding(posix::specs::Ends::hup_and_cont_all))]
    pub(crate) fn die_and_hup_orphans(&mut self, pid: Pid, heir: Pid, status: Status) -> Pid
        requires there { IsThere pid self.old }
        requires other { pid ≢ 1 }
        requires heir { CanInherit self.old.state.processes pid heir }
        ensures state { self.new.state ≡ hup_and_cont_orphans self.old.state.processes (tell_of_all (departing self.old.state pid heir status) heir (zombies_of pid self.old.state.processes)) }
        ensures is { IfThere pid self.old (λ me. result ≡ me.parent) }
        ensures parent { IfThere pid self.old (λ me. IsThere me.parent self.new) }
        ensures zombie { (it : Process) × (process self.new.state pid ≡ Some it) × (is_zombie it.life ≡ true) }
        ensures visits { self.new.visits ≤ self.old.visits + 3 + 5 * length (children_in pid self.old.state.processes) + slots_of_orphans self.old.state (tell_of_all (departing self.old.state pid heir status) heir (zombies_of pid self.old.state.processes)) }
        ensures no_fewer { self.old.visits ≤ self.new.visits }
    {
        if self.nobody_stopped() {
            return self.leave_children_and_die(pid, heir, status);
        }
        self.note_groups_at_risk(pid);
        let parent = self.leave_children_and_die(pid, heir, status);
        self.keep_orphans_with_stopped();
        self.hup_and_cont_all();
        parent
    }
}

//! Waits for children.

ghost use Rattle.std.specs.Prelude.{◌≡◌, ◌≢◌, ◌<◌, ◌≤◌, ◌+◌, ℕ, filter, length, option_map, Some, true, if◌then◌else◌};
ghost use Rattle.std.specs.List.{list_any};
ghost use Rattle.posix.specs.Common.{Process, is_zombie, lookup, removed, children_in, first_pid, is_member, parent_of, process, change, IsRegular, is_named as is_named_by, is_something, report, report_change as report_change_of, report_life as report_life_of, report_of as report_of_child, wanted_in, report_of_meant, news_told};
ghost use Rattle.posix.specs.declared.process.Report.TheVariants.{NoChild, Nothing};
ghost use Rattle.posix.specs.declared.target.Target.TheVariants as whom;
ghost use Rattle.life.specs.Waits.{is_meant as is_meant_by, is_reported};
ghost use Rattle.proctable.specs.Records.{snapshot_of, process_of};
ghost use Rattle.life.specs.Machines.{Finds, Changes, Removes, IsThere, IfThere, with_processes, CanGo, IsGone};
ghost use Rattle.jobs.specs.Indexes.{seen_of};
ghost use Rattle.life.specs.Rechecks.{asked_in as asked_in_call, awaits as awaiting, without_gone};
ghost use Rattle.life.specs.Foregrounds.{also_in as also_in_by};

use crate::caller::{Caller, caller_in};
use crate::consoles::also_in;
use crate::machine::Machine;
use crate::rechecks::forget;
use bitflags::Flags;
use jobs::{IndexedFields, IndexedTable};
use pidalloc::PidTable;
use posix::{Asked, Blocked, Life, News, Pid, Report, Status, Target, WaitidOptions};
use proctable::{ProcessTable, Record, Snapshot};

/// Returns what a wait with these options reports of a stop or a continue.
fn report_change(options: WaitidOptions, pid: Pid, news: News) -> Report
    ensures { result ≡ report_change_of options.0 pid news }
{
    match news {
        News::StoppedBy(sig) if options.contains(WaitidOptions::WSTOPPED) => {
            Report::Change(pid, Status::stopped(sig))
        }
        News::Continued if options.contains(WaitidOptions::WCONTINUED) => {
            Report::Change(pid, Status::continued())
        }
        _ => Report::Nothing,
    }
}

/// Returns what a wait with these options reports of a child.
fn report_life(options: WaitidOptions, pid: Pid, life: Life, news: News) -> Report
    ensures { result ≡ report_life_of options.0 pid life news }
{
    match life {
        Life::Zombie(status) if options.contains(WaitidOptions::WEXITED) => Report::End(
            pid, status,
        ),
        Life::Zombie(_) => Report::Nothing,
        Life::Running | Life::Stopped => report_change(options, pid, news),
    }
}

/// Returns true if a wait by a caller in this process group selects a child with this ID and process group.
fn is_named(group: Pid, target: Target, child: Pid, child_group: Pid) -> bool
    ensures { (r : Process) → r.pid ≡ child → r.group ≡ child_group → result ≡ is_named_by group target r }
{
    match target {
        Target::Process(pid) => child == pid,
        Target::OwnGroup => child_group == group,
        Target::Group(pid) => child_group == pid,
        Target::All => true,
        Target::Nobody => false,
    }
}

/// Returns true if a wait with these options reports a child.
fn reports(options: WaitidOptions, child: Pid, life: Life, news: News) -> bool
    ensures { result ≡ is_something (report_life_of options.0 child life news) }
{
    match report_life(options, child, life, news) {
        Report::End(..) | Report::Change(..) => true,
        Report::NoChild | Report::Nothing => false,
    }
}

/// Returns what a wait reports if no selected child has a requested status change. `has_child` is true if the wait
/// selects any child.
fn without_report(has_child: bool) -> Report
    ensures { result ≡ (if has_child then Nothing else NoChild) }
{
    if has_child {
        Report::Nothing
    } else {
        Report::NoChild
    }
}

/// Returns what the wait asks that a process is blocked in, if it is in one.
fn asked_in(me: &Record) -> Option<Asked>
    ensures { (p q : ℕ) → result ≡ asked_in_call (process_of p q me.now) me.now.own.blocked }
{
    match me.own.blocked {
        // Its ID doesn't matter here.
        Some(Blocked::Wait(call)) => caller_in(Pid::NONE, me).asked(call),
        Some(Blocked::Read | Blocked::Pause | Blocked::Sigsuspend(_)) | None => None,
    }
}

/// Returns true if a process is blocked in a wait that selects this child, whose state is `seen`, and that would report
/// it.
#[tactic(auto, unfolding(crate::specs::Rechecks::awaits, posix::specs::Waits::report_of))]
pub(crate) fn awaits(me: &Record, child: Pid, seen: &IndexedFields) -> bool
    ensures { (p q : ℕ) (it : Process) → it.pid ≡ child → seen.now ≡ seen_of it → result ≡ awaiting (process_of p q me.now) it }
{
    match asked_in(me) {
        Some(asked) => {
            is_named(me.group, asked.target, child, seen.group)
                && reports(asked.options, child, seen.life, seen.news)
        }
        None => false,
    }
}

/// Removes the record of an existing process without children from the parts of a machine. Its process, process group
/// and session IDs are then used once less. Returns its small fields.
pub(crate) fn discard<K: ProcessTable>(
    table: &mut IndexedTable<K>,
    pids: &mut PidTable,
    pid: Pid,
) -> Snapshot
    requires { CanGo table.old.processes pids.old pid }
    ensures value { Some result ≡ option_map snapshot_of (lookup pid table.old.processes) }
    ensures processes { table.new.processes ≡ removed pid table.old.processes }
    ensures counts { (it : Process) → lookup pid table.old.processes ≡ Some it → IsGone pids.old pids.new pid it }
    ensures visits { table.new.visits ≤ table.old.visits + 2 }
    ensures no_fewer { table.old.visits ≤ table.new.visits }
{
    let Some(snapshot) = table.remove(pid) else {
        unreachable!()
    };
    pids.give_up_all(pid, snapshot.group, snapshot.session);
    snapshot
}

impl<K: ProcessTable> Machine<K> {
    /// Returns what a wait for one process reports: `NoChild` if that isn't a child of the caller.
    #[tactic(auto, using(crate::proofs::ChildLemmas::report_read))]
    fn report_of_one(&mut self, parent: Pid, child: Pid, options: WaitidOptions) -> Report
        ensures { Finds 1 self.old self.new ((own : ℕ) → result ≡ report self.old.state.processes parent own (whom.Process child) options.0) }
    {
        if let Some(snapshot) = self.snapshot(child) {
            if snapshot.parent == parent {
                return report_life(options, child, snapshot.life, snapshot.news);
            }
        }
        Report::NoChild
    }

    /// Returns what a wait with these options reports of an existing child.
    #[tactic(auto, using(crate::proofs::ChildLemmas::read_report))]
    fn report_of(&mut self, child: Pid, options: WaitidOptions) -> Report
        requires { IsThere child self.old }
        ensures { Finds 1 self.old self.new (IfThere child self.old (λ it. result ≡ report_of_child options.0 it)) }
    {
        match self.snapshot(child) {
            Some(snapshot) => report_life(options, child, snapshot.life, snapshot.news),
            None => Report::Nothing,
        }
    }

    /// Returns true if a wait for any child, or for those in a process group, selects an existing child. Reads no slot.
    fn is_meant(&self, group: &Option<Pid>, child: Pid) -> bool
        ensures meant { IfThere child self.now (λ it. result ≡ is_meant_by group.now it) }
        ensures regular { IsRegular self.now.state }
    {
        let _ = &self.table;
        match group {
            Some(group) => self.is_member(*group, child),
            None => true,
        }
    }

    /// Returns the child with the lowest ID that such a wait selects and would report. Reads no slot, and looks at no
    /// child without a requested status change.
    fn first_wanted(&self, parent: Pid, group: &Option<Pid>, options: WaitidOptions) -> Option<Pid>
        ensures value { result ≡ first_pid (filter (is_meant_by group.now) (wanted_in options.0 parent self.now.state.processes)) }
        ensures regular { IsRegular self.now.state }
    {
        let mut next = self.next_wanted(parent, options, Pid::NONE);
        while let Some(child) = next {
            if self.is_meant(group, child) {
                return Some(child);
            }
            next = self.next_wanted(parent, options, child);
        }
        None
    }

    /// Returns true if an existing process has a child in a process group. Walks the members and the children side by
    /// side, so it takes no more rounds than the shorter walk. Reads no slot.
    #[tactic(auto, using(crate::proofs::MemberLemmas::member_there))]
    fn has_child_in(&self, parent: Pid, group: Pid) -> bool
        requires { IsThere parent self.now }
        ensures { result ≡ list_any (is_member group) (children_in parent self.now.state.processes) }
    {
        let mut next_child = self.next_child(parent, Pid::NONE);
        let mut next_member = self.next_member(group, Pid::NONE);
        while let Some(child) = next_child {
            let Some(member) = next_member else {
                return false;
            };
            if self.is_member(group, child) {
                return true;
            }
            if self.parent(member) == parent {
                return true;
            }
            next_child = self.next_child(parent, child);
            next_member = self.next_member(group, member);
        }
        false
    }

    /// Returns true if an existing process has a child or, if `group` is given, a child in that group. Reads no slot.
    #[tactic(auto, using(crate::proofs::ChildLemmas::any_child))]
    fn has_child(&self, parent: Pid, group: &Option<Pid>) -> bool
        requires { IsThere parent self.now }
        ensures { result ≡ list_any (is_meant_by group.now) (children_in parent self.now.state.processes) }
    {
        match group {
            Some(group) => self.has_child_in(parent, *group),
            None => self.next_child(parent, Pid::NONE).is_some(),
        }
    }

    /// Returns what a wait for any child, or for those in a process group, reports: the requested status change of the
    /// lowest-numbered selected child that has one. If none has one, returns whether any child is selected.
    #[tactic(auto, using(crate::proofs::ChildLemmas::wanted_there))]
    fn report_of_children(
        &mut self,
        parent: Pid,
        group: &Option<Pid>,
        options: WaitidOptions,
    ) -> Report
        requires { IsThere parent self.old }
        ensures { Finds 1 self.old self.new (result ≡ report_of_meant (is_meant_by group.now) options.0 (children_in parent self.old.state.processes)) }
    {
        match self.first_wanted(parent, group, options) {
            Some(child) => self.report_of(child, options),
            None => without_report(self.has_child(parent, group)),
        }
    }

    /// Returns what a wait of an existing caller reports: of the selected children with a requested status change, the
    /// one with the lowest process ID (own; XSH waitpid). Changes nothing.
    #[tactic(auto, using(posix::proofs::ReportingLemmas::report_none_meant))]
    pub fn wait_attempt(&mut self, me: &Caller, asked: Asked) -> Report
        requires { IsThere me.now.pid self.old }
        ensures { Finds 1 self.old self.new (result ≡ report self.old.state.processes me.now.pid me.now.group asked.target asked.options.0) }
    {
        let _ = &self.table;
        let Asked { target, options } = asked;
        match target {
            Target::Process(pid) => self.report_of_one(me.pid, pid, options),
            Target::All => self.report_of_children(me.pid, &None, options),
            Target::OwnGroup => self.report_of_children(me.pid, &Some(me.group), options),
            Target::Group(group) => self.report_of_children(me.pid, &Some(group), options),
            Target::Nobody => Report::NoChild,
        }
    }

    /// Returns true if a wait of a caller reports the process with this ID, if it gets to it: the process is a child of
    /// the caller, the wait selects it, and it has a requested status change. Changes nothing.
    #[tactic(auto, using(crate::proofs::ChildLemmas::is_reported_read), unfolding(posix::specs::Waits::report_of))]
    pub fn has_report_of(&mut self, me: &Caller, asked: Asked, child: Pid) -> bool
        ensures { Finds 1 self.old self.new (result ≡ is_reported me.now.pid me.now.group asked.target asked.options.0 (process self.old.state child)) }
    {
        match self.snapshot(child) {
            Some(it) => {
                it.parent == me.pid
                    && is_named(me.group, asked.target, it.pid, it.group)
                    && reports(asked.options, it.pid, it.life, it.news)
            }
            None => false,
        }
    }

    /// Reaps a zombie other than process 1: removes its record. Its process, process group and session IDs are then
    /// used once less (XSH waitpid).
    pub fn reap(&mut self, pid: Pid)
        requires other { pid ≢ 1 }
        requires zombie { (child : Process) × (process self.old.state pid ≡ Some child) × (is_zombie child.life ≡ true) }
        ensures changes { Removes 2 self.old self.new (with_processes self.old.state (removed pid self.old.state.processes)) (without_gone pid (parent_of pid self.old.state.processes) self.old.state.order self.old.to_recheck) }
        ensures foregrounds_unchecked { IfThere pid self.old (λ it. self.new.foregrounds_unchecked ≡ also_in_by it.session self.old.foregrounds_unchecked) }
        ensures born { self.new.state.dropped + length self.new.state.processes < self.new.state.births }
    {
        let snapshot = discard(&mut self.table, &mut self.pids, pid);
        self.readers.put(pid, None);
        forget(&mut self.to_recheck, &self.order, pid, snapshot.parent);
        self.foregrounds_unchecked = also_in(&self.foregrounds_unchecked, snapshot.session);
        self.give_up_unborne_pages(pid, snapshot.group, snapshot.session);
    }

    /// Clears the status change of an existing process, after a wait has reported it (XSH waitpid). This makes no
    /// process runnable.
    pub fn clear_news(&mut self, pid: Pid)
        requires { IsThere pid self.old }
        ensures { Changes 1 self.old self.new (change self.old.state pid news_told) self.old.to_recheck }
    {
        self.table.change_seen(pid, |fields| fields.clear_news());
    }
}

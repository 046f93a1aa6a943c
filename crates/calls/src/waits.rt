//! Waits for children (XSH waitpid, XSH waitid).

ghost use Rattle.std.specs.Prelude.{◌≡◌, ◌≢◌, ◌+◌, ◌≤◌, ◌++◌, true, if◌then◌else◌, ◌∷◌, [], length, pos, IsSome, Some};
ghost use Rattle.posix.specs.declared.entry.Entry.TheVariants.{Called, Looked, Reported};
ghost use Rattle.posix.specs.Common.{Process, call_of_wait, process, IsPlaced, IsRegular, finish, wait_by as waiting, results_of, results_of_nothing, is_block, has_place};
ghost use Rattle.life.specs.Callers.{process_like};
ghost use Rattle.life.specs.Machines.{AreSame};
ghost use Rattle.posix.specs.declared.process.Blocked.{Blocked as BlockedValue};
ghost use Rattle.calls.specs.Counts.{reports_first as reporting_first, slots_of_first, slots_of_waiting};
ghost use Rattle.calls.specs.Outcomes.{Comes, CostsAtMost, IsQuiet, CostsWithRechecks};

use crate::attempts::refuse;
use crate::entries::Entries;
use crate::outcome::Attempt;
use bitflags::Flags;
use life::{Caller, Machine};
use posix::{Asked, Blocked, Entry, Errno, Pid, Report, Status, WaitCall, WaitidOptions};
use proctable::ProcessTable;

/// Completes the wait of an existing process with a child. The child has been reaped, its stop or continue has been
/// cleared, or it is left as it is (WNOWAIT).
fn report<K: ProcessTable>(
    machine: &mut Machine<K>,
    pid: Pid,
    call: WaitCall,
    child: Pid,
    status: Status,
    leaves: bool,
    entries: &mut Entries,
) -> Attempt
    requires there { IsSome (process machine.old.state pid) }
    requires room { length entries.old.items ≤ 3 }
    ensures done { result ≡ Attempt.Done }
    ensures state { machine.new.state ≡ finish machine.old.state pid (results_of call child status) }
    ensures shown { entries.new.items ≡ entries.old.items ++ (if leaves then Looked pid child status else Reported pid call child status) ∷ [] }
    ensures costs { has_place machine.old.state pid ≡ true → CostsAtMost 1 machine.old machine.new }
    ensures no_fewer { machine.old.visits ≤ machine.new.visits }
{
    machine.own(pid).finish_wait(call, child, status);
    entries.push(if leaves {
        Entry::Looked { pid, child, status }
    } else {
        Entry::Reported {
            pid,
            call,
            child,
            status,
        }
    });
    Attempt::Done
}

/// Completes the wait of an existing process that has nothing to report, and need not wait.
fn find_nothing<K: ProcessTable>(
    machine: &mut Machine<K>,
    pid: Pid,
    call: WaitCall,
    entries: &mut Entries,
) -> Attempt
    requires there { IsSome (process machine.old.state pid) }
    requires room { length entries.old.items ≤ 3 }
    ensures done { result ≡ Attempt.Done }
    ensures state { machine.new.state ≡ finish machine.old.state pid (results_of_nothing call) }
    ensures shown { entries.new.items ≡ entries.old.items ++ Called pid (call_of_wait call) (pos 0) ∷ [] }
    ensures costs { has_place machine.old.state pid ≡ true → CostsAtMost 1 machine.old machine.new }
    ensures no_fewer { machine.old.visits ≤ machine.new.visits }
{
    machine.own(pid).finish_without_child(call);
    entries.push(Entry::Called {
        pid,
        call: call.call(),
        result: 0,
    });
    Attempt::Done
}

/// Waits for a child of a live caller.
#[tactic(auto, unfolding(posix::specs::Waits::wait_by))]
fn wait_as<K: ProcessTable>(
    machine: &mut Machine<K>,
    call: WaitCall,
    me: &Caller,
    entries: &mut Entries,
) -> Attempt
    requires regular { IsRegular machine.old.state }
    requires placed { IsPlaced machine.old.state.processes me.now.pid }
    requires room { length entries.old.items ≤ 1 }
    ensures comes { Comes machine.old.state (waiting call machine.old.state (process_like me.now)) result entries.old.items entries.new.items machine.new.state }
    ensures brief { IsQuiet me.now.pid machine.old → CostsWithRechecks 5 machine.old machine.new }
    ensures once { result ≢ Attempt.Again }
    ensures waits { (b : BlockedValue) → result ≡ Attempt.Block b → AreSame machine.old machine.new }
    ensures no_fewer { machine.old.visits ≤ machine.new.visits }
{
    let Some(asked) = me.asked(call) else {
        return refuse(machine, me.pid, call.call(), Errno::EINVAL, entries);
    };
    let leaves = asked.options.contains(WaitidOptions::WNOWAIT);
    match machine.wait_attempt(me, asked) {
        Report::NoChild => refuse(machine, me.pid, call.call(), Errno::ECHILD, entries),
        Report::Nothing => {
            if asked.options.contains(WaitidOptions::WNOHANG) {
                find_nothing(machine, me.pid, call, entries)
            } else {
                Attempt::Block(Blocked::Wait(call))
            }
        }
        Report::End(child, status) => {
            if !leaves {
                machine.reap(child);
            }
            report(machine, me.pid, call, child, status, leaves, entries)
        }
        Report::Change(child, status) => {
            if !leaves {
                machine.clear_news(child);
            }
            report(machine, me.pid, call, child, status, leaves, entries)
        }
    }
}

/// Waits for a child, and returns its process ID and wait status. Returns 0 if WNOHANG is set and no selected child has
/// a requested status change. Without WNOHANG, the caller then has to wait. Fails with EINVAL if the options, or the
/// kind or ID of `waitid`, are invalid; with ECHILD if no child is selected (XSH waitpid, waitid).
#[tactic(auto, unfolding(posix::specs::Waits::wait_by))]
pub fn wait<K: ProcessTable>(
    machine: &mut Machine<K>,
    call: WaitCall,
    pid: Pid,
    entries: &mut Entries,
) -> Attempt
    requires placed { IsPlaced machine.old.state.processes pid }
    requires room { length entries.old.items ≤ 1 }
    ensures comes { (me : Process) → process machine.old.state pid ≡ Some me → Comes machine.old.state (waiting call machine.old.state me) result entries.old.items entries.new.items machine.new.state }
    ensures brief { IsQuiet pid machine.old → CostsWithRechecks 6 machine.old machine.new }
    ensures once { result ≢ Attempt.Again }
    ensures waits { (b : BlockedValue) → result ≡ Attempt.Block b → AreSame machine.old machine.new }
    ensures no_fewer { machine.old.visits ≤ machine.new.visits }
{
    let me = machine.caller(pid);
    wait_as(machine, call, &me, entries)
}

/// Returns true if the wait of a caller reports the process `first`, if there is one and the wait gets to it.
fn reports_first<K: ProcessTable>(
    machine: &mut Machine<K>,
    me: &Caller,
    asked: Asked,
    first: Option<Pid>,
) -> bool
    ensures value { result ≡ reporting_first machine.old.state.processes first me.now.pid me.now.group asked }
    ensures same { AreSame machine.old machine.new }
    ensures visits { machine.new.visits ≤ machine.old.visits + slots_of_first first }
    ensures no_fewer { machine.old.visits ≤ machine.new.visits }
{
    match first {
        Some(child) => machine.has_report_of(me, asked, child),
        None => false,
    }
}

/// Returns true if the wait of an existing caller would have to wait. If it reports the process `first`, looks at no
/// other.
#[tactic(auto, unfolding(posix::specs::Waits::wait_by))]
fn would_wait<K: ProcessTable>(
    machine: &mut Machine<K>,
    call: WaitCall,
    me: &Caller,
    first: Option<Pid>,
) -> bool
    requires { IsSome (process machine.old.state me.now.pid) }
    ensures value { result ≡ is_block (waiting call machine.old.state (process_like me.now)) }
    ensures same { AreSame machine.old machine.new }
    ensures visits { machine.new.visits + 1 ≤ machine.old.visits + slots_of_waiting machine.old.state.processes first call (process_like me.now) }
    ensures no_fewer { machine.old.visits ≤ machine.new.visits }
{
    let Some(asked) = me.asked(call) else {
        return false;
    };
    if reports_first(machine, me, asked, first) {
        return false;
    }
    match machine.wait_attempt(me, asked) {
        Report::Nothing => !asked.options.contains(WaitidOptions::WNOHANG),
        _ => false,
    }
}

/// Returns true if the wait of an existing process would have to wait. If it reports the process `first`, looks at no
/// other. Changes nothing.
#[inline(always)]
pub fn has_to_wait<K: ProcessTable>(
    machine: &mut Machine<K>,
    call: WaitCall,
    pid: Pid,
    first: Option<Pid>,
) -> bool
    requires { IsSome (process machine.old.state pid) }
    ensures value { (me : Process) → process machine.old.state pid ≡ Some me → result ≡ is_block (waiting call machine.old.state me) }
    ensures same { AreSame machine.old machine.new }
    ensures visits { (me : Process) → process machine.old.state pid ≡ Some me → machine.new.visits ≤ machine.old.visits + slots_of_waiting machine.old.state.processes first call me }
    ensures no_fewer { machine.old.visits ≤ machine.new.visits }
{
    let me = machine.caller(pid);
    would_wait(machine, call, &me, first)
}

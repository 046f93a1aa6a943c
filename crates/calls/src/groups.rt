//! Process groups and sessions (XSH getpgid, getsid, setpgid, setsid).

ghost use Rattle.std.specs.Prelude.{◌≡◌, ◌≤◌, length, IsSome, Some, option_map};
ghost use Rattle.posix.specs.Common.{Process, argument, process, IsPlaced, named as named_by, tells};
ghost use Rattle.proctable.specs.Records.{snapshot_of};
ghost use Rattle.calls.specs.Outcomes.{Attempts, Comes, id_told};

use crate::attempts::{finish_with, refuse};
use crate::entries::Entries;
use crate::outcome::Attempt;
use life::Machine;
use posix::{Call, Errno, Pid, Register};
use proctable::{ProcessTable, Snapshot};

/// Returns the small fields of the process whose ID is the first argument of an existing caller; 0 selects the caller.
/// Returns `None` if no process has that ID. Changes nothing.
fn named<K: ProcessTable>(machine: &mut Machine<K>, pid: Pid) -> Option<Snapshot>
    requires { IsSome (process machine.old.state pid) }
    ensures value { (me : Process) → process machine.old.state pid ≡ Some me → result ≡ option_map snapshot_of (named_by me (argument me 1) machine.old.state.processes) }
    ensures same { machine.new.state ≡ machine.old.state }
    ensures no_fewer { machine.old.visits ≤ machine.new.visits }
{
    let word = machine.look(pid).cpu.register(Register::FIRST_ARGUMENT);
    machine.named(pid, word)
}

/// Returns what a call reports of a process: its session for `getsid`, otherwise its process group.
fn told_by(call: Call, it: &Snapshot) -> Pid
    ensures { result ≡ id_told call it.now }
{
    match call {
        Call::Getsid => it.session,
        _ => it.group,
    }
}

/// Completes a `getpgid` or a `getsid` with the ID that it reports of the process whose ID is in r1; 0 selects the
/// caller. Fails with ESRCH if no process has that ID.
fn tell<K: ProcessTable>(
    machine: &mut Machine<K>,
    pid: Pid,
    call: Call,
    entries: &mut Entries,
) -> Attempt
    requires there { IsSome (process machine.old.state pid) }
    requires room { length entries.old.items ≤ 1 }
    ensures comes { (me : Process) → process machine.old.state pid ≡ Some me → Comes machine.old.state (tells machine.old.state me call (λ r. id_told call (snapshot_of r)) (named_by me (argument me 1) machine.old.state.processes)) result entries.old.items entries.new.items machine.new.state }
    ensures no_fewer { machine.old.visits ≤ machine.new.visits }
{
    let Some(it) = named(machine, pid) else {
        return refuse(machine, pid, call, Errno::ESRCH, entries);
    };
    let id = told_by(call, &it);
    finish_with(machine, pid, call, i64::from(id.number()), entries)
}

/// Returns the process group ID of the process whose ID is in r1; 0 selects the caller. Fails with ESRCH if no process
/// has that ID (XSH getpgid).
#[tactic(auto, unfolding(posix::specs::Attempts::attempt, posix::specs::GroupCalls::getpgid))]
pub fn getpgid<K: ProcessTable>(
    machine: &mut Machine<K>,
    pid: Pid,
    entries: &mut Entries,
) -> Attempt
    requires there { IsSome (process machine.old.state pid) }
    requires room { length entries.old.items ≤ 1 }
    ensures attempts { Attempts machine.old.state pid Call.Getpgid result entries.old.items entries.new.items machine.new.state }
    ensures no_fewer { machine.old.visits ≤ machine.new.visits }
{
    tell(machine, pid, Call::Getpgid, entries)
}

/// Returns the session ID of the process whose ID is in r1; 0 selects the caller. Fails with ESRCH if no process has
/// that ID (XSH getsid).
#[tactic(auto, unfolding(posix::specs::Attempts::attempt, posix::specs::GroupCalls::getsid))]
pub fn getsid<K: ProcessTable>(machine: &mut Machine<K>, pid: Pid, entries: &mut Entries) -> Attempt
    requires there { IsSome (process machine.old.state pid) }
    requires room { length entries.old.items ≤ 1 }
    ensures attempts { Attempts machine.old.state pid Call.Getsid result entries.old.items entries.new.items machine.new.state }
    ensures no_fewer { machine.old.visits ≤ machine.new.visits }
{
    tell(machine, pid, Call::Getsid, entries)
}

/// Moves the process whose ID is in r1, the caller or a child, to the process group in r2. Fails as
/// [`Machine::move_group`] does (XSH setpgid).
#[tactic(auto, unfolding(posix::specs::Attempts::attempt, posix::specs::GroupCalls::setpgid))]
pub fn setpgid<K: ProcessTable>(
    machine: &mut Machine<K>,
    pid: Pid,
    entries: &mut Entries,
) -> Attempt
    requires placed { IsPlaced machine.old.state.processes pid }
    requires room { length entries.old.items ≤ 1 }
    ensures attempts { Attempts machine.old.state pid Call.Setpgid result entries.old.items entries.new.items machine.new.state }
    ensures no_fewer { machine.old.visits ≤ machine.new.visits }
{
    let me = machine.caller(pid);
    match machine.move_group(&me) {
        Ok(_) => finish_with(machine, pid, Call::Setpgid, 0, entries),
        Err(errno) => refuse(machine, pid, Call::Setpgid, errno, entries),
    }
}

/// Makes the caller the leader of a new session and of a new process group, and returns its ID. Fails with EPERM if the
/// caller leads a process group, or if another process is in a group with the caller's ID (XSH setsid).
#[tactic(auto, unfolding(posix::specs::Attempts::attempt, posix::specs::GroupCalls::setsid))]
pub fn setsid<K: ProcessTable>(machine: &mut Machine<K>, pid: Pid, entries: &mut Entries) -> Attempt
    requires placed { IsPlaced machine.old.state.processes pid }
    requires room { length entries.old.items ≤ 1 }
    ensures attempts { Attempts machine.old.state pid Call.Setsid result entries.old.items entries.new.items machine.new.state }
    ensures no_fewer { machine.old.visits ≤ machine.new.visits }
{
    match machine.new_session(pid) {
        Ok(()) => finish_with(machine, pid, Call::Setsid, i64::from(pid.number()), entries),
        Err(errno) => refuse(machine, pid, Call::Setsid, errno, entries),
    }
}

//! Calls on the controlling terminal other than read and write: acquiring it, its foreground process group and TOSTOP
//! (XBD 11.1, XSH tcgetpgrp, tcsetpgrp).

ghost use Rattle.std.specs.Prelude.{◌≡◌, ◌≤◌, length, pos, IsSome, Some, option_map, slice_get};
ghost use Rattle.posix.specs.Common.{Process, argument, Console, process, IsRegular, console_named as console_named_by, setctty_of, may_acquire as may_acquire_by, foreground_told as foreground_told_of, put_foreground as putting_foreground, tcsetpgrp_on as tcsetpgrp_of, settostop_on as settostop_of};
ghost use Rattle.life.specs.Callers.{caller_of};
ghost use Rattle.life.specs.Consoles.{terminal_of};
ghost use Rattle.calls.specs.Outcomes.{Attempts, Comes};
ghost use Rattle.calls.specs.Terminals.{natural_in as natural_number_in, putting_tostop};

use crate::attempts::{finish_with, refuse};
use crate::background::{Access, change_access, signal_own_group};
use crate::entries::Entries;
use crate::outcome::Attempt;
use life::{Caller, Machine, Terminal};
use posix::{Call, Errno, Pid, Sig};
use proctable::ProcessTable;

// ---- setctty

/// Returns the index of the console whose number is in a register. Numbers start at 1.
fn console_named(word: i64) -> Option<usize>
    ensures { result ≡ console_named_by word }
{
    usize::try_from(word).ok()?.checked_sub(1)
}

/// Returns true if a caller leads a session without a terminal, and the console that it wants is no session's terminal.
/// `session` is the session of that console, or number 0 if it has none.
fn may_acquire<K: ProcessTable>(machine: &Machine<K>, me: &Caller, session: Pid) -> bool
    ensures { (r : Process) (c : Console) → me.now ≡ caller_of r → session ≡ c.session → result ≡ may_acquire_by machine.now.state r c }
{
    me.session == me.pid && machine.terminal(me.session).is_none() && session == Pid::NONE
}

/// Makes the console with this index the terminal of an existing caller's session. `session` is the session that has
/// the console, or number 0 if none has. Fails with EPERM if the caller may not acquire the console.
fn acquire<K: ProcessTable>(
    machine: &mut Machine<K>,
    me: &Caller,
    console_index: usize,
    session: Pid,
    entries: &mut Entries,
) -> Attempt
    requires there { IsSome (process machine.old.state me.now.pid) }
    requires caller { (r : Process) → process machine.old.state me.now.pid ≡ Some r → me.now ≡ caller_of r }
    requires console_index { Some session ≡ option_map (λ (c : Console). c.session) (slice_get machine.old.state.consoles console_index) }
    requires room { length entries.old.items ≤ 1 }
    ensures comes { (r : Process) (c : Console) → process machine.old.state me.now.pid ≡ Some r → slice_get machine.old.state.consoles console_index ≡ Some c → Comes machine.old.state (setctty_of machine.old.state r console_index (Some c)) result entries.old.items entries.new.items machine.new.state }
    ensures no_fewer { machine.old.visits ≤ machine.new.visits }
{
    if !may_acquire(machine, me, session) {
        return refuse(machine, me.pid, Call::Setctty, Errno::EPERM, entries);
    }
    machine.acquire_console(console_index, me.session, me.group);
    finish_with(machine, me.pid, Call::Setctty, 0, entries)
}

/// Makes the console in r1 the controlling terminal of the session that the caller leads, with the caller's process
/// group in the foreground. Input that was typed before stays. Fails with ENOENT if there is no such console; with
/// EPERM if the caller leads no session, its session has a terminal, or the console is another session's (own; as
/// TIOCSCTTY in ioctl_tty(2), which in Linux returns 0 for the session's own terminal).
#[tactic(auto, unfolding(posix::specs::Attempts::attempt, posix::specs::Terminals::setctty))]
pub fn setctty<K: ProcessTable>(
    machine: &mut Machine<K>,
    pid: Pid,
    entries: &mut Entries,
) -> Attempt
    requires there { IsSome (process machine.old.state pid) }
    requires room { length entries.old.items ≤ 1 }
    ensures attempts { Attempts machine.old.state pid Call.Setctty result entries.old.items entries.new.items machine.new.state }
    ensures no_fewer { machine.old.visits ≤ machine.new.visits }
{
    let me = machine.caller(pid);
    let Some(console_index) = console_named(me.r1) else {
        return refuse(machine, pid, Call::Setctty, Errno::ENOENT, entries);
    };
    let Some(session) = machine.session_at(console_index) else {
        return refuse(machine, pid, Call::Setctty, Errno::ENOENT, entries);
    };
    acquire(machine, &me, console_index, session, entries)
}

// ---- tcgetpgrp

/// Returns the result of `tcgetpgrp`: the foreground process group, or a number above all process IDs if there is none.
fn foreground_told(pidmax: u32, group: Pid) -> i64
    ensures { result ≡ pos (foreground_told_of pidmax group) }
{
    if group == Pid::NONE {
        i64::from(pidmax) + 1
    } else {
        i64::from(group.number())
    }
}

/// Returns the foreground process group of the caller's terminal, or pidmax + 1 if there is none. Fails with ENOTTY if
/// the caller's session has no terminal (XSH tcgetpgrp).
#[tactic(auto, unfolding(posix::specs::Attempts::attempt, posix::specs::Terminals::tcgetpgrp))]
pub fn tcgetpgrp<K: ProcessTable>(
    machine: &mut Machine<K>,
    pid: Pid,
    entries: &mut Entries,
) -> Attempt
    requires there { IsSome (process machine.old.state pid) }
    requires room { length entries.old.items ≤ 1 }
    ensures attempts { Attempts machine.old.state pid Call.Tcgetpgrp result entries.old.items entries.new.items machine.new.state }
    ensures no_fewer { machine.old.visits ≤ machine.new.visits }
{
    let me = machine.caller(pid);
    let Some(terminal) = machine.terminal(me.session) else {
        return refuse(machine, pid, Call::Tcgetpgrp, Errno::ENOTTY, entries);
    };
    let told = foreground_told(machine.pidmax(), terminal.foreground);
    finish_with(machine, pid, Call::Tcgetpgrp, told, entries)
}

// ---- tcsetpgrp

/// Returns the number in a register, or `None` if it is negative.
fn natural_in(word: i64) -> Option<u64>
    ensures { result ≡ natural_number_in word }
{
    u64::try_from(word).ok()
}

/// Makes the process group in r1 of an existing caller the foreground one of its session's terminal. Fails with EINVAL
/// if r1 is negative; with EPERM if no process of the session is in that group.
fn put_foreground<K: ProcessTable>(
    machine: &mut Machine<K>,
    me: &Caller,
    entries: &mut Entries,
) -> Attempt
    requires regular { IsRegular machine.old.state }
    requires there { IsSome (process machine.old.state me.now.pid) }
    requires caller { (r : Process) → process machine.old.state me.now.pid ≡ Some r → me.now ≡ caller_of r }
    requires room { length entries.old.items ≤ 1 }
    ensures comes { (r : Process) → process machine.old.state me.now.pid ≡ Some r → Comes machine.old.state (putting_foreground machine.old.state r (argument r 1)) result entries.old.items entries.new.items machine.new.state }
    ensures no_fewer { machine.old.visits ≤ machine.new.visits }
{
    let Some(group) = natural_in(me.r1) else {
        return refuse(machine, me.pid, Call::Tcsetpgrp, Errno::EINVAL, entries);
    };
    let Some(group) = machine.group_of(me.session, group) else {
        return refuse(machine, me.pid, Call::Tcsetpgrp, Errno::EPERM, entries);
    };
    machine.set_foreground(me.session, group);
    finish_with(machine, me.pid, Call::Tcsetpgrp, 0, entries)
}

/// Sets the foreground process group of the caller's terminal, if the rule for the background allows it.
fn tcsetpgrp_on<K: ProcessTable>(
    machine: &mut Machine<K>,
    me: &Caller,
    terminal: &Terminal,
    entries: &mut Entries,
) -> Attempt
    requires regular { IsRegular machine.old.state }
    requires there { IsSome (process machine.old.state me.now.pid) }
    requires caller { (r : Process) → process machine.old.state me.now.pid ≡ Some r → me.now ≡ caller_of r }
    requires room { length entries.old.items ≤ 1 }
    ensures comes { (r : Process) (c : Console) → process machine.old.state me.now.pid ≡ Some r → terminal.now ≡ terminal_of c → Comes machine.old.state (tcsetpgrp_of machine.old.state r (Some c)) result entries.old.items entries.new.items machine.new.state }
    ensures no_fewer { machine.old.visits ≤ machine.new.visits }
{
    match change_access(machine, me, terminal) {
        Access::Allowed => put_foreground(machine, me, entries),
        Access::Refused => refuse(machine, me.pid, Call::Tcsetpgrp, Errno::EIO, entries),
        Access::Signalled => signal_own_group(machine, me, Sig::TTOU),
    }
}

/// Makes the process group in r1 the foreground one of the caller's terminal. Fails with ENOTTY if the caller's session
/// has no terminal; with EINVAL if the group is negative; with EPERM if no process of the caller's session is in it. In
/// the background, fails with EIO, or generates SIGTTOU for the caller's process group and restarts, unless the caller
/// blocks or ignores SIGTTOU (XBD 11.1.4, XSH tcsetpgrp). In Linux the error in the background is ENOTTY, and that of
/// an ID which no process has is ESRCH.
#[tactic(auto, unfolding(posix::specs::Attempts::attempt, posix::specs::Terminals::tcsetpgrp))]
pub fn tcsetpgrp<K: ProcessTable>(
    machine: &mut Machine<K>,
    pid: Pid,
    entries: &mut Entries,
) -> Attempt
    requires there { IsSome (process machine.old.state pid) }
    requires room { length entries.old.items ≤ 1 }
    ensures attempts { Attempts machine.old.state pid Call.Tcsetpgrp result entries.old.items entries.new.items machine.new.state }
    ensures no_fewer { machine.old.visits ≤ machine.new.visits }
{
    let me = machine.caller(pid);
    let Some(terminal) = machine.terminal(me.session) else {
        return refuse(machine, pid, Call::Tcsetpgrp, Errno::ENOTTY, entries);
    };
    tcsetpgrp_on(machine, &me, &terminal, entries)
}

// ---- settostop

/// Sets TOSTOP of an existing caller's terminal if r1 isn't 0, otherwise clears it.
fn put_tostop<K: ProcessTable>(
    machine: &mut Machine<K>,
    me: &Caller,
    entries: &mut Entries,
) -> Attempt
    requires regular { IsRegular machine.old.state }
    requires there { IsSome (process machine.old.state me.now.pid) }
    requires caller { (r : Process) → process machine.old.state me.now.pid ≡ Some r → me.now ≡ caller_of r }
    requires room { length entries.old.items ≤ 1 }
    ensures comes { (r : Process) → process machine.old.state me.now.pid ≡ Some r → Comes machine.old.state (putting_tostop machine.old.state r) result entries.old.items entries.new.items machine.new.state }
    ensures no_fewer { machine.old.visits ≤ machine.new.visits }
{
    machine.set_tostop(me.session, me.r1 != 0);
    finish_with(machine, me.pid, Call::Settostop, 0, entries)
}

/// Sets or clears TOSTOP of the caller's terminal, if the rule for the background allows it.
fn settostop_on<K: ProcessTable>(
    machine: &mut Machine<K>,
    me: &Caller,
    terminal: &Terminal,
    entries: &mut Entries,
) -> Attempt
    requires regular { IsRegular machine.old.state }
    requires there { IsSome (process machine.old.state me.now.pid) }
    requires caller { (r : Process) → process machine.old.state me.now.pid ≡ Some r → me.now ≡ caller_of r }
    requires room { length entries.old.items ≤ 1 }
    ensures comes { (r : Process) (c : Console) → process machine.old.state me.now.pid ≡ Some r → terminal.now ≡ terminal_of c → Comes machine.old.state (settostop_of machine.old.state r (Some c)) result entries.old.items entries.new.items machine.new.state }
    ensures no_fewer { machine.old.visits ≤ machine.new.visits }
{
    match change_access(machine, me, terminal) {
        Access::Allowed => put_tostop(machine, me, entries),
        Access::Refused => refuse(machine, me.pid, Call::Settostop, Errno::EIO, entries),
        Access::Signalled => signal_own_group(machine, me, Sig::TTOU),
    }
}

/// Sets TOSTOP of the caller's terminal if r1 isn't 0, otherwise clears it. Fails with ENOTTY if the caller's session
/// has no terminal. In the background, fails with EIO, or generates SIGTTOU for the caller's process group and
/// restarts, unless the caller blocks or ignores SIGTTOU (own; as XSH tcsetattr, XBD 11.1.4).
#[tactic(auto, unfolding(posix::specs::Attempts::attempt, posix::specs::Terminals::settostop))]
pub fn settostop<K: ProcessTable>(
    machine: &mut Machine<K>,
    pid: Pid,
    entries: &mut Entries,
) -> Attempt
    requires there { IsSome (process machine.old.state pid) }
    requires room { length entries.old.items ≤ 1 }
    ensures attempts { Attempts machine.old.state pid Call.Settostop result entries.old.items entries.new.items machine.new.state }
    ensures no_fewer { machine.old.visits ≤ machine.new.visits }
{
    let me = machine.caller(pid);
    let Some(terminal) = machine.terminal(me.session) else {
        return refuse(machine, pid, Call::Settostop, Errno::ENOTTY, entries);
    };
    settostop_on(machine, &me, &terminal, entries)
}

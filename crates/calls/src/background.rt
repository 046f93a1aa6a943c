//! Background process groups: which processes may use a terminal (XBD 11.1.4).

ghost use Rattle.std.specs.Prelude.{◌≡◌, ◌≤◌, false, IsSome, Some};
ghost use Rattle.posix.specs.Common.{Process, is_realtime, Console, process, is_ignored as is_ignored_by, is_in_background as is_in_background_of, blocks_or_ignores as blocks_or_ignores_signal, signalled_group};
ghost use Rattle.life.specs.Callers.{caller_of};
ghost use Rattle.life.specs.Consoles.{terminal_of};
ghost use Rattle.calls.specs.Access.{change_access_of, read_access_of, write_access_of};

use crate::outcome::Attempt;
use life::{Caller, Machine, Terminal};
use posix::{Handler, Pid, Sig};
use proctable::ProcessTable;

/// The access of a process to its terminal.
#[derive(Clone, Copy)]
pub enum Access {
    /// The process may use it.
    Allowed,
    /// The call fails with EIO.
    Refused,
    /// A signal is generated for the process group, and then the call restarts.
    Signalled,
}

/// Returns true if a handler is to ignore its signal.
fn is_ignored(handler: Handler) -> bool
    ensures { result ≡ is_ignored_by handler }
{
    matches!(handler, Handler::Ignore)
}

/// Returns true if a caller is in the background of its terminal: its process group isn't the foreground one (XBD 3
/// Background Process Group).
fn is_in_background(me: &Caller, terminal: &Terminal) -> bool
    ensures { (r : Process) (c : Console) → me.now ≡ caller_of r → terminal.now ≡ terminal_of c → result ≡ is_in_background_of r c }
{
    me.group != terminal.foreground
}

/// Returns true if an existing process blocks or ignores a signal. Changes nothing.
fn blocks_or_ignores<K: ProcessTable>(machine: &mut Machine<K>, pid: Pid, sig: Sig) -> bool
    requires { IsSome (process machine.old.state pid) }
    ensures value { (me : Process) → process machine.old.state pid ≡ Some me → result ≡ blocks_or_ignores_signal me sig }
    ensures same { machine.new.state ≡ machine.old.state }
    ensures no_fewer { machine.old.visits ≤ machine.new.visits }
{
    let signals = &machine.look(pid).signals;
    signals.mask().contains(sig) || is_ignored(signals.action(sig).handler)
}

/// Returns the access of an existing caller that wants to change its terminal. It is allowed in the foreground, and if
/// the caller blocks or ignores SIGTTOU. Otherwise it is refused if the caller's process group is orphaned (XBD
/// 11.1.4). Changes nothing.
pub(crate) fn change_access<K: ProcessTable>(
    machine: &mut Machine<K>,
    me: &Caller,
    terminal: &Terminal,
) -> Access
    requires { IsSome (process machine.old.state me.now.pid) }
    ensures value { (r : Process) (c : Console) → process machine.old.state me.now.pid ≡ Some r → me.now ≡ caller_of r → terminal.now ≡ terminal_of c → result ≡ change_access_of machine.old.state r c }
    ensures same { machine.new.state ≡ machine.old.state }
    ensures no_fewer { machine.old.visits ≤ machine.new.visits }
{
    if !is_in_background(me, terminal) || blocks_or_ignores(machine, me.pid, Sig::TTOU) {
        return Access::Allowed;
    }
    if machine.is_orphaned(me.group) {
        Access::Refused
    } else {
        Access::Signalled
    }
}

/// Returns the access of an existing caller that wants to read from its terminal. It is allowed in the foreground.
/// Otherwise it is refused if the caller blocks or ignores SIGTTIN, or its process group is orphaned (XBD 11.1.4).
/// Changes nothing.
pub(crate) fn read_access<K: ProcessTable>(
    machine: &mut Machine<K>,
    me: &Caller,
    terminal: &Terminal,
) -> Access
    requires { IsSome (process machine.old.state me.now.pid) }
    ensures value { (r : Process) (c : Console) → process machine.old.state me.now.pid ≡ Some r → me.now ≡ caller_of r → terminal.now ≡ terminal_of c → result ≡ read_access_of machine.old.state r c }
    ensures same { machine.new.state ≡ machine.old.state }
    ensures no_fewer { machine.old.visits ≤ machine.new.visits }
{
    if !is_in_background(me, terminal) {
        return Access::Allowed;
    }
    if blocks_or_ignores(machine, me.pid, Sig::TTIN) || machine.is_orphaned(me.group) {
        Access::Refused
    } else {
        Access::Signalled
    }
}

/// Returns the access of an existing caller that wants to write to its terminal. It is allowed unless TOSTOP is set. If
/// TOSTOP is set, it is that of a change of the terminal (XBD 11.1.4, 11.2.5). Changes nothing.
pub(crate) fn write_access<K: ProcessTable>(
    machine: &mut Machine<K>,
    me: &Caller,
    terminal: &Terminal,
) -> Access
    requires { IsSome (process machine.old.state me.now.pid) }
    ensures value { (r : Process) (c : Console) → process machine.old.state me.now.pid ≡ Some r → me.now ≡ caller_of r → terminal.now ≡ terminal_of c → result ≡ write_access_of machine.old.state r c }
    ensures same { machine.new.state ≡ machine.old.state }
    ensures no_fewer { machine.old.visits ≤ machine.new.visits }
{
    if terminal.tostop {
        change_access(machine, me, terminal)
    } else {
        Access::Allowed
    }
}

/// Generates a standard signal of the kernel for each member of the caller's process group, and restarts the call.
pub(crate) fn signal_own_group<K: ProcessTable>(
    machine: &mut Machine<K>,
    me: &Caller,
    sig: Sig,
) -> Attempt
    requires { is_realtime sig ≡ false }
    ensures again { result ≡ Attempt.Again }
    ensures state { machine.new.state ≡ record (machine.old.state) { processes = signalled_group sig me.now.group machine.old.state.processes } }
    ensures no_fewer { machine.old.visits ≤ machine.new.visits }
{
    machine.signal_group(me.group, sig);
    Attempt::Again
}
